// How often each status was answered.
ghost use Rattle.std.specs.Prelude.{◌≡◌, List, ℕ, IfOk};
ghost use Rattle.drill_model.specs.Answers.{HaveStatuses, counts_of};

use super::answers::first_answer;
use std::alloc::{AllocError, Global};

/// Of each status below 600, how many of the answers have it that the bytes begin with.
pub fn tally(alloc: Global, bytes: &[u8]) -> Result<Vec<u64>, AllocError>
    ensures { IfOk result (λ v. (statuses : List ℕ) × HaveStatuses bytes.now statuses
        × (v.items ≡ counts_of statuses)) }
{
    let mut counts = vec![in alloc; 0u64; 600]?;
    let mut rest = bytes;
    'answers: while let Some((status, behind)) = first_answer(rest) {
        counts[usize::from(status)] += 1;
        rest = behind;
    }
    Ok(counts)
}
