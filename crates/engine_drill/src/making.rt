// All requests of a drill.
ghost use Rattle.std.specs.Prelude.{◌≡◌, IfOk};
ghost use Rattle.std.specs.List.{concat};
ghost use Rattle.drill_model.specs.Requests.{drill_requests};

use super::request::request_of;
use rand_chacha::ChaCha20Rng;
use rand_core::SeedableRng;
use rand_core::utils::NextWord;
use std::alloc::{AllocError, Global};

/// The requests of a drill of so many under a seed, one behind the other.
pub fn requests(alloc: Global, seed: [u8; 32], count: u32) -> Result<Vec<u8>, AllocError>
    ensures { IfOk result (λ v. v.items ≡ concat (drill_requests seed count)) }
{
    let mut rng = ChaCha20Rng::from_seed(seed);
    rng.set_stream(u64::MAX);
    let mut bytes = Vec::new(alloc);
    for _place in 0..count {
        let word = rng.next_word();
        let request = request_of(alloc, word)?;
        bytes.extend_from_slice(request.as_bytes())?;
    }
    Ok(bytes)
}
