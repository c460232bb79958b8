// Networks are removed.
ghost use Rattle.std.specs.Prelude.{◌≡◌, [], IfOk, OnErr, position};
ghost use Rattle.lab_networks.specs.Known.{is_called, fixed_called};
ghost use Rattle.lab_networks.specs.Steps as spec;

use crate::answer::{Answer, answer_of, missing};
use crate::known::{Fixed, fixed_called, fixed_name};
use crate::made::Made;
use engine_text::{NoMemory, Text};
use std::alloc::Global;

/// Where the network stands that is called so.
pub(crate) fn place_of(networks: &[Made], called: &str) -> Option<usize>
    ensures { result ≡ position (is_called called.now) networks.now }
{
    networks.iter().position(|made| made.is_called(called))
}

/// The answer of one of the three, which stays.
fn kept(alloc: Global, which: Fixed) -> Result<Answer, NoMemory>
    ensures { IfOk result (λ a. a ≡ spec.answer 403 (spec.kept_text which)) }
{
    let name = fixed_name(which);
    let text = format!(in alloc;
        "{{\"message\":\"{name} is a pre-defined network and cannot be removed\"}}"
    )?;
    Ok(Answer {
        status: 403,
        text: Text::from_string(text),
    })
}

/// Removes the one that is called so, where it is made.
fn remove_made(alloc: Global, called: &str, networks: &mut Vec<Made>) -> Result<Answer, NoMemory>
    ensures ok { IfOk result (λ a. (networks.new.items, a)
        ≡ spec.removed_at networks.old.items (position (is_called called.now) networks.old.items)) }
    ensures err { OnErr result (networks.new.items ≡ networks.old.items) }
{
    match place_of(networks, called) {
        None => missing(alloc),
        Some(place) => {
            networks.remove(place);
            Ok(Answer {
                status: 204,
                text: Text::new(alloc),
            })
        }
    }
}

/// Removes the network that is called so.
pub(crate) fn remove(
    alloc: Global,
    called: &str,
    networks: &mut Vec<Made>,
) -> Result<Answer, NoMemory>
    ensures ok { IfOk result (λ a. (networks.new.items, a)
        ≡ spec.removed_by called.now networks.old.items (fixed_called called.now)) }
    ensures err { OnErr result (networks.new.items ≡ networks.old.items) }
{
    match fixed_called(called) {
        Some(which) => kept(alloc, which),
        None => remove_made(alloc, called, networks),
    }
}

/// The answer of networks that are pruned.
fn pruned(alloc: Global, networks: &[Made]) -> Result<Answer, NoMemory>
    ensures { IfOk result (λ a. a ≡ (spec.pruned networks.now).1) }
{
    if networks.is_empty() {
        return answer_of(alloc, 200, "{\"NetworksDeleted\":null}");
    }
    let names = networks.join(alloc, "\",\"")?;
    let names = names.as_str();
    let text = format!(in alloc; "{{\"NetworksDeleted\":[\"{names}\"]}}")?;
    Ok(Answer {
        status: 200,
        text: Text::from_string(text),
    })
}

/// Removes all that were made.
pub(crate) fn prune(alloc: Global, networks: &mut Vec<Made>) -> Result<Answer, NoMemory>
    ensures ok { IfOk result (λ a. (networks.new.items, a) ≡ spec.pruned networks.old.items) }
    ensures err { OnErr result (networks.new.items ≡ networks.old.items) }
{
    let answer = pruned(alloc, networks)?;
    networks.clear();
    Ok(answer)
}
