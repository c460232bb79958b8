// The lesser of what is due, and the number of an owner.
ghost use Rattle.std.specs.Prelude.{◌≡◌};
ghost use Rattle.container_table.specs.Timers.{is_before};
ghost use Rattle.machine_model.specs.State.{owner_number};
ghost use Rattle.machine_tables.specs.LeastDue.{lesser, nearer};

use engine_text::{DueAction, Owner};

fn is_before(a: DueAction, b: DueAction) -> bool
    ensures { result ≡ is_before a b }
{
    a.moment < b.moment
        || (a.moment == b.moment && (a.rank < b.rank || (a.rank == b.rank && a.number < b.number)))
}

/// The lesser of the best so far and another.
pub fn nearer(best: Option<DueAction>, action: DueAction) -> Option<DueAction>
    ensures { result ≡ nearer best action }
{
    match best {
        None => Some(action),
        Some(b) => Some(if is_before(action, b) { action } else { b }),
    }
}

pub fn lesser(best: Option<DueAction>, other: Option<DueAction>) -> Option<DueAction>
    ensures { result ≡ lesser best other }
{
    match other {
        None => best,
        Some(action) => nearer(best, action),
    }
}

/// The number of a container or an exec.
pub fn number_of(owner: Owner) -> u64
    ensures { result ≡ owner_number owner }
{
    match owner {
        Owner::Container(number) => number,
        Owner::Exec(number) => number,
    }
}
