// The container that a call names, or the answer that there is none.
ghost use Rattle.std.specs.Prelude.{◌≡◌, IfOk};
ghost use Rattle.call_plans.specs.Making.{IsLooked};

use crate::answers::refuse;
use crate::prepared::Prepared;
use crate::refusals::{many_found, no_such_container};
use container_table::Held;
use engine_text::{Found, NoMemory};
use machine_effects::Tables;
use std::alloc::Global;

/// The container, or the answer.
pub enum Looked<'m> {
    Stands(&'m Held),
    Refused(Prepared),
}

/// Looks for it.
pub fn look<'m>(
    tables: &'m Tables,
    alloc: Global,
    moment: u64,
    target: &str,
) -> Result<Looked<'m>, NoMemory>
    ensures { IfOk result (λ l. IsLooked l moment target.now tables.now.state) }
{
    match tables.find(target) {
        Found::One(number) => match tables.numbered(number) {
            Some(h) => Ok(Looked::Stands(h)),
            None => {
                let text = no_such_container(alloc, target)?;
                Ok(Looked::Refused(refuse(alloc, moment, 404, &text)?))
            }
        },
        Found::None => {
            let text = no_such_container(alloc, target)?;
            Ok(Looked::Refused(refuse(alloc, moment, 404, &text)?))
        }
        Found::Many => {
            let text = many_found(alloc, target)?;
            Ok(Looked::Refused(refuse(alloc, moment, 400, &text)?))
        }
    }
}
