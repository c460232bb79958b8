// Names of containers.
ghost use Rattle.std.specs.Prelude.{◌≡◌, ℕ, ◌+◌, ◌<◌, ◌^◌, IfOk};
ghost use Rattle.machine_model.specs.Consistency.{is_there};
ghost use Rattle.machine_model.specs.Names as spec;

use container_table::Table;
use engine_text::{NoMemory, Text, without_slash};
use std::alloc::Global;

fn anonymous(alloc: Global, n: u64) -> Result<Text, NoMemory>
    ensures { IfOk result (λ t. t ≡ spec.anonymous n) }
{
    let name = format!(in alloc; "anon-{n}")?;
    Ok(Text::from_string(name))
}

fn is_taken(table: &Table, name: &str) -> bool
    ensures { result ≡ is_there (spec.holder name.now table.now.containers) }
{
    match table.find_name(name) {
        None => false,
        Some(_) => true,
    }
}

// Of so many numbers from n on and one more, the name of the first that is free.
fn first_free(alloc: Global, table: &Table, n: u64, most: usize) -> Result<Text, NoMemory>
    requires { n + most < 2 ^ 64 }
    ensures { IfOk result
        (λ t. t ≡ spec.anonymous (spec.first_free most n table.now.containers)) }
{
    let mut name = anonymous(alloc, n)?;
    for i in 0..most {
        if !is_taken(table, name.as_str()) {
            return Ok(name);
        }
        name = anonymous(alloc, n + i as u64 + 1)?;
    }
    Ok(name)
}

/// The name that a create gives its container, the next number being n.
pub fn chosen_name(
    alloc: Global,
    given: &Option<Text>,
    n: u64,
    table: &Table,
) -> Result<Text, NoMemory>
    requires { n < 2 ^ 63 }
    ensures { IfOk result (λ t. t ≡ spec.chosen_name given.now n table.now.containers) }
{
    match given {
        Some(name) => Text::of(alloc, without_slash(name.as_str())),
        None => first_free(alloc, table, n, table.len()),
    }
}
