// The execs of a container, and which of them run.
ghost use Rattle.std.specs.Prelude.{◌≡◌, ◌==◌, ◌<◌, ◌≤◌, length, map, filter, vec_capacity, IfOk};
ghost use Rattle.machine_events.specs.Running.{is_alive, is_running};

use engine_text::{Exec, NoMemory, Numbers, Owner};
use exec_table::Execs;
use proc_kernel::Kernel;
use std::alloc::Global;

fn is_alive(x: &Exec, kernel: &Kernel) -> bool
    ensures { result ≡ is_alive kernel.now.processes x.now }
{
    kernel.stands(Owner::Exec(x.number))
}

/// Lists the numbers of the container's running execs.
pub fn list_running(execs: &Execs, kernel: &Kernel, number: u64, into: &mut Vec<u64>)
    requires { length execs.now.execs ≤ vec_capacity into.old }
    ensures items { into.new.items ≡ map (λ x. x.number)
        (filter (is_running number kernel.now.processes) execs.now.execs) }
    ensures capacity { vec_capacity into.new ≡ vec_capacity into.old }
{
    into.clear();
    for x in execs.of_container(number) {
        if is_alive(x, kernel) {
            into.push_reserved(x.number);
        }
    }
}

/// The numbers of the container's execs.
pub fn numbers_of(execs: &Execs, alloc: Global, number: u64) -> Result<Numbers, NoMemory>
    ensures { IfOk result (λ l. l
        ≡ map (λ x. x.number) (filter (λ x. x.container == number) execs.now.execs)) }
{
    let mut numbers = Numbers::new(alloc);
    for x in execs.of_container(number) {
        numbers.push(alloc, x.number)?;
    }
    Ok(numbers)
}
