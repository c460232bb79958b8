// Addresses of this machine.
ghost use Rattle.std.specs.Prelude.{◌≡◌, IfOk};
ghost use Rattle.lab_program.specs.Opening.{addr_of};

use engine_text::{NoMemory, Text};
use std::alloc::Global;

/// The address of a port of this machine alone.
pub(crate) fn address_of(alloc: Global, port: u16) -> Result<Text, NoMemory>
    ensures { IfOk result (λ t. t ≡ addr_of port) }
{
    let address = format!(in alloc; "127.0.0.1:{port}")?;
    Ok(Text::from_string(address))
}
