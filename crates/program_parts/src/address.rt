// The address that a line's port is of.
ghost use Rattle.std.specs.Prelude.{◌≡◌, IfOk, string_bytes};
ghost use Rattle.program_parts.specs.Address.{addr_of};

use std::alloc::{AllocError, Global};

/// The address of a port of this machine alone.
pub fn address_of(alloc: Global, port: u16) -> Result<String, AllocError>
    ensures { IfOk result (λ s. string_bytes s ≡ addr_of port) }
{
    format!(in alloc; "127.0.0.1:{port}")
}
