// Turns of a connection, of which those of its standard input may be taken apart.
ghost use Rattle.std.specs.Prelude.{◌≡◌, IsTrue, IfSome, IfNone};
ghost use Rattle.machine_model.specs.History.{input_of};
ghost use Rattle.session_model.specs.Pass.{IsNumber, IsConnection};
ghost use Rattle.daemon_core.specs.Passing.{alone_pass};
ghost use Rattle.daemon_core.specs.Pairing.{IsUndivided, Parted, IsOther, Rejoined};

use crate::{Alone, Turns};
use std::alloc::Global;

/// What is added to a connection's number for that of its standard input.
const INPUT: u32 = 2_147_483_648;

/// The number of a connection's standard input.
pub fn input_of(conn: u32) -> u32
    requires { IsConnection conn }
    ensures { result ≡ input_of conn }
{
    conn + INPUT
}

/// Turns of a connection, of which those of its standard input may be taken apart.
pub trait Pairs: Turns {
    /// Who takes the turns of the input.
    type Other: Turns + Send;

    /// Parts off who takes the turns of the connection's input; who takes all turns parts nobody
    /// off. It takes no memory.
    fn part(&mut self, alloc: Global, conn: u32) -> Option<Self::Other>
        requires connection { IsConnection conn }
        requires number { IsNumber (Self.pass self.old).number conn }
        requires pair { IsTrue (Self.pass self.old).pair }
        ensures none { IfNone result (IsUndivided (Self.pass self.old) (Self.pass self.new)) }
        ensures some { IfSome result
            (λ o. Parted conn (Self.pass self.old) (Self.pass self.new) (Self.Other.pass o)) };

    /// Takes in again who was parted off.
    fn rejoin(&mut self, conn: u32, other: Option<Self::Other>)
        requires { IfSome other (λ o. IsOther conn (Self.pass self.old) (Self.Other.pass o)) }
        ensures none { IfNone other (Self.pass self.new ≡ Self.pass self.old) }
        ensures some { IfSome other
            (λ o. Rejoined conn (Self.pass self.old) (Self.Other.pass o) (Self.pass self.new)) };
}

impl Pairs for Alone {
    type Other = Alone;

    fn part(&mut self, _: Global, _: u32) -> Option<Alone> {
        None
    }

    fn rejoin(&mut self, conn: u32, other: Option<Alone>)
        requires { IfSome other (λ o. IsOther conn (alone_pass self.old) (alone_pass o)) }
        ensures none { IfNone other (alone_pass self.new ≡ alone_pass self.old) }
        ensures some { IfSome other
            (λ o. Rejoined conn (alone_pass self.old) (alone_pass o) (alone_pass self.new)) }
    {
        let _ = conn;
        drop(other);
    }
}
