// A door that is lent, which the threads' scope holds by value.
ghost use Rattle.std.specs.Prelude.{◌≡◌, ◌<◌, ℕ};
ghost use Rattle.engine_ports.specs.Door.{DoorView, AcceptSays, LeaveSays};
ghost use Rattle.daemon_shared.specs.Sessions.{told_by};

use engine_ports::{Arrival, Clock, Door, Parting, Sink, Source};

/// What the shared daemon asks of a door: it stays the same one.
pub trait OneDoor: Drop {
    type From: Source + Send + Drop;

    type Into: Sink + Send + Drop;

    type Time: Clock + Send + Drop;

    type Past: Parting<Self::From, Self::Into, Self::Time>;

    ghost opens: { Self → DoorView };

    ghost which: { Self → ℕ };

    fn accept(&mut self) -> Arrival<Self::From, Self::Into, Self::Time>
        ensures says { AcceptSays (told_by Self.From.gives Self.Into.takes Self.Time.times) result
            (opens self.old) (opens self.new) }
        ensures same { which self.new ≡ which self.old };

    fn leave(&mut self, number: u32, past: Self::Past)
        requires { 0 < (opens self.old).owed }
        ensures says { LeaveSays number (Self.Past.tells past) (opens self.old) (opens self.new) }
        ensures same { which self.new ≡ which self.old };
}

/// A door by the reference to it.
#[derive(Drop)]
pub struct LentDoor<'d, D> {
    pub door: &'d mut D,
}

impl<'d, D: Door> OneDoor for LentDoor<'d, D> {
    type From = D::From;

    type Into = D::Into;

    type Time = D::Time;

    type Past = D::Past;

    ghost opens = { λ h. D.opens h.door.now };

    ghost which = { λ h. h.door.ghost_name };

    fn accept(&mut self) -> Arrival<D::From, D::Into, D::Time> {
        self.door.accept()
    }

    fn leave(&mut self, number: u32, past: D::Past) {
        self.door.leave(number, past);
    }
}
