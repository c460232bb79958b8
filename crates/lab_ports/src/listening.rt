// What a door tells of itself.
ghost use Rattle.std.specs.Prelude.{◌≡◌, ℕ, Option};

use engine_ports::Door;

/// A door that tells its port and how often a call of it failed.
pub trait Listening: Door {
    /// The port at which it listens, once it is bound.
    ghost listens: { Self → Option ℕ };

    fn port(&self) -> Option<u16>
        ensures { result ≡ Self.listens self.now };

    fn faults(&self) -> u64
        ensures { result ≡ (Self.opens self.now).faults };
}
