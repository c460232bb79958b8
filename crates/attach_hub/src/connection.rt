// A connection, and what it stands on.
ghost use Rattle.std.specs.Prelude.{Some};
ghost use Rattle.session_model.specs.Pass.{IsNumber};
ghost use Rattle.session_model.specs.Turning.{MayAsk};
ghost use Rattle.attach_hub.specs.Connection.{TakesTurn};

use daemon_core::Turns;
use engine_ports::{Clock, Sink};
use engine_text::Call;
use session_model::Turned;
use std::alloc::Global;
use std::marker::Model;

/// A connection, and what it stands on while it is served.
#[derive(Drop)]
pub struct Connection<'a, W, T: Turns, K: Sink, C: Clock> {
    /// Where it waits.
    pub rt: &'a W,
    /// Where its memory comes from.
    pub alloc: Global,
    /// Its number, which its pass has.
    pub number: u32,
    /// Its turns on the one daemon.
    pub turns: &'a mut T,
    /// Where its answers go.
    pub sink: &'a mut K,
    /// What time it is.
    pub clock: &'a mut C,
}

impl<'a, W, T: Turns, K: Sink, C: Clock> Model for Connection<'a, W, T, K, C> {
    ghost use Rattle.attach_hub.specs.Connection.{ConnectionView};

    ghost Value = { ConnectionView };

    ghost view = { λ c. record {
      who = record {
        number = c.number;
        lent = (c.turns.ghost_name, c.sink.ghost_name, c.clock.ghost_name);
      };
      pass = T.pass c.turns.now;
      sink = K.takes c.sink.now;
      clock = C.times c.clock.now;
    } };
}

impl<'a, W, T: Turns, K: Sink, C: Clock> Connection<'a, W, T, K, C> {
    /// A turn with a call, at a moment of the clock.
    pub fn turn(&mut self, call: &Call) -> Turned
        requires number { IsNumber self.old.pass.number self.old.who.number }
        requires may { MayAsk self.old.pass.charter self.old.who.number self.old.pass.seen
            (Some call.now) }
        ensures { TakesTurn call.now result self.old self.new }
    {
        let handed = self.clock.now();
        self.turns.turn(self.alloc, self.number, handed, Some(call))
    }
}
