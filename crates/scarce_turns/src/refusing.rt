// Turns of an owner, of which some are refused for want of memory.
ghost use Rattle.std.specs.Prelude.{◌≡◌, IfSome, IfNone, refl};
ghost use Rattle.std.specs.Option.{option_map};
ghost use Rattle.session_model.specs.Pass.{IsNumber};
ghost use Rattle.session_model.specs.Turning.{MayAsk, Turn};
ghost use Rattle.session_model.proofs.PassLemmas.{none_joined};
ghost use Rattle.daemon_core.specs.Keeping.{history_of};
ghost use Rattle.daemon_core.specs.Pairing.{IsOther, Rejoined};
ghost use Rattle.scarce_turns.specs.Refusing.{scarce_pass, TurnsScarcely};

use crate::counting::Scarcity;
use daemon_core::{Alone, Pairs, Turns};
use engine_text::{Call, Filter, LogSpec};
use session_model::{Part, Turned};
use std::alloc::Global;

/// Turns of an owner, of which those that a scarcity tells are refused for want of memory.
#[derive(Drop)]
pub struct Scarce {
    turns: Alone,
    scarcity: Scarcity,
    /// How many turns were counted so far.
    asked: u64,
}

impl Scarce {
    ghost use Rattle.daemon_core.specs.Passing.{alone_pass};
    ghost use Rattle.scarce_turns.specs.Refusing.{IsFresh};

    /// None was counted yet.
    pub fn new(turns: Alone, scarcity: Scarcity) -> Scarce
        ensures { IsFresh (alone_pass turns) scarcity result }
    {
        Scarce {
            turns,
            scarcity,
            asked: 0,
        }
    }

    pub fn into_inner(self) -> Alone
        ensures { alone_pass result ≡ scarce_pass self }
    {
        self.turns
    }
}

impl Turns for Scarce {
    ghost pass = { scarce_pass };

    #[tactic(auto, using(crate::proofs::RefusalLemmas::refused_turn))]
    fn turn(&mut self, alloc: Global, conn: u32, handed: u64, call: Option<&Call>) -> Turned
        requires number { IsNumber (scarce_pass self.old).number conn }
        requires may { MayAsk (scarce_pass self.old).charter conn
            (scarce_pass self.old).seen (option_map (λ c. c.now) call) }
        ensures turn { Turn conn handed (option_map (λ c. c.now) call.entry) result
            (scarce_pass self.old) (scarce_pass self.new) }
        ensures scarce { TurnsScarcely (option_map (λ c. c.now) call.entry) result
            self.old self.new }
    {
        let refused = self.scarcity.refuses(self.asked, call);
        self.asked = self.scarcity.counted_on(self.asked, call);
        if refused {
            return Turned::NoMemory;
        }
        self.turns.turn(alloc, conn, handed, call)
    }

    fn log_from(
        &mut self,
        alloc: Global,
        conn: u32,
        handed: u64,
        spec: &LogSpec,
        place: u64,
        out: &mut Vec<u8>,
    ) -> Part {
        self.turns.log_from(alloc, conn, handed, spec, place, out)
    }

    fn events_from(
        &mut self,
        alloc: Global,
        conn: u32,
        handed: u64,
        number: u64,
        out: &mut Vec<u8>,
        filter: &Filter,
        until: Option<u64>,
    ) -> Part {
        self.turns
            .events_from(alloc, conn, handed, number, out, filter, until)
    }

    fn journal_from(&mut self, alloc: Global, conn: u32, number: u64, out: &mut Vec<u8>) -> Part {
        self.turns.journal_from(alloc, conn, number, out)
    }

    ghost sound = { λ s. s.turns.daemon.legal };

    ghost counted = { λ s. record {
      own = refl;
      joined = none_joined (history_of s.turns.daemon.stored.journal);
    } };
}

impl Pairs for Scarce {
    type Other = Scarce;

    fn part(&mut self, _: Global, _: u32) -> Option<Scarce> {
        None
    }

    fn rejoin(&mut self, conn: u32, other: Option<Scarce>)
        requires { IfSome other (λ o. IsOther conn (scarce_pass self.old)
            (scarce_pass o)) }
        ensures none { IfNone other (scarce_pass self.new ≡ scarce_pass self.old) }
        ensures some { IfSome other (λ o. Rejoined conn (scarce_pass self.old)
            (scarce_pass o) (scarce_pass self.new)) }
    {
        let _ = conn;
        drop(other);
    }
}
