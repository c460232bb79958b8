// What is done with a body as it comes.
ghost use Rattle.std.specs.Prelude.{◌≡◌, ◌<◌, ◌++◌, [], length, IfOk};
ghost use Rattle.engine_ports.specs.Sink.{SinkView};
ghost use Rattle.client_model.specs.Plans.{Written, nothing, to_out};
ghost use Rattle.client_exchange.specs.Outputs.{Outputs, outputs, WritesBoth, IfUnwritten};
ghost use Rattle.client_exchange.specs.Taking.{IfUntaken, taken, adds, after, ends_by, is_whole, unfit_by, is_faulted};
ghost use Rattle.client_model.specs.declared.showing.Showing.TheVariants.{Kept};

use crate::frames::write_frames;
use crate::limit::is_too_long;
use client_model::{Fault, Showing};
use engine_ports::Sink;
use std::alloc::Global;
use std::marker::Model;
use stream_frame::{Demux, Ended};

/// Takes a body as it comes.
#[derive(Drop)]
pub struct Taker {
    showing: Showing,
    kept: Vec<u8>,
    demux: Demux,
}

impl Model for Taker {
    ghost use Rattle.client_exchange.specs.Taking.{Taken};

    ghost Value = { Taken };

    ghost view = { λ t. record { showing = t.showing; kept = t.kept.items; demux = t.demux } };
}

impl Taker {
    /// Before the first byte of a body.
    pub fn new(alloc: Global, showing: Showing) -> Taker
        ensures { result ≡ taken showing [] }
    {
        Taker {
            showing,
            kept: Vec::new(alloc),
            demux: Demux::new(),
        }
    }

    /// The body, where it is kept, lent.
    pub fn kept(&self) -> &[u8]
        ensures { result.now ≡ self.now.kept }
    {
        &self.kept
    }

    /// The body, where it was kept.
    pub fn into_kept(self) -> Vec<u8>
        ensures { result.items ≡ self.kept }
    {
        self.kept
    }

    /// Takes a piece more, and writes what it shows. An output fails only by a byte that was to be written to it.
    pub fn take<K: Sink, E: Sink>(
        &mut self,
        piece: &[u8],
        out: &mut K,
        errors: &mut E,
    ) -> Result<(), Fault>
        ensures written { WritesBoth result (adds self.old piece.now)
            (outputs (K.takes out.old) (E.takes errors.old))
            (outputs (K.takes out.new) (E.takes errors.new)) }
        ensures failing { 0 < length piece.now
            → IfUntaken result self.old.showing (adds self.old piece.now) }
        ensures after { IfOk result (λ x. self.new ≡ after self.old piece.now) }
    {
        match self.showing {
            Showing::Kept => keep(&mut self.kept, piece),
            Showing::Copied => copy(out, piece),
            Showing::Demuxed => write_frames(&mut self.demux, piece, out, errors),
        }
    }

    /// Whether a body may end behind what was taken.
    #[tactic(auto, using(crate::proofs::TakingLemmas::border_so))]
    pub fn may_end(&self) -> bool
        ensures { result ≡ ends_by self.now }
    {
        match self.showing {
            Showing::Kept => true,
            Showing::Copied => true,
            Showing::Demuxed => is_whole(self.demux.end()),
        }
    }

    /// Whether so much shows that the body can't be taken: it is longer than what is kept, or a byte came that no frame has
    /// there.
    #[tactic(auto, using(crate::proofs::TakingLemmas::wrong_so))]
    pub fn is_unfit(&self) -> bool
        ensures { result ≡ unfit_by self.now }
    {
        match self.showing {
            Showing::Kept => is_too_long(&self.kept),
            Showing::Copied => false,
            Showing::Demuxed => is_faulted(self.demux.end()),
        }
    }
}

/// Whether a stream ended at a wrong byte.
fn is_faulted(ended: Ended) -> bool
    ensures { result ≡ is_faulted ended }
{
    match ended {
        Ended::Faulted(_) => true,
        Ended::Whole | Ended::CutHeader(_) | Ended::CutPayload(_) => false,
    }
}

/// Whether a stream ended behind a whole frame.
fn is_whole(ended: Ended) -> bool
    ensures { result ≡ is_whole ended }
{
    match ended {
        Ended::Whole => true,
        Ended::CutHeader(_) | Ended::CutPayload(_) | Ended::Faulted(_) => false,
    }
}

/// Keeps a piece, and writes nothing.
#[tactic(auto, using(crate::proofs::OutputLemmas::both_none, crate::proofs::OutputLemmas::began_none))]
fn keep(kept: &mut Vec<u8>, piece: &[u8]) -> Result<(), Fault>
    ensures written { (o : Outputs) → WritesBoth result nothing o o }
    ensures failing { (w : Written) → IfUntaken result Kept w }
    ensures kept { IfOk result (λ x. kept.new.items ≡ kept.old.items ++ piece.now) }
{
    match kept.extend_from_slice(piece) {
        Ok(()) => Ok(()),
        Err(_) => Err(Fault::NoMemory),
    }
}

/// Writes a piece to standard output.
fn copy<K: Sink>(out: &mut K, piece: &[u8]) -> Result<(), Fault>
    ensures written { (e : SinkView) → WritesBoth result (to_out piece.now)
        (outputs (K.takes out.old) e) (outputs (K.takes out.new) e) }
    ensures failing { 0 < length piece.now → IfUnwritten result (to_out piece.now) }
{
    match out.write(piece) {
        Ok(()) => Ok(()),
        Err(_) => Err(Fault::Output),
    }
}
