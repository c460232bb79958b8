// The items of one piece of a stream (Docker Engine API v1.43, ContainerAttach, "Stream format").
ghost use Rattle.std.specs.Prelude.{◌≡◌, ◌≤◌, ◌⊎◌, ◌++◌, [], length};
ghost use Rattle.std.specs.Iterator.{YieldsFirstBy, item_count};
ghost use Rattle.stream_frame.specs.Steps.{held_after, items_of, IsPastHeader};
ghost use Rattle.stream_frame.specs.Walks.{seen_item, items_left};

use crate::demux::{Demux, Next};
use crate::fault::FrameFault;
use engine_text::Stream;

/// What a piece adds to the payloads: slices of it, and a fault at last. It walks the piece by
/// itself, so that it doesn't matter whether its items are taken.
#[derive(Drop)]
pub struct Pieces<'p> {
    pub(crate) demux: Demux,
    pub(crate) piece: &'p [u8],
    pub(crate) told: bool,
}

/// Goes past the bytes of headers at the front of a piece.
pub(crate) fn past_headers<'p>(demux: &mut Demux, piece: &'p [u8]) -> &'p [u8]
    ensures items { items_of demux.new result.now ≡ items_of demux.old piece.now }
    ensures after { held_after demux.new result.now ≡ held_after demux.old piece.now }
    ensures shorter { length result.now ≤ length piece.now }
    ensures past { IsPastHeader demux.new.rest result.now }
{
    let mut rest = piece;
    while let (Next::Header(_), Some((byte, others))) = (demux.next(), rest.split_first()) {
        demux.take_byte(*byte);
        rest = others;
    }
    rest
}

/// The bytes of a piece that are of a payload which lacks so many, and the others.
pub(crate) fn part_of(piece: &[u8], missing: u32) -> (&[u8], &[u8])
    ensures joined { piece.now ≡ result.0.now ++ result.1.now }
    ensures within { length result.0.now ≤ missing }
    ensures all { (result.1.now ≡ []) ⊎ (length result.0.now ≡ missing) }
{
    let count = piece.len().min(missing as usize);
    piece.split_at(count)
}

impl<'p> Iterator for Pieces<'p> {
    type Item = Result<(Stream, &'p [u8]), FrameFault>;

    ghost next_gives = { YieldsFirstBy seen_item items_left };

    ghost remaining = { item_count items_left };

    fn next(&mut self) -> Option<Result<(Stream, &'p [u8]), FrameFault>> {
        if self.told {
            return None;
        }
        let piece = past_headers(&mut self.demux, self.piece);
        match self.demux.next() {
            Next::Header(_) => {
                self.piece = piece;
                None
            }
            Next::Payload(kind, missing) => {
                let (part, rest) = part_of(piece, missing);
                self.demux.take_part(part.len());
                self.piece = rest;
                if part.is_empty() {
                    None
                } else {
                    Some(Ok((kind, part)))
                }
            }
            Next::Faulted(fault) => {
                self.piece = piece;
                self.told = true;
                Some(Err(fault))
            }
        }
    }
}
