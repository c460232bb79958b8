// A look at the next request.
ghost use Rattle.std.specs.Prelude.{◌≡◌, ◌<◌, ◌≤◌, ◌+◌, ℕ, [], length, drop};
ghost use Rattle.httparse.specs.Spans.{IsRequestWithin, IsRequestOf};
ghost use Rattle.http_edge.specs.Limits.{head_limit};
ghost use Rattle.front_session.specs.Front.{front_at};
ghost use Rattle.front_session.specs.Steps.{StepsBy, Treats};
ghost use Rattle.front_session.specs.declared.standing.Stage.TheVariants.{Within};

use crate::choosing::{Way, way_framed};
use crate::giving::Given;
use crate::keeping::Owed;
use crate::putting::put_in;
use crate::standing::Stage;
use crate::stepping::Act;
use http_edge::{Ahead, Buffers, HEAD_LIMIT, HeadRead, RequestView};
use httparse::spans::RequestSpans;
use json_answer::Terms;

/// Takes the head that the bytes ahead begin with, and answers what its request asks of its answer, and how it is
/// treated.
fn treat(ahead: &mut Ahead, buffers: &mut Buffers, found: RequestSpans) -> (Terms, Way)
    requires small { length ahead.old ≤ head_limit }
    requires within { IsRequestWithin ahead.old buffers.old.spans found }
    requires of { IsRequestOf ahead.old buffers.old.spans found }
    requires body { buffers.old.body ≡ [] }
    ensures treats { Treats ahead.old buffers.old.spans found result }
    ensures ahead { ahead.new ≡ drop found.len ahead.old }
{
    let framing = buffers.take_head(ahead, found);
    let request = RequestView::new(buffers, found, 0);
    (
        Terms::of(&request),
        way_framed(&request, framing, found.headers),
    )
}

/// Takes the head that the bytes ahead begin with: its request is to be answered, or to be handed on. Answers where
/// the front stands then, too.
fn decide(
    ahead: &mut Ahead,
    buffers: &mut Buffers,
    owed: &mut Owed,
    found: RequestSpans,
) -> (Act, Stage)
    requires small { length ahead.old ≤ head_limit }
    requires within { IsRequestWithin ahead.old buffers.old.spans found }
    requires of { IsRequestOf ahead.old buffers.old.spans found }
    requires body { buffers.old.body ≡ [] }
    requires owed { owed.old ≡ [] }
    ensures { (size : ℕ) → StepsBy result.0 size (front_at owed.old ahead.old (Within 0))
        (front_at owed.new ahead.new result.1) }
{
    owed.keep(&ahead.as_slice()[..found.len]);
    match treat(ahead, buffers, found) {
        (terms, Way::Answered(row)) => {
            owed.clear();
            (Act::Answers(terms, row), Stage::Within(0))
        }
        (terms, Way::Closes(row)) => {
            owed.clear();
            (Act::Answers(terms, row), Stage::Closed)
        }
        (_, Way::HandedOn(count)) => (Act::On, Stage::Within(count)),
        (_, Way::Changed(change)) => {
            put_in(owed, change);
            (Act::On, Stage::Within(0))
        }
        (_, Way::Opens) => (Act::On, Stage::Open),
    }
}

/// How many bytes are wanted, where a place has so many, and so many are ahead.
fn wanted(place: usize, ahead: usize) -> usize
    requires some { 0 < place }
    requires room { ahead < head_limit }
    ensures some { 0 < result }
    ensures place { result ≤ place }
    ensures room { ahead + result ≤ head_limit }
{
    place.min(HEAD_LIMIT - ahead)
}

/// Looks at the next request, as far as it is ahead.
pub(crate) fn look(
    ahead: &mut Ahead,
    buffers: &mut Buffers,
    owed: &mut Owed,
    place: usize,
) -> (Act, Stage)
    requires owed { owed.old ≡ [] }
    requires place { 0 < place }
    ensures { StepsBy result.0 place (front_at owed.old ahead.old (Within 0))
        (front_at owed.new ahead.new result.1) }
{
    buffers.clear();
    let mut nothing = Given::new(&[]);
    match buffers.read_head(&mut nothing, ahead) {
        HeadRead::Head(found) => decide(ahead, buffers, owed, found),
        HeadRead::Malformed => (Act::On, Stage::Open),
        HeadRead::TooLong => (Act::On, Stage::Open),
        HeadRead::CutShort => (Act::Wants(wanted(place, ahead.len())), Stage::Within(0)),
        HeadRead::End => (Act::Wants(wanted(place, ahead.len())), Stage::Within(0)),
        HeadRead::Failed => unreachable!(),
    }
}
