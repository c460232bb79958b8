// What a request does to networks.
ghost use Rattle.std.specs.Prelude.{◌≡◌, [], IfOk, OnErr, position};
ghost use Rattle.std.specs.List.{list_any};
ghost use Rattle.http_edge.specs.Reader.{request_of};
ghost use Rattle.lab_networks.specs.Known.{is_called, fixed_called};
ghost use Rattle.lab_networks.specs.Shown.{list_text};
ghost use Rattle.lab_networks.specs.Steps as spec;

use crate::answer::{Answer, answer_of, missing};
use crate::asking::{Kind, called_of};
use crate::known::fixed_called;
use crate::listing::list_text;
use crate::made::Made;
use crate::making::make;
use crate::removing::{place_of, prune, remove};
use crate::showing::{fixed_text, made_text};
use engine_text::{NoMemory, Text};
use http_edge::RequestView;
use std::alloc::Global;

/// An answer of status 200.
fn well(text: Text) -> Answer
    ensures { result ≡ spec.answer 200 text }
{
    Answer { status: 200, text }
}

/// The one that was made and is called so.
fn read_made(alloc: Global, called: &str, networks: &[Made]) -> Result<Answer, NoMemory>
    ensures { IfOk result (λ a. a ≡ (spec.read_at networks.now
        (position (is_called called.now) networks.now)).1) }
{
    match place_of(networks, called) {
        None => missing(alloc),
        Some(place) => {
            let text = made_text(alloc, &networks[place])?;
            Ok(well(text))
        }
    }
}

/// The network that is called so.
fn read(alloc: Global, called: &str, networks: &[Made]) -> Result<Answer, NoMemory>
    ensures { IfOk result
        (λ a. a ≡ (spec.read_by called.now networks.now (fixed_called called.now)).1) }
{
    match fixed_called(called) {
        Some(which) => {
            let text = fixed_text(alloc, which)?;
            Ok(well(text))
        }
        None => read_made(alloc, called, networks),
    }
}

/// Whether one that was made is called so.
fn is_made(called: &str, networks: &[Made]) -> bool
    ensures { result ≡ list_any (is_called called.now) networks.now }
{
    networks.iter().any(|made| made.is_called(called))
}

/// Whether a network is called so.
fn stands(called: &str, networks: &[Made]) -> bool
    ensures { result ≡ spec.stands called.now networks.now }
{
    match fixed_called(called) {
        Some(_) => true,
        None => is_made(called, networks),
    }
}

/// A container is joined to the network that is called so, or parted from it.
fn join(alloc: Global, called: &str, networks: &[Made]) -> Result<Answer, NoMemory>
    ensures { IfOk result (λ a. a ≡ (spec.joined called.now networks.now).1) }
{
    if stands(called, networks) {
        return answer_of(alloc, 200, "");
    }
    missing(alloc)
}

fn list(alloc: Global, target: &str, networks: &[Made]) -> Result<Answer, NoMemory>
    ensures { IfOk result
        (λ a. a ≡ spec.answer 200 (list_text target.now networks.now)) }
{
    let text = list_text(alloc, target, networks)?;
    Ok(well(text))
}

/// Does what a request asks of networks, and answers it. Where memory is refused nothing is done.
pub fn apply(
    alloc: Global,
    kind: Kind,
    request: &RequestView<'_>,
    networks: &mut Vec<Made>,
) -> Result<Answer, NoMemory>
    ensures ok { IfOk result (λ a. (networks.new.items, a)
        ≡ spec.step kind networks.old.items (request_of request.now)) }
    ensures err { OnErr result (networks.new.items ≡ networks.old.items) }
{
    let target = request.target();
    match kind {
        Kind::Lists => list(alloc, target, networks),
        Kind::Reads => read(alloc, called_of(target), networks),
        Kind::Makes => make(alloc, request.body(), networks),
        Kind::Removes => remove(alloc, called_of(target), networks),
        Kind::Joins => join(alloc, called_of(target), networks),
        Kind::Prunes => prune(alloc, networks),
    }
}
