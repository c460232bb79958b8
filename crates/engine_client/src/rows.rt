// The rows of containers, found by their ids.
ghost use Rattle.std.specs.Prelude.{◌≡◌, ◌<◌, ℕ, List, [], ◌∷◌, ◌++◌, drop, get_or, set, length, slice_get, if◌then◌else◌, OnOk, OnErr};
ghost use Rattle.api_json.specs.Event.{IsLine};
ghost use Rattle.engine_text.specs.Texts.{same_bytes};
ghost use Rattle.engine_text.specs.declared.event.FoldRow.{FoldRow as ARow};
ghost use Rattle.engine_text.specs.declared.event.Action.TheVariants as action;
ghost use Rattle.engine_text.specs.declared.event.EventKind.TheVariants as kind;
ghost use Rattle.event_ring.specs.Fold.{fold_kind};
ghost use Rattle.engine_client.specs.Rows.{joined, places_at, IsIndexed, IsChange};

use engine_text::{Action, Event, EventKind, NoMemory};
use event_ring::Fold;
use std::alloc::Global;
use std::collections::{HashMap, VecDeque};
use std::marker::Model;

/// The rows of the containers that events tell, in order of creation. What an event costs doesn't grow with their number.
#[derive(Drop)]
pub struct Rows {
    /// One for each create, in order: its row, until that is destroyed.
    folds: Vec<Fold>,
    /// By a container's id, the places of the folds that have its rows, in order.
    places: HashMap<String, VecDeque<usize>>,
}

impl Model for Rows {
    ghost use Rattle.std.specs.Prelude.{List};
    ghost use Rattle.engine_text.specs.declared.event.FoldRow.{FoldRow as ARow};
    ghost use Rattle.engine_client.specs.Rows.{rows_inside, IsSound};

    ghost Value = { List ARow };

    ghost view = { rows_inside };

    ghost invariant = { IsSound };
}

// ---- the index

/// The first place of an id.
fn first_place(places: &HashMap<String, VecDeque<usize>>, id: &str) -> Option<usize>
    ensures { result ≡ slice_get (places_at places.now id.now) 0 }
{
    match places.get(id) {
        Some(there) => there.front().copied(),
        None => None,
    }
}

/// One place more, where an id has some.
fn push_place(there: &mut VecDeque<usize>, place: usize) -> Result<(), NoMemory>
    ensures ok { OnOk result (there.new.items ≡ there.old.items ++ place ∷ []) }
    ensures err { OnErr result (there.new.items ≡ there.old.items) }
{
    match there.push_back(place) {
        Ok(()) => Ok(()),
        Err(_) => Err(NoMemory),
    }
}

/// The place of an id that has none.
fn put_place(
    places: &mut HashMap<String, VecDeque<usize>>,
    alloc: Global,
    id: &str,
    place: usize,
) -> Result<(), NoMemory>
    requires { places_at places.old id.now ≡ [] }
    ensures ok { OnOk result ((q : List ℕ) → places_at places.new q
        ≡ (if same_bytes id.now q then place ∷ [] else places_at places.old q)) }
    ensures err { OnErr result ((q : List ℕ) → places_at places.new q ≡ places_at places.old q) }
{
    let key = String::from_str(alloc, id)?;
    let mut there = VecDeque::new(alloc);
    push_place(&mut there, place)?;
    match places.insert(key, there) {
        Ok(_) => Ok(()),
        Err(_) => Err(NoMemory),
    }
}

/// One place more of an id.
fn add_place(
    places: &mut HashMap<String, VecDeque<usize>>,
    alloc: Global,
    id: &str,
    place: usize,
) -> Result<(), NoMemory>
    ensures ok { OnOk result ((q : List ℕ) → places_at places.new q
        ≡ places_at places.old q ++ (if same_bytes id.now q then place ∷ [] else [])) }
    ensures err { OnErr result ((q : List ℕ) → places_at places.new q ≡ places_at places.old q) }
{
    match places.get_mut(id) {
        Some(there) => push_place(there, place),
        None => put_place(places, alloc, id, place),
    }
}

/// The first place of an id is gone.
fn drop_place(places: &mut HashMap<String, VecDeque<usize>>, id: &str)
    ensures { (q : List ℕ) → places_at places.new q
        ≡ (if same_bytes id.now q then drop 1 (places_at places.old q) else places_at places.old q) }
{
    if let Some(there) = places.get_mut(id) {
        let _ = there.pop_front();
    }
}

// ---- events

/// One event more in the fold that stands there.
fn step_at(
    folds: &mut Vec<Fold>,
    place: usize,
    alloc: Global,
    event: &Event,
) -> Result<(), NoMemory>
    requires line { IsLine event.now }
    requires within { place < length folds.old.items }
    ensures ok { OnOk result ((d : List ARow) → folds.new.items ≡ set folds.old.items place
        (fold_kind event.now.kind event.now (get_or folds.old.items place d))) }
    ensures err { OnErr result (folds.new.items ≡ folds.old.items) }
{
    let fold = &mut folds[place];
    fold.fold_step(alloc, event)
}

/// A container more: its row comes last.
fn create(
    folds: &mut Vec<Fold>,
    places: &mut HashMap<String, VecDeque<usize>>,
    alloc: Global,
    event: &Event,
) -> Result<(), NoMemory>
    requires line { IsLine event.now }
    requires kind { event.now.kind ≡ kind.Container }
    requires action { event.now.action ≡ action.Create }
    requires found { IsIndexed places.old folds.old.items }
    ensures found { IsIndexed places.new folds.new.items }
    ensures rows { OnOk result (joined folds.new.items
        ≡ fold_kind event.now.kind event.now (joined folds.old.items)) }
{
    let mut fold = Fold::new(alloc)?;
    fold.fold_step(alloc, event)?;
    folds.reserve(1)?;
    add_place(places, alloc, event.id.as_str(), folds.len())?;
    folds.push_reserved(fold);
    Ok(())
}

/// The first row of a container is gone.
fn destroy(
    folds: &mut Vec<Fold>,
    places: &mut HashMap<String, VecDeque<usize>>,
    alloc: Global,
    event: &Event,
) -> Result<(), NoMemory>
    requires line { IsLine event.now }
    requires kind { event.now.kind ≡ kind.Container }
    requires action { event.now.action ≡ action.Destroy }
    requires found { IsIndexed places.old folds.old.items }
    ensures found { IsIndexed places.new folds.new.items }
    ensures rows { OnOk result (joined folds.new.items
        ≡ fold_kind event.now.kind event.now (joined folds.old.items)) }
{
    let Some(place) = first_place(places, event.id.as_str()) else {
        return Ok(());
    };
    step_at(folds, place, alloc, event)?;
    drop_place(places, event.id.as_str());
    Ok(())
}

/// The first row of a container is changed.
fn change(
    folds: &mut Vec<Fold>,
    places: &HashMap<String, VecDeque<usize>>,
    alloc: Global,
    event: &Event,
) -> Result<(), NoMemory>
    requires line { IsLine event.now }
    requires kind { event.now.kind ≡ kind.Container }
    requires action { IsChange event.now.action }
    requires found { IsIndexed places.now folds.old.items }
    ensures found { IsIndexed places.now folds.new.items }
    ensures rows { OnOk result (joined folds.new.items
        ≡ fold_kind event.now.kind event.now (joined folds.old.items)) }
{
    match first_place(places, event.id.as_str()) {
        Some(place) => step_at(folds, place, alloc, event),
        None => Ok(()),
    }
}

/// An event of a container.
fn fold_action(
    folds: &mut Vec<Fold>,
    places: &mut HashMap<String, VecDeque<usize>>,
    alloc: Global,
    event: &Event,
) -> Result<(), NoMemory>
    requires line { IsLine event.now }
    requires kind { event.now.kind ≡ kind.Container }
    requires found { IsIndexed places.old folds.old.items }
    ensures found { IsIndexed places.new folds.new.items }
    ensures rows { OnOk result (joined folds.new.items
        ≡ fold_kind event.now.kind event.now (joined folds.old.items)) }
{
    match event.action {
        Action::Create => create(folds, places, alloc, event),
        Action::Destroy => destroy(folds, places, alloc, event),
        _ => change(folds, places, alloc, event),
    }
}

impl Rows {
    /// No rows; it takes no memory.
    pub fn new(alloc: Global) -> Rows
        ensures { result ≡ [] }
    {
        Rows {
            folds: Vec::new(alloc),
            places: HashMap::new(alloc),
        }
    }

    /// The rows after one more event, which is one that has a line. Where memory is refused, it has some rows.
    pub fn fold_step(&mut self, alloc: Global, event: &Event) -> Result<(), NoMemory>
        requires { IsLine event.now }
        ensures { OnOk result (self.new ≡ fold_kind event.now.kind event.now self.old) }
    {
        match event.kind {
            EventKind::Container => fold_action(&mut self.folds, &mut self.places, alloc, event),
            EventKind::Volume => Ok(()),
        }
    }

    /// Folds whose rows, one after another, are these, lent.
    pub fn folds(&self) -> &[Fold]
        ensures { joined result.now ≡ self.now }
    {
        self.folds.as_slice()
    }
}
