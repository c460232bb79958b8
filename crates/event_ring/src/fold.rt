// What the events of containers tell (Moby manual, container events).
ghost use Rattle.std.specs.Prelude.{◌≡◌, ◌<◌, [], ◌∷◌, ◌++◌, IfOk, OnOk, OnErr, position, true, false, codes};
ghost use Rattle.engine_text.specs.Lists.{update_first, remove_first};
ghost use Rattle.engine_text.specs.Texts.{same_bytes};
ghost use Rattle.api_json.specs.Event.{IsLine};
ghost use Rattle.api_json.specs.EventRules.{is_decimal_below};
ghost use Rattle.event_ring.specs.Filter.{attribute};
ghost use Rattle.event_ring.specs.Fold as spec;

use super::attributes::attribute;
use engine_text::{Action, Event, EventKind, FoldRow, NoMemory, Text};
use std::alloc::Global;
use std::marker::Model;

/// The rows of containers that the events so far tell, in order of creation.
#[derive(Drop)]
pub struct Fold {
    rows: Vec<FoldRow>,
}

impl Model for Fold {
    ghost use Rattle.std.specs.Prelude.{List};
    ghost use Rattle.engine_text.specs.declared.event.FoldRow.{FoldRow as ARow};

    ghost Value = { List ARow };

    ghost view = { λ f. f.rows.items };
}

// Where the row of that id stands.
fn place_of(rows: &[FoldRow], id: &str) -> Option<usize>
    ensures { result ≡ position (λ r. same_bytes r.id id.now) rows.now }
{
    rows.iter().position(|r| r.id.is(id))
}

// The exit code that a die tells.
fn exit_code(event: &Event) -> u8
    requires { is_decimal_below 256 (attribute (codes "exitCode") event.now) ≡ true }
    ensures { result ≡ spec.exit_code event.now }
{
    attribute(event, "exitCode").parse::<u8>().unwrap_or(0)
}

// The row of a create.
fn new_row(alloc: Global, event: &Event) -> Result<FoldRow, NoMemory>
    ensures { IfOk result (λ r. r ≡ spec.new_row event.now) }
{
    let id = event.id.copy(alloc)?;
    let name = Text::of(alloc, attribute(event, "name"))?;
    Ok(FoldRow {
        id,
        name,
        live: false,
        paused: false,
        code: 0,
    })
}

impl Fold {
    /// No rows; it takes no memory.
    pub fn new(alloc: Global) -> Result<Fold, NoMemory>
        ensures { IfOk result (λ f. f ≡ []) }
    {
        Ok(Fold {
            rows: Vec::new(alloc),
        })
    }

    /// The rows, lent.
    pub fn rows(&self) -> &[FoldRow]
        ensures { result.now ≡ self.now }
    {
        self.rows.as_slice()
    }

    // The row of a new container comes last.
    fn create(&mut self, alloc: Global, event: &Event) -> Result<(), NoMemory>
        ensures ok { OnOk result (self.new ≡ self.old ++ spec.new_row event.now ∷ []) }
        ensures err { OnErr result (self.new ≡ self.old) }
    {
        let row = new_row(alloc, event)?;
        match self.rows.push(row) {
            Ok(()) => Ok(()),
            Err(_) => Err(NoMemory),
        }
    }

    // The container lives, with code 0.
    fn start(&mut self, id: &str)
        ensures { self.new ≡ update_first (λ r. same_bytes r.id id.now)
            (λ r. record r { live = true; code = 0 }) self.old }
    {
        if let Some(i) = place_of(self.rows.as_slice(), id) {
            let row = &mut self.rows[i];
            row.live = true;
            row.code = 0;
        }
    }

    // The container doesn't live and isn't paused, and has that code.
    fn die(&mut self, id: &str, code: u8)
        ensures { self.new ≡ update_first (λ r. same_bytes r.id id.now)
            (λ r. record r { live = false; paused = false; code = code }) self.old }
    {
        if let Some(i) = place_of(self.rows.as_slice(), id) {
            let row = &mut self.rows[i];
            row.live = false;
            row.paused = false;
            row.code = code;
        }
    }

    fn set_paused(&mut self, id: &str, paused: bool)
        ensures { self.new ≡ update_first (λ r. same_bytes r.id id.now)
            (λ r. record r { paused = paused }) self.old }
    {
        if let Some(i) = place_of(self.rows.as_slice(), id) {
            let row = &mut self.rows[i];
            row.paused = paused;
        }
    }

    fn rename(&mut self, id: &str, name: Text)
        ensures { self.new ≡ update_first (λ r. same_bytes r.id id.now)
            (λ r. record r { name = name }) self.old }
    {
        if let Some(i) = place_of(self.rows.as_slice(), id) {
            let row = &mut self.rows[i];
            row.name = name;
        }
    }

    fn destroy(&mut self, id: &str)
        ensures { self.new ≡ remove_first (λ r. same_bytes r.id id.now) self.old }
    {
        if let Some(i) = place_of(self.rows.as_slice(), id) {
            self.rows.remove(i);
        }
    }

    // An event of a container.
    fn fold_action(&mut self, alloc: Global, event: &Event) -> Result<(), NoMemory>
        requires line { IsLine event.now }
        requires kind { event.now.kind ≡ EventKind.Container }
        ensures ok { OnOk result (self.new ≡ spec.fold_action event.now.action event.now self.old) }
        ensures err { OnErr result (self.new ≡ self.old) }
    {
        let id = event.id.as_str();
        match event.action {
            Action::Create => return self.create(alloc, event),
            Action::Start => self.start(id),
            Action::Die => self.die(id, exit_code(event)),
            Action::Pause => self.set_paused(id, true),
            Action::Unpause => self.set_paused(id, false),
            Action::Rename => {
                let name = Text::of(alloc, attribute(event, "name"))?;
                self.rename(id, name);
            }
            Action::Destroy => self.destroy(id),
            _ => {}
        }
        Ok(())
    }

    /// The rows after one more event, which is one that has a line.
    pub fn fold_step(&mut self, alloc: Global, event: &Event) -> Result<(), NoMemory>
        requires { IsLine event.now }
        ensures ok { OnOk result (self.new ≡ spec.fold_kind event.now.kind event.now self.old) }
        ensures err { OnErr result (self.new ≡ self.old) }
    {
        match event.kind {
            EventKind::Container => self.fold_action(alloc, event),
            EventKind::Volume => Ok(()),
        }
    }
}
