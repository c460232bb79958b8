// What a reference names, by the indexes.
ghost use Rattle.std.specs.Prelude.{◌≡◌, ◌+◌, ◌^◌, ◌<◌, ◌≤◌, Err, IsTrue, length, drop, find, option_copied, option_map};
ghost use Rattle.std.specs.Option.{is_none};
ghost use Rattle.engine_text.specs.Texts.{same_bytes};
ghost use Rattle.container_table.specs.Reference.{by_prefix, container_by};
ghost use Rattle.container_table.specs.Logs.{container_in};
ghost use Rattle.container_table.specs.Tables.{named};
ghost use Rattle.container_table.specs.declared.entries.Key.TheVariants as keys;
ghost use Rattle.container_table.specs.Held.{contents, IsBoxed, IsIndex, IsLocated, first_begins, key_text, sorted_by};

use super::boxes::Boxes;
use super::entries::{Entry, Key, locate, numbered_in, text_at};
use super::held::Held;
use super::rows::Rows;
use engine_text::{Found, without_slash};

// Whether the text of the entry at i begins with the reference.
fn begins_at(entries: &Rows<Entry>, held: &Boxes, i: usize, reference: &str) -> bool
    requires boxed { IsBoxed held.now }
    requires index { IsIndex keys.Id (contents held.now.list.items) entries.now.items }
    ensures value { result
        ≡ first_begins reference.now (drop i (sorted_by keys.Id (contents held.now.list.items))) }
    ensures few { IsTrue result → i + 1 < 2 ^ 64 }
{
    if i < entries.len() {
        let id = text_at(held, Key::Id, entries.at(i).number);
        return id.as_bytes().starts_with(reference.as_bytes());
    }
    false
}

/// The only container whose id begins with the reference, which would stand at i.
pub fn prefixed(entries: &Rows<Entry>, held: &Boxes, i: usize, reference: &str) -> Found
    requires boxed { IsBoxed held.now }
    requires index { IsIndex keys.Id (contents held.now.list.items) entries.now.items }
    requires place { IsLocated keys.Id (contents held.now.list.items) reference.now (Err i) }
    requires bound { i ≤ length entries.now.items }
    ensures { result ≡ by_prefix (contents held.now.list.items) reference.now }
{
    if !begins_at(entries, held, i, reference) {
        return Found::None;
    }
    if begins_at(entries, held, i + 1, reference) {
        return Found::Many;
    }
    Found::One(entries.at(i).number)
}

/// Whether no container has that text.
pub fn is_new(entries: &Rows<Entry>, held: &Boxes, key: Key, text: &str) -> bool
    requires boxed { IsBoxed held.now }
    requires index { IsIndex key (contents held.now.list.items) entries.now.items }
    ensures { result
        ≡ is_none (find (λ c. same_bytes (key_text key c) text.now)
        (contents held.now.list.items)) }
{
    locate(entries, held, key, text).is_err()
}

/// The container of that name.
pub fn named_in<'a>(names: &Rows<Entry>, held: &'a Boxes, name: &str) -> Option<&'a Held>
    requires boxed { IsBoxed held.now }
    requires names { IsIndex keys.Name (contents held.now.list.items) names.now.items }
    ensures { option_map container_in (option_copied result)
        ≡ named name.now (contents held.now.list.items) }
{
    match locate(names, held, Key::Name, name) {
        Ok(i) => numbered_in(held, names.at(i).number),
        Err(_) => None,
    }
}

/// What the reference names.
pub fn find_in(ids: &Rows<Entry>, names: &Rows<Entry>, held: &Boxes, reference: &str) -> Found
    requires boxed { IsBoxed held.now }
    requires ids { IsIndex keys.Id (contents held.now.list.items) ids.now.items }
    requires names { IsIndex keys.Name (contents held.now.list.items) names.now.items }
    ensures { result ≡ container_by (contents held.now.list.items) reference.now }
{
    match locate(ids, held, Key::Id, reference) {
        Ok(i) => Found::One(ids.at(i).number),
        Err(i) => match locate(names, held, Key::Name, without_slash(reference)) {
            Ok(j) => Found::One(names.at(j).number),
            Err(_) => prefixed(ids, held, i, reference),
        },
    }
}
