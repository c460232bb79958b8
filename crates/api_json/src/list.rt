// The text of a list of containers (Docker Engine API v1.43, ContainerList).
ghost use Rattle.std.specs.Prelude.{◌≡◌, ◌++◌, [], ◌∷◌, IfOk, codes};
ghost use Rattle.std.specs.List.{join_by};
ghost use Rattle.json_laws.specs.Pairs.{words_data};
ghost use Rattle.api_json.specs.List as spec;
ghost use Rattle.api_json.specs.Status.{status_text};
ghost use Rattle.api_json.specs.Values.{text};
ghost use Rattle.api_json.specs.Written.{Appends, tokens_of, member_tokens};

use super::mount::mounts_member;
use super::status::{status_text, status_word};
use super::values::{IMAGE_NAME, slash_name};
use super::written::{empty_list_member, number_member, pairs_member, text_member, written_text};
use engine_text::{Listed, NoMemory, Status, Text};
use json::Writer;
use std::alloc::{AllocError, Global};

// Writes the words of a container, joined by blanks.
fn command_member(alloc: Global, out: &mut Writer, words: &[Text]) -> Result<(), AllocError>
    ensures { Appends result out.old out.new
        (member_tokens (codes "Command") (text (join_by (λ w. w) (codes " ") words.now))) }
{
    let command = words.join(alloc, " ")?;
    text_member(out, "Command", command.as_str())
}

// Writes the one name of a container, with a slash before it.
fn names_member(alloc: Global, out: &mut Writer, name: &str) -> Result<(), AllocError>
    ensures { Appends result out.old out.new
        (member_tokens (codes "Names") (words_data ((codes "/" ++ name.now) ∷ []))) }
{
    let name = slash_name(alloc, name)?;
    out.key("Names")?;
    out.begin_array()?;
    out.string(name.as_str())?;
    out.end_array()
}

// Writes the state of a container, with its last exit code.
fn status_member(
    alloc: Global,
    out: &mut Writer,
    status: Status,
    code: u8,
) -> Result<(), AllocError>
    ensures { Appends result out.old out.new
        (member_tokens (codes "Status") (text (status_text status code))) }
{
    let text = status_text(alloc, status, code)?;
    text_member(out, "Status", text.as_str())
}

// Writes a container of the list.
fn write_item(alloc: Global, out: &mut Writer, item: &Listed) -> Result<(), AllocError>
    ensures { Appends result out.old out.new (tokens_of (spec.listed_data item.now)) }
{
    out.begin_object()?;
    command_member(alloc, out, item.words.as_slice())?;
    number_member(out, "Created", item.created / 1_000)?;
    text_member(out, "Id", item.id.as_str())?;
    text_member(out, "Image", IMAGE_NAME)?;
    pairs_member(alloc, out, "Labels", item.labels.as_slice())?;
    mounts_member(alloc, out, "Mounts", item.mounts.as_slice())?;
    names_member(alloc, out, item.name.as_str())?;
    empty_list_member(out, "Ports")?;
    text_member(out, "State", status_word(item.status))?;
    status_member(alloc, out, item.status, item.code)?;
    out.end_object()
}

/// The text of a list of containers, as they stand.
pub fn list_body(alloc: Global, items: &[Listed]) -> Result<Text, NoMemory>
    ensures { IfOk result (λ text. text ≡ spec.list_text items.now) }
{
    let mut out = Writer::new(Vec::new(alloc));
    out.begin_array()?;
    'items: for item in items {
        write_item(alloc, &mut out, item)?;
    }
    out.end_array()?;
    Ok(written_text(out))
}
