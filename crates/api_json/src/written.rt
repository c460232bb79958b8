// Bodies written token by token, with no tree of their values (RFC 8259).
ghost use Rattle.std.specs.Prelude.{◌≡◌, ◌*◌, ◌++◌, [], ◌∷◌, IfOk};
ghost use Rattle.json.specs.Print.{print};
ghost use Rattle.json_laws.specs.Pairs.{pairs_members, put_pairs, words_data};
ghost use Rattle.serde_json.specs.Data.{boolean, no_members, null, object};
ghost use Rattle.engine_text.specs.Moment.{IsMoment};
ghost use Rattle.api_json.specs.Values as spec;
ghost use Rattle.api_json.specs.Written.{Appends, member_tokens, last_words_tokens, lent_texts};

use super::values::moment_string;
use engine_text::{Pair, Text};
use json::Writer;
use std::alloc::{AllocError, Global};
use std::collections::BTreeMap;

/// Writes a member that is a text.
pub fn text_member(out: &mut Writer, key: &str, text: &str) -> Result<(), AllocError>
    ensures { Appends result out.old out.new (member_tokens key.now (spec.text text.now)) }
{
    out.key(key)?;
    out.string(text)
}

/// Writes a member that is a number.
pub fn number_member(out: &mut Writer, key: &str, number: u64) -> Result<(), AllocError>
    ensures { Appends result out.old out.new (member_tokens key.now (spec.natural number)) }
{
    out.key(key)?;
    out.u64(number)
}

/// Writes a member that is a number, which may be below 0.
pub fn integer_member(out: &mut Writer, key: &str, number: i32) -> Result<(), AllocError>
    ensures { Appends result out.old out.new (member_tokens key.now (spec.integer number)) }
{
    out.key(key)?;
    out.i64(i64::from(number))
}

/// Writes a member that is a truth value.
pub fn flag_member(out: &mut Writer, key: &str, on: bool) -> Result<(), AllocError>
    ensures { Appends result out.old out.new (member_tokens key.now (boolean on)) }
{
    out.key(key)?;
    out.boolean(on)
}

/// Writes a member that is null.
pub fn null_member(out: &mut Writer, key: &str) -> Result<(), AllocError>
    ensures { Appends result out.old out.new (member_tokens key.now null) }
{
    out.key(key)?;
    out.null()
}

/// Writes a member that is the text of a moment, or of none.
pub fn moment_member(
    alloc: Global,
    out: &mut Writer,
    key: &str,
    moment: Option<u64>,
) -> Result<(), AllocError>
    requires { IsMoment moment }
    ensures { Appends result out.old out.new (member_tokens key.now (spec.moment moment)) }
{
    let text = moment_string(alloc, moment)?;
    text_member(out, key, text.as_str())
}

/// Writes a member that is the list without items.
pub fn empty_list_member(out: &mut Writer, key: &str) -> Result<(), AllocError>
    ensures { Appends result out.old out.new (member_tokens key.now spec.empty_list) }
{
    out.key(key)?;
    out.begin_array()?;
    out.end_array()
}

/// Writes a member that is the object without members.
pub fn empty_object_member(out: &mut Writer, key: &str) -> Result<(), AllocError>
    ensures { Appends result out.old out.new (member_tokens key.now (object no_members)) }
{
    out.key(key)?;
    out.begin_object()?;
    out.end_object()
}

/// Writes a member that is a time in nanoseconds, of which a millisecond has a million.
pub fn nanoseconds_member(out: &mut Writer, key: &str, milliseconds: u64) -> Result<(), AllocError>
    ensures { Appends result out.old out.new
        (member_tokens key.now (spec.natural (milliseconds * 1_000_000))) }
{
    let mut buffer = itoa::Buffer::new();
    let text = buffer.format(u128::from(milliseconds) * 1_000_000);
    out.key(key)?;
    out.number(text)
}

// Writes the rest of a list: these words, and its end.
fn last_words(out: &mut Writer, words: &[Text]) -> Result<(), AllocError>
    ensures { Appends result out.old out.new (last_words_tokens words.now) }
{
    'words: for word in words {
        out.string(word.as_str())?;
    }
    out.end_array()
}

/// Writes a member that is the list of these words.
pub fn words_member(out: &mut Writer, key: &str, words: &[Text]) -> Result<(), AllocError>
    ensures { Appends result out.old out.new (member_tokens key.now (words_data words.now)) }
{
    out.key(key)?;
    out.begin_array()?;
    last_words(out, words)
}

/// Writes a member that is the list of this word and those behind it.
pub fn command_member(
    out: &mut Writer,
    key: &str,
    first: &str,
    words: &[Text],
) -> Result<(), AllocError>
    ensures { Appends result out.old out.new
        (member_tokens key.now (words_data (first.now ∷ words.now))) }
{
    out.key(key)?;
    out.begin_array()?;
    out.string(first)?;
    last_words(out, words)
}

// The values of pairs by their keys: of equal keys the last counts.
fn by_key<'a>(alloc: Global, pairs: &'a [Pair]) -> Result<BTreeMap<&'a str, &'a str>, AllocError>
    ensures { IfOk result (λ m. pairs_members (lent_texts m.entries)
        ≡ put_pairs (spec.pairs_of pairs.now) no_members) }
{
    let mut map = BTreeMap::new(alloc);
    'pairs: for pair in pairs {
        map.insert(pair.key.as_str(), pair.value.as_str())?;
    }
    Ok(map)
}

/// Writes a member that is the object of these pairs, each key with its last value.
pub fn pairs_member(
    alloc: Global,
    out: &mut Writer,
    key: &str,
    pairs: &[Pair],
) -> Result<(), AllocError>
    ensures { Appends result out.old out.new
        (member_tokens key.now (spec.pairs_object pairs.now)) }
{
    let map = by_key(alloc, pairs)?;
    out.key(key)?;
    out.begin_object()?;
    'members: for (name, value) in map.iter() {
        text_member(out, name, value)?;
    }
    out.end_object()
}

/// What was written, behind nothing, as a text; memory that it doesn't fill is given back.
pub fn written_text(out: Writer) -> Text
    requires { out.before ≡ [] }
    ensures { result ≡ print out.tokens }
{
    let mut bytes = out.into_inner();
    bytes.shrink_to_fit();
    match String::from_utf8(bytes) {
        Ok(text) => Text::from_string(text),
        Err(_) => unreachable!(),
    }
}

/// What was written, behind nothing, as a line: its text and a line end; memory that it doesn't
/// fill is given back.
pub fn written_line(out: Writer) -> Result<Vec<u8>, AllocError>
    requires { out.before ≡ [] }
    ensures { IfOk result (λ line. line.items ≡ print out.tokens ++ 10 ∷ []) }
{
    let mut line = out.into_inner();
    line.push(b'\n')?;
    line.shrink_to_fit();
    Ok(line)
}
