// The fields of each call, in the order of their keys: one table.
ghost use Rattle.std.specs.Prelude.{List};
ghost use Rattle.engine_text.specs.declared.call.Call.TheVariants as variant;
ghost use Rattle.journal_lines.specs.CallFields as table;
ghost use Rattle.journal_lines.specs.Fields.{KeyedField};
ghost use Rattle.journal_lines.specs.LentFields.{told_list};

use super::kinds::{Field, FilterTest, KeyedField, NumberTest, TextListTest, TextTest};
use super::words::{
    condition_word, kind_of_owner, most_retries, owner_number, policy_if_given, policy_word,
    retries_if_given,
};
use engine_text::{
    AttachAsk, Bytes, Call, CreateSpec, Filter, LogAsk, Owner, Pairs, Policy, Signal, Text, Until,
    Words,
};

/// What is made of the fields of a call.
pub trait FieldsUse {
    type Answer;

    /// Which answers may be made of which fields.
    ghost gives: { Self → List KeyedField → Self.Answer → Type 0 };

    /// Makes it.
    fn of(&self, fields: &[KeyedField<'_>]) -> Self::Answer
        ensures { gives self.now (told_list fields.now) result };
}

// Those of a call with a reference alone.
fn named_fields<U: FieldsUse>(word: &'static str, target: &Text, how: &U) -> U::Answer
    ensures { U.gives how.now (table.named_fields word.now target.now) result }
{
    how.of(&[
        ("op", Field::Word(word)),
        ("ref", Field::Text(TextTest::Full, target)),
    ])
}

// Those of an inspect or a removal of a volume.
fn volume_fields<U: FieldsUse>(word: &'static str, target: &Text, how: &U) -> U::Answer
    ensures { U.gives how.now (table.volume_fields word.now target.now) result }
{
    how.of(&[
        ("name", Field::Text(TextTest::Full, target)),
        ("op", Field::Word(word)),
    ])
}

// Those of the take or the drop of a ticket.
fn ticket_fields<U: FieldsUse>(word: &'static str, ticket: u64, how: &U) -> U::Answer
    ensures { U.gives how.now (table.ticket_fields word.now ticket) result }
{
    how.of(&[
        ("op", Field::Word(word)),
        ("ticket", Field::NumberOrNone(NumberTest::Any, Some(ticket))),
    ])
}

// Those of a stop or a restart.
fn stop_fields<U: FieldsUse>(
    word: &'static str,
    target: &Text,
    wait: Option<i32>,
    signal: Option<Signal>,
    how: &U,
) -> U::Answer
    ensures { U.gives how.now (table.stop_fields word.now target.now wait signal) result }
{
    how.of(&[
        ("op", Field::Word(word)),
        ("ref", Field::Text(TextTest::Full, target)),
        ("signal", Field::SignalOrNone(signal)),
        ("t", Field::SecondsOrNone(wait)),
    ])
}

// Those of a create.
fn create_fields<U: FieldsUse>(create: &CreateSpec, how: &U) -> U::Answer
    ensures { U.gives how.now (table.create_fields create.now) result }
{
    let most = Some(most_retries(create.policy));
    let policy = policy_word(create.policy);
    how.of(&[
        ("after", Field::SecondsOrNone(Some(create.stop_after))),
        ("auto", Field::FlagIfSet(create.auto_remove)),
        ("health", Field::CheckIfGiven(&create.health)),
        ("image", Field::Text(TextTest::Any, &create.image)),
        ("labels", Field::LabelPairs(&create.labels)),
        ("maximum", Field::NumberOrNone(NumberTest::Retries, most)),
        ("mounts", Field::MountList(&create.mounts)),
        ("name", Field::TextOrNone(TextTest::Name, &create.name)),
        ("once", Field::Flag(create.stdin_once)),
        ("op", Field::Word("create")),
        ("policy", Field::Word(policy)),
        ("signal", Field::SignalOrNone(Some(create.stop_signal))),
        ("stdin", Field::Flag(create.open_stdin)),
        ("words", Field::TextList(TextListTest::Any, &create.words)),
    ])
}

// Those of logs.
fn logs_fields<U: FieldsUse>(target: &Text, ask: &LogAsk, how: &U) -> U::Answer
    ensures { U.gives how.now (table.logs_fields target.now ask.now) result }
{
    how.of(&[
        ("err", Field::Flag(ask.err)),
        ("follow", Field::Flag(ask.follow)),
        (
            "greatest",
            Field::NumberOrNone(NumberTest::Moment, Some(ask.greatest)),
        ),
        (
            "least",
            Field::NumberOrNone(NumberTest::Moment, Some(ask.least)),
        ),
        ("op", Field::Word("logs")),
        ("out", Field::Flag(ask.out)),
        ("ref", Field::Text(TextTest::Full, target)),
        ("stamps", Field::Flag(ask.stamps)),
        ("tail", Field::CountOrNone(NumberTest::Count, ask.tail)),
    ])
}

// Those of an attach.
fn attach_fields<U: FieldsUse>(target: &Text, ask: &AttachAsk, how: &U) -> U::Answer
    ensures { U.gives how.now (table.attach_fields target.now ask.now) result }
{
    how.of(&[
        ("err", Field::Flag(ask.err)),
        ("logs", Field::Flag(ask.logs)),
        ("op", Field::Word("attach")),
        ("out", Field::Flag(ask.out)),
        ("ref", Field::Text(TextTest::Full, target)),
        ("stdin", Field::Flag(ask.stdin)),
        ("stream", Field::Flag(ask.stream)),
    ])
}

// Those of a kill.
fn kill_fields<U: FieldsUse>(target: &Text, signal: Signal, how: &U) -> U::Answer
    ensures { U.gives how.now (table.fields_of (variant.Kill target.now signal)) result }
{
    how.of(&[
        ("op", Field::Word("kill")),
        ("ref", Field::Text(TextTest::Full, target)),
        ("signal", Field::SignalOrNone(Some(signal))),
    ])
}

// Those of a rename.
fn rename_fields<'c, U: FieldsUse>(target: &'c Text, name: &'c Text, how: &U) -> U::Answer
    ensures { U.gives how.now (table.fields_of (variant.Rename target.now name.now)) result }
{
    how.of(&[
        ("name", Field::Text(TextTest::Name, name)),
        ("op", Field::Word("rename")),
        ("ref", Field::Text(TextTest::Full, target)),
    ])
}

// Those of an update.
fn update_fields<U: FieldsUse>(target: &Text, policy: Option<Policy>, how: &U) -> U::Answer
    ensures { U.gives how.now (table.fields_of (variant.Update target.now policy)) result }
{
    let most = retries_if_given(policy);
    let word = policy_if_given(policy);
    how.of(&[
        ("maximum", Field::NumberOrNone(NumberTest::Retries, most)),
        ("op", Field::Word("update")),
        ("policy", Field::WordOrNone(word)),
        ("ref", Field::Text(TextTest::Full, target)),
    ])
}

// Those of a removal.
fn remove_fields<U: FieldsUse>(target: &Text, force: bool, how: &U) -> U::Answer
    ensures { U.gives how.now (table.fields_of (variant.Remove target.now force)) result }
{
    how.of(&[
        ("force", Field::Flag(force)),
        ("op", Field::Word("remove")),
        ("ref", Field::Text(TextTest::Full, target)),
    ])
}

// Those of a wait.
fn wait_fields<U: FieldsUse>(target: &Text, until: Until, how: &U) -> U::Answer
    ensures { U.gives how.now (table.fields_of (variant.Wait target.now until)) result }
{
    how.of(&[
        ("condition", Field::Word(condition_word(until))),
        ("op", Field::Word("wait")),
        ("ref", Field::Text(TextTest::Full, target)),
    ])
}

// Those of a list of containers.
fn list_fields<U: FieldsUse>(all: bool, limit: Option<u32>, filter: &Filter, how: &U) -> U::Answer
    ensures { U.gives how.now (table.fields_of (variant.List all limit filter.now)) result }
{
    how.of(&[
        ("all", Field::Flag(all)),
        ("filters", Field::FilterRows(FilterTest::Containers, filter)),
        ("limit", Field::CountOrNone(NumberTest::Limit, limit)),
        ("op", Field::Word("list")),
    ])
}

// Those of the create of an exec.
fn exec_create_fields<'c, U: FieldsUse>(
    target: &'c Text,
    words: &'c Words,
    stdin: bool,
    out: bool,
    err: bool,
    how: &U,
) -> U::Answer
    ensures { U.gives how.now
        (table.fields_of (variant.ExecCreate target.now words.now stdin out err)) result }
{
    how.of(&[
        ("err", Field::Flag(err)),
        ("op", Field::Word("exec_create")),
        ("out", Field::Flag(out)),
        ("ref", Field::Text(TextTest::Full, target)),
        ("stdin", Field::Flag(stdin)),
        ("words", Field::TextList(TextListTest::Full, words)),
    ])
}

// Those of the start of an exec.
fn exec_start_fields<U: FieldsUse>(id: &Text, detach: bool, how: &U) -> U::Answer
    ensures { U.gives how.now (table.fields_of (variant.ExecStart id.now detach)) result }
{
    how.of(&[
        ("detach", Field::Flag(detach)),
        ("id", Field::Text(TextTest::Full, id)),
        ("op", Field::Word("exec_start")),
    ])
}

// Those of the inspect of an exec.
fn exec_inspect_fields<U: FieldsUse>(id: &Text, how: &U) -> U::Answer
    ensures { U.gives how.now (table.fields_of (variant.ExecInspect id.now)) result }
{
    how.of(&[
        ("id", Field::Text(TextTest::Full, id)),
        ("op", Field::Word("exec_inspect")),
    ])
}

// Those of the create of a volume.
fn volume_create_fields<'c, U: FieldsUse>(name: &'c Text, labels: &'c Pairs, how: &U) -> U::Answer
    ensures { U.gives how.now (table.fields_of (variant.VolumeCreate name.now labels.now)) result }
{
    how.of(&[
        ("labels", Field::LabelPairs(labels)),
        ("name", Field::Text(TextTest::VolumeName, name)),
        ("op", Field::Word("volume_create")),
    ])
}

// Those of a list of volumes.
fn volume_list_fields<U: FieldsUse>(filter: &Filter, how: &U) -> U::Answer
    ensures { U.gives how.now (table.fields_of (variant.VolumeList filter.now)) result }
{
    how.of(&[
        ("filters", Field::FilterRows(FilterTest::Volumes, filter)),
        ("op", Field::Word("volume_list")),
    ])
}

// Those of events.
fn events_fields<U: FieldsUse>(
    since: Option<u64>,
    until: Option<u64>,
    filter: &Filter,
    how: &U,
) -> U::Answer
    ensures { U.gives how.now (table.fields_of (variant.Events since until filter.now)) result }
{
    how.of(&[
        ("filters", Field::FilterRows(FilterTest::Events, filter)),
        ("op", Field::Word("events")),
        ("since", Field::NumberOrNone(NumberTest::Moment, since)),
        ("until", Field::NumberOrNone(NumberTest::Moment, until)),
    ])
}

// Those of a feed.
fn feed_fields<U: FieldsUse>(owner: Owner, run: u64, bytes: &Bytes, how: &U) -> U::Answer
    ensures { U.gives how.now (table.fields_of (variant.Feed owner run bytes.now)) result }
{
    how.of(&[
        ("bytes", Field::HexBytes(bytes)),
        ("kind", Field::Word(kind_of_owner(owner))),
        (
            "number",
            Field::NumberOrNone(NumberTest::Any, Some(owner_number(owner))),
        ),
        ("op", Field::Word("feed")),
        ("run", Field::NumberOrNone(NumberTest::Run, Some(run))),
    ])
}

// Those of an end of input.
fn feed_end_fields<U: FieldsUse>(owner: Owner, run: u64, how: &U) -> U::Answer
    ensures { U.gives how.now (table.fields_of (variant.FeedEnd owner run)) result }
{
    how.of(&[
        ("kind", Field::Word(kind_of_owner(owner))),
        (
            "number",
            Field::NumberOrNone(NumberTest::Any, Some(owner_number(owner))),
        ),
        ("op", Field::Word("feed_end")),
        ("run", Field::NumberOrNone(NumberTest::Run, Some(run))),
    ])
}

/// Makes it of the fields of a call.
pub fn of_fields<U: FieldsUse>(call: &Call, how: &U) -> U::Answer
    ensures { U.gives how.now (table.fields_of call.now) result }
{
    match call {
        Call::Create(create) => create_fields(create, how),
        Call::Start { target } => named_fields("start", target, how),
        Call::Pause { target } => named_fields("pause", target, how),
        Call::Unpause { target } => named_fields("unpause", target, how),
        Call::Inspect { target } => named_fields("inspect", target, how),
        Call::Stop {
            target,
            wait,
            signal,
        } => stop_fields("stop", target, *wait, *signal, how),
        Call::Restart {
            target,
            wait,
            signal,
        } => stop_fields("restart", target, *wait, *signal, how),
        Call::Kill { target, signal } => kill_fields(target, *signal, how),
        Call::Rename { target, name } => rename_fields(target, name, how),
        Call::Update { target, policy } => update_fields(target, *policy, how),
        Call::Remove { target, force } => remove_fields(target, *force, how),
        Call::Wait { target, until } => wait_fields(target, *until, how),
        Call::List { all, limit, filter } => list_fields(*all, *limit, filter, how),
        Call::Logs { target, ask } => logs_fields(target, ask, how),
        Call::Attach { target, ask } => attach_fields(target, ask, how),
        Call::ExecCreate {
            target,
            words,
            stdin,
            out,
            err,
        } => exec_create_fields(target, words, *stdin, *out, *err, how),
        Call::ExecStart { id, detach } => exec_start_fields(id, *detach, how),
        Call::ExecInspect { id } => exec_inspect_fields(id, how),
        Call::VolumeCreate { name, labels } => volume_create_fields(name, labels, how),
        Call::VolumeInspect { name } => volume_fields("volume_inspect", name, how),
        Call::VolumeRemove { name } => volume_fields("volume_remove", name, how),
        Call::VolumeList { filter } => volume_list_fields(filter, how),
        Call::Events {
            since,
            until,
            filter,
        } => events_fields(*since, *until, filter, how),
        Call::JournalRead => how.of(&[("op", Field::Word("journal"))]),
        Call::Feed { owner, run, bytes } => feed_fields(*owner, *run, bytes, how),
        Call::FeedEnd { owner, run } => feed_end_fields(*owner, *run, how),
        Call::Take { ticket } => ticket_fields("take", *ticket, how),
        Call::Drop { ticket } => ticket_fields("drop", *ticket, how),
    }
}
