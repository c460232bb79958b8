// `replay`, by its plan.
ghost use Rattle.std.specs.Prelude.{◌≡◌, ◌≤◌, ◌++◌, ◌∷◌, [], false, true, codes, IfOk};
ghost use Rattle.engine_ports.specs.Link.{LinkView};
ghost use Rattle.engine_ports.specs.Sink.{SinkView};
ghost use Rattle.machine_model.specs.History.{greatest_moment};
ghost use Rattle.client_model.specs.Commands.Replay.{opened, verdict_plan, judgement_plan, replay_plan};
ghost use Rattle.client_exchange.specs.Exchanges.{reach};
ghost use Rattle.engine_client.specs.Writing.{PrintsOrLacks};
ghost use Rattle.engine_client.specs.Replaying as spec;

use crate::input::read_input;
use crate::writing::{write_all, write_lines};
use client_model::Fault;
use engine_ports::{Sink, Source};
use engine_text::{NoMemory, Text, Words};
use history_replay::{Upgraded, check, law_upgrade, upgrade};
use itoa::Buffer;
use journal_lines::{Verdict, seed_bytes};
use std::alloc::Global;
use std::sync::Wait;

/// Two texts as one.
fn joined(alloc: Global, front: &str, behind: &str) -> Result<Text, NoMemory>
    ensures { IfOk result (λ t. t ≡ front.now ++ behind.now) }
{
    let mut string = Text::of(alloc, front)?.into_string();
    string.push_str(behind)?;
    Ok(Text::from_string(string))
}

/// One line.
fn one_line(alloc: Global, front: &str, behind: &str) -> Result<Words, NoMemory>
    ensures { IfOk result (λ lines. lines ≡ (front.now ++ behind.now) ∷ []) }
{
    let mut lines = Words::new(alloc);
    lines.push(alloc, joined(alloc, front, behind)?)?;
    Ok(lines)
}

/// One line more.
fn with_line(alloc: Global, lines: Words, front: &str, behind: &str) -> Result<Words, NoMemory>
    ensures { IfOk result (λ more. more ≡ lines ++ (front.now ++ behind.now) ∷ []) }
{
    let mut lines = lines;
    lines.push(alloc, joined(alloc, front, behind)?)?;
    Ok(lines)
}

/// The lines of an illegal journal.
fn illegal_lines(alloc: Global, line: &str, kept: &str, found: &str) -> Result<Words, NoMemory>
    ensures { IfOk result (λ lines. lines ≡ (codes "illegal line " ++ line.now)
        ∷ (codes "kept " ++ kept.now) ∷ (codes "found " ++ found.now) ∷ []) }
{
    let lines = one_line(alloc, "illegal line ", line)?;
    let lines = with_line(alloc, lines, "kept ", kept)?;
    with_line(alloc, lines, "found ", found)
}

/// The lines of a verdict.
fn verdict_lines(alloc: Global, verdict: &Verdict) -> Result<Words, NoMemory>
    ensures { IfOk result (λ lines. lines ≡ spec.verdict_lines verdict.now) }
{
    let mut digits = Buffer::new();
    match verdict {
        Verdict::Legal { steps } => one_line(alloc, "legal ", digits.format(*steps)),
        Verdict::Illegal { line, kept, found } => illegal_lines(
            alloc,
            digits.format(*line),
            kept.as_str(),
            found.as_str(),
        ),
        Verdict::BadLine { line } => one_line(alloc, "bad line ", digits.format(*line)),
    }
}

/// The status of a verdict.
fn verdict_status(verdict: &Verdict) -> u8
    ensures { result ≡ spec.verdict_status verdict.now }
{
    match verdict {
        Verdict::Legal { .. } => 0,
        Verdict::Illegal { .. } => 1,
        Verdict::BadLine { .. } => 3,
    }
}

/// It prints the verdict.
fn print_verdict<K: Sink>(alloc: Global, verdict: &Verdict, out: &mut K) -> Result<u8, Fault>
    ensures { (link : LinkView) (e : SinkView)
        → PrintsOrLacks (verdict_plan false [] verdict.now) result
        (reach link (K.takes out.old) e) (reach link (K.takes out.new) e) }
{
    match verdict_lines(alloc, verdict) {
        Ok(lines) => write_lines(alloc, lines.as_slice(), verdict_status(verdict), out),
        Err(_) => Err(Fault::NoMemory),
    }
}

/// It prints a journal in format 2 as it is, or the verdict on what isn't legal.
fn print_upgraded<K: Sink>(alloc: Global, upgraded: &Upgraded, out: &mut K) -> Result<u8, Fault>
    ensures { (link : LinkView) (e : SinkView)
        → PrintsOrLacks (spec.upgraded_plan upgraded.now) result
        (reach link (K.takes out.old) e) (reach link (K.takes out.new) e) }
{
    match upgraded {
        Upgraded::Text(text) => write_all(out, text.as_slice(), 0),
        Upgraded::Not(verdict) => print_verdict(alloc, verdict, out),
    }
}

/// The verdict on this journal is printed.
fn tell_verdict<K: Sink>(
    alloc: Global,
    text: &[u8],
    seed: [u8; 32],
    moment: u64,
    out: &mut K,
) -> Result<u8, Fault>
    requires { moment ≤ greatest_moment }
    ensures { (link : LinkView) (e : SinkView)
        → spec.IsToldOrLacks (opened seed moment) (judgement_plan false) text.now result
        (reach link (K.takes out.old) e) (reach link (K.takes out.new) e) }
{
    seed_bytes(&seed);
    law_upgrade();
    match check(alloc, text, seed, moment) {
        Ok(verdict) => print_verdict(alloc, &verdict, out),
        Err(_) => Err(Fault::NoMemory),
    }
}

/// This journal is printed in format 2, or the verdict on it where it isn't legal.
fn tell_upgrade<K: Sink>(
    alloc: Global,
    text: &[u8],
    seed: [u8; 32],
    moment: u64,
    out: &mut K,
) -> Result<u8, Fault>
    requires { moment ≤ greatest_moment }
    ensures { (link : LinkView) (e : SinkView)
        → spec.IsToldOrLacks (opened seed moment) (judgement_plan true) text.now result
        (reach link (K.takes out.old) e) (reach link (K.takes out.new) e) }
{
    match upgrade(alloc, text, seed, moment) {
        Ok(upgraded) => print_upgraded(alloc, &upgraded, out),
        Err(_) => Err(Fault::NoMemory),
    }
}

/// The one or the other.
fn tell<K: Sink>(
    alloc: Global,
    upgrade: bool,
    text: &[u8],
    seed: [u8; 32],
    moment: u64,
    out: &mut K,
) -> Result<u8, Fault>
    requires { moment ≤ greatest_moment }
    ensures { (link : LinkView) (e : SinkView)
        → spec.IsToldOrLacks (opened seed moment) (judgement_plan upgrade) text.now result
        (reach link (K.takes out.old) e) (reach link (K.takes out.new) e) }
{
    if upgrade {
        return tell_upgrade(alloc, text, seed, moment, out);
    }
    tell_verdict(alloc, text, seed, moment, out)
}

/// It reads standard input to its end, and prints the verdict on that journal, or, where that is asked for, a legal
/// one in format 2.
pub(crate) fn replay_journal<W: Wait, N: Source, K: Sink>(
    rt: &W,
    alloc: Global,
    upgrade: bool,
    seed: [u8; 32],
    moment: u64,
    input: &mut N,
    out: &mut K,
) -> Result<u8, Fault>
    requires { moment ≤ greatest_moment }
    ensures { (link : LinkView) (e : SinkView)
        → spec.Judged (replay_plan upgrade seed moment) result
        (N.gives input.old) (N.gives input.new)
        (reach link (K.takes out.old) e) (reach link (K.takes out.new) e) }
{
    match read_input(rt, alloc, input) {
        Ok(text) => tell(alloc, upgrade, &text, seed, moment, out),
        Err(fault) => Err(fault),
    }
}
