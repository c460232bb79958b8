// What a watch says of the steps of a line: events, and moments up to which is asked.
ghost use Rattle.std.specs.Prelude.{◌≤◌};

use crate::short::Short;
use engine_text::{Action, Event, EventKind, HealthSpec, Pairs, Text, Words};
use health_watch::Watch;
use std::alloc::Global;

/// The greatest timeout of a check: an hour of milliseconds.
const LONGEST: u64 = 3_600_000;

/// More changes than a line brings.
const MANY: u32 = 1_000;

// The words of a text.
fn words_of(alloc: Global, text: &str) -> Result<Words, Short> {
    let mut words = Words::new(alloc);
    for word in text.split(' ') {
        words.push(alloc, Text::of(alloc, word)?)?;
    }
    Ok(words)
}

// The action of a word.
fn action_of(word: &str) -> Action {
    match word {
        "start" => Action::Start,
        "die" => Action::Die,
        "pause" => Action::Pause,
        "unpause" => Action::Unpause,
        _ => Action::Kill,
    }
}

// The event of a word; `other` is the die of another container.
fn event_of(alloc: Global, word: &str, moment: u64) -> Result<Event, Short> {
    let id = if word == "other" { "db" } else { "web" };
    let action = if word == "other" {
        Action::Die
    } else {
        action_of(word)
    };
    Ok(Event {
        kind: EventKind::Container,
        action,
        id: Text::of(alloc, id)?,
        attributes: Pairs::new(alloc),
        moment,
    })
}

// The changes up to a moment, and the state then.
fn asked(alloc: Global, watch: &mut Watch, until: u64, told: &mut String) -> Result<(), Short> {
    for _change in 0..MANY {
        let Some(change) = watch.next(alloc, until)? else {
            break;
        };
        let word = if change.healthy {
            "healthy"
        } else {
            "unhealthy"
        };
        let line = format!(in alloc; "{word} at {}; ", change.moment)?;
        told.push_str(line.as_str())?;
    }
    let (health, streak) = watch.state();
    let line = format!(in alloc; "{health:?} {streak} at {until}; ")?;
    told.push_str(line.as_str())?;
    Ok(())
}

// One step.
fn step(
    alloc: Global,
    watch: &mut Watch,
    word: &str,
    moment: u64,
    told: &mut String,
) -> Result<(), Short> {
    if word == "ask" {
        return asked(alloc, watch, moment, told);
    }
    let event = event_of(alloc, word, moment)?;
    if !watch.may_come(event.moment) {
        told.push_str("too late; ")?;
        return Ok(());
    }
    watch.event(alloc, &event)?;
    Ok(())
}

// A check of these words and numbers: interval, timeout, retries and start period.
fn check_of(alloc: Global, words: &str, numbers: &str) -> Result<HealthSpec, Short> {
    let mut fields = numbers.split(' ');
    let interval = fields.next().unwrap_or("").parse().unwrap_or(0);
    let timeout = fields.next().unwrap_or("").parse().unwrap_or(0);
    let retries = fields.next().unwrap_or("").parse().unwrap_or(0);
    let start_period = fields.next().unwrap_or("").parse().unwrap_or(0);
    Ok(HealthSpec {
        words: words_of(alloc, words)?,
        interval,
        timeout,
        retries,
        start_period,
    })
}

/// What is said of the steps under that check.
pub fn told(alloc: Global, words: &str, numbers: &str, steps: &str) -> Result<String, Short> {
    let spec = check_of(alloc, words, numbers)?;
    let mut told = String::new(alloc);
    if spec.interval < 1 || LONGEST < spec.timeout {
        told.push_str("no check")?;
        return Ok(told);
    }
    let mut watch = Watch::new(alloc, Text::of(alloc, "web")?, spec)?;
    for part in steps.split(',') {
        let (word, moment) = part.split_once(' ').unwrap_or((part, ""));
        step(
            alloc,
            &mut watch,
            word,
            moment.parse().unwrap_or(0),
            &mut told,
        )?;
    }
    Ok(told)
}
