// Which turns are refused.
ghost use Rattle.std.specs.Prelude.{◌≡◌};
ghost use Rattle.std.specs.Option.{option_map};
ghost use Rattle.scarce_turns.specs.Scarcity.{is_begin, is_take, is_counted, is_refused_as, is_refused, counted_on};

use engine_text::Call;

/// Which turns are refused, counted from 0.
#[derive(Clone, Copy, PartialEq, Eq, Debug, Drop)]
pub enum Scarcity {
    /// The one of this number among those whose call is no take, no drop and no feed.
    Calls(u64),
    /// Those of this number on, among those with a take.
    Takes(u64),
}

fn is_begin(call: &Call) -> bool
    ensures { result ≡ is_begin call.now }
{
    match call {
        Call::Take { .. } => false,
        Call::Drop { .. } => false,
        Call::Feed { .. } => false,
        Call::FeedEnd { .. } => false,
        _ => true,
    }
}

fn is_take(call: &Call) -> bool
    ensures { result ≡ is_take call.now }
{
    match call {
        Call::Take { .. } => true,
        _ => false,
    }
}

impl Scarcity {
    fn counts(&self, call: Option<&Call>) -> bool
        ensures { result ≡ is_counted self.now (option_map (λ c. c.now) call.entry) }
    {
        let Some(c) = call else {
            return false;
        };
        match self {
            Scarcity::Calls(_) => is_begin(c),
            Scarcity::Takes(_) => is_take(c),
        }
    }

    fn refuses_as(&self, asked: u64) -> bool
        ensures { result ≡ is_refused_as self.now asked }
    {
        match self {
            Scarcity::Calls(number) => asked == *number,
            Scarcity::Takes(number) => *number <= asked,
        }
    }

    /// Whether a turn is refused behind so many that were counted.
    pub(crate) fn refuses(&self, asked: u64, call: Option<&Call>) -> bool
        ensures { result ≡ is_refused self.now asked (option_map (λ c. c.now) call.entry) }
    {
        self.counts(call) && self.refuses_as(asked)
    }

    /// How many were counted, behind it.
    pub(crate) fn counted_on(&self, asked: u64, call: Option<&Call>) -> u64
        ensures { result ≡ counted_on self.now asked (option_map (λ c. c.now) call.entry) }
    {
        if self.counts(call) {
            asked.saturating_add(1)
        } else {
            asked
        }
    }
}
