// Laws over all sessions that are polled.
ghost use Rattle.polled_model.specs.Polls.{law_pauses};
ghost use Rattle.polled_model.specs.Progress.{law_beginnings, law_others};
ghost use Rattle.polled_model.specs.Steps.{law_progress, law_stages};
ghost use Rattle.polled_model.specs.Takeovers.{law_takeovers};

/// A session that has read, written and called nothing is on its way.
pub fn law_of_beginnings()
    ensures { law_beginnings }
{}

/// Steps of others between two polls change nothing of how far a session has come.
pub fn law_of_others()
    ensures { law_others }
{}

/// Each step of a session leads from one of its states to the next, or to its end.
pub fn law_of_stages()
    ensures { law_stages }
{}

/// A session in any of its states is on its way.
pub fn law_of_progress()
    ensures { law_progress }
{}

/// A connection that was taken over: its input is fed and its stream told in turn, both end, and it is on its way
/// all the while.
pub fn law_of_takeovers()
    ensures { law_takeovers }
{}

/// A poll that isn't done leaves a session on its way, whatever it did before.
pub fn law_of_pauses()
    ensures { law_pauses }
{}
