//! The laws of every legal history, as contracts of functions that do nothing.
ghost use Rattle.machine_model.specs.Laws.{AttachLaw, FoldLaw, LogGrowsLaw, PastLaw, StatesLaw, StatusesLaw, TicketsLaw};

/// Every state is consistent, and the moments of events never fall.
pub fn law_states()
    ensures { StatesLaw }
{}

/// Events determine inspect: what folds from all events is what inspect tells of each container.
pub fn law_fold()
    ensures { FoldLaw }
{}

/// Logs only grow: what was in a log stays at its beginning, while it is kept.
pub fn law_log_grows()
    ensures { LogGrowsLaw }
{}

/// Each operation answers only its own statuses, tickets and streams.
pub fn law_statuses()
    ensures { StatusesLaw }
{}

/// What is kept of the past is its end: the logs of the last 64 removals, the moments of the last 65,536 events.
pub fn law_past()
    ensures { PastLaw }
{}

/// Runs are counted from 1: an attach never follows run 0.
pub fn law_attach()
    ensures { AttachLaw }
{}

/// Tickets stand in order of number.
pub fn law_tickets()
    ensures { TicketsLaw }
{}
