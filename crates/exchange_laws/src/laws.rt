// What turns come to, and what requests are answered by then.
ghost use Rattle.exchange_laws.specs.Laws.{law_answers, law_early_waits, law_turns, law_waits};

/// A turn with a call, other than a drop, comes to what its answer says.
pub fn law_of_turns()
    ensures { law_turns }
{}

/// A request is answered by its bytes, or by what a turn with its call came to.
pub fn law_of_answers()
    ensures { law_answers }
{}

/// A request whose call gave a ticket is answered by what the wait for it came to.
pub fn law_of_waits()
    ensures { law_waits }
{}

/// The same of a wait whose head came before it was over.
pub fn law_of_early_waits()
    ensures { law_early_waits }
{}
