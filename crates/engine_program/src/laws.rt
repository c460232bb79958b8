// Laws over every line that listens.
ghost use Rattle.engine_program.specs.Laws.{law_never_stopped, law_failed};

/// Where the line sets the clock, the status is never 5.
pub fn law_of_stops()
    ensures { law_never_stopped }
{}

/// The status is 4 only where the door's faults rose, or those of a connection.
pub fn law_of_faults()
    ensures { law_failed }
{}
