// Laws over every line.
ghost use Rattle.one_program.specs.Laws.{law_never_stopped, law_failed};

/// Where the line sets the clock, the status is never 5.
pub fn law_of_stops()
    ensures { law_never_stopped }
{}

/// The status is 4 only where the door's faults rose, or the runner's, or those of a connection, or a journal couldn't be read.
pub fn law_of_faults()
    ensures { law_failed }
{}
