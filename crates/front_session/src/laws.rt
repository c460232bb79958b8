// What holds of a connection behind a front.
ghost use Rattle.front_session.specs.Laws.{HaveSomeFront, HaveOneFront, SessionsSeeOthers, RunsAreFronts};

/// Whatever the bytes of a connection are, a front does one thing with them.
pub fn law_one_front()
    ensures some { HaveSomeFront }
    ensures one { HaveOneFront }
{}

/// What is handed on reads as the requests that the front doesn't answer, in order.
pub fn law_sessions_see_others()
    ensures { SessionsSeeOthers }
{}

/// What reads did, one after another, is the first of what a front does with the bytes.
pub fn law_runs_are_fronts()
    ensures { RunsAreFronts }
{}
