// What holds of every connection's bytes.
ghost use Rattle.http_edge.specs.Laws.{HaveOneReading, HaveSomeReading, RefusedAwaitNone, RefusedHaveNone, UnfinishedHaveNone, RefusedStay};

/// The bytes of a connection are one list of requests and one rest.
pub fn law_one_reading()
    ensures { HaveOneReading }
{}

/// Whatever the bytes of a connection are, they are some requests and a rest.
pub fn law_of_requests()
    ensures { HaveSomeReading }
{}

/// What is refused or unfinished begins with no request.
pub fn law_begins_with_none()
    ensures refused { RefusedHaveNone }
    ensures unfinished { UnfinishedHaveNone }
{}

/// What is refused stays refused, whatever follows.
pub fn law_refused_stays()
    ensures { RefusedStay }
{}

/// What is refused awaits nothing more, but where it ends inside a target, which is told to be text at its end.
pub fn law_refused_is_decided()
    ensures { RefusedAwaitNone }
{}
