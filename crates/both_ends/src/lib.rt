//! A law of both ends: what a `run` of the client shows of the daemon's sessions that answered it.
#![tactic(auto)]

ghost use Rattle.both_ends.specs.BothEnds.{BothEnds, OnesAreServed};

/// Where each request of a `run` was served by a session of its own that closed behind its answer, and no answer has a
/// status of 400 or more, the client writes what the container wrote, each stream to its output, and ends with the code
/// that the wait told. Each closed session that answered one request is such a session.
pub fn law_both_ends()
    ensures both { BothEnds }
    ensures served { OnesAreServed }
{}
