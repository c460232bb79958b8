// Laws over all lists of polls.
ghost use Rattle.session_poll.specs.Standing.{law_again, law_beside, law_new, law_standing};

/// A session that is new may be polled.
pub fn law_of_new_sessions()
    ensures { law_new }
{}

/// Wherever a session stands, its answered requests and the one under way are told.
pub fn law_of_standing()
    ensures { law_standing }
{}

/// Steps of others between two polls leave a session where it stands.
pub fn law_of_others()
    ensures { law_beside }
{}

/// Behind a poll that isn't done a session may be polled again.
pub fn law_of_polls()
    ensures { law_again }
{}
