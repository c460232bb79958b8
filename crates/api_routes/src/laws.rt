// What the class of a request tells of its call and of its answer.
ghost use Rattle.api_routes.specs.Laws.{CallsAreSound, AnswersHaveStatus};

/// The call of a class is sound.
pub fn law_class_calls()
    ensures { CallsAreSound }
{}

/// Each direct answer has the status 200, 400 or 404.
pub fn law_direct_statuses()
    ensures { AnswersHaveStatus }
{}
