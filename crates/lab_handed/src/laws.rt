// What holds of requests that are handed on otherwise.
ghost use Rattle.lab_handed.specs.Laws.{ChangedIsHanded, AsksEarly};

/// The bytes that are handed on in the place of a head spell the request as it is seen, or, where it has no room, as
/// it came.
pub fn law_changed_is_handed()
    ensures { ChangedIsHanded }
{}

/// A request with the field asks for an early head, where it has no field that says no.
pub fn law_asks_early()
    ensures { AsksEarly }
{}
