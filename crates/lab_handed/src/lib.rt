//! Requests as the front hands them on: a wait that asks for its head early, events from the first kept one on, and a
//! list of one name without filters.
#![tactic(auto)]

mod changing;
mod early;
mod exact;
mod keys;
mod laws;
mod since;

pub use changing::{Change, change_of, place_of, text_of};
pub use exact::exact_by;
pub use laws::{law_asks_early, law_changed_is_handed};
