//! Answers of the daemon as tools look for them: an inspect with more members, two refusals, and of a list one item.
#![tactic(auto)]

mod asking;
mod listing;
mod parting;
mod refusing;
mod searching;
mod showing;
mod taking;
mod text;
mod texts;
mod writing;

pub use asking::{Asked, asked_by};
pub use listing::head_alone;
pub use showing::write_shown;
pub use taking::{OneSink, Taking};
pub use text::Text;
