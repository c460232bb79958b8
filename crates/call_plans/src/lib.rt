//! What a prepared call does, needs and answers.
#![tactic(auto)]

mod answers;
pub mod exec_answers;
mod images;
mod lookup;
mod plan;
mod prepared;
pub mod refusals;
mod run_ends;
mod runs;
mod space;
mod streams;
mod texts;
pub mod volume_answers;

pub use answers::{answer, message, refuse, stream};
pub use images::is_image;
pub use lookup::{Looked, look};
pub use plan::Plan;
pub use prepared::Prepared;
pub use run_ends::{empty_memory, end_memory};
pub use runs::{Run, run_of};
pub use space::{Space, space_of};
pub use streams::run_if;
pub use texts::{join, waited};
