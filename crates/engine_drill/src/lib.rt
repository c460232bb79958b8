//! The requests of a drill, made by chance, their answers counted, and the lines of its report.
#![tactic(auto)]

mod answers;
mod counting;
mod deed;
mod given;
mod lines;
mod making;
mod reporting;
mod request;

pub use counting::tally;
pub use given::Given;
pub use making::requests;
pub use reporting::report;
