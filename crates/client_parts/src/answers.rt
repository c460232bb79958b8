// What is read of the bodies of answers, and what a fault ends a command with.
mod checks;
mod codes;
mod faults;
mod fields;
mod lists;
mod telling;
mod usage;

pub use checks::checked_in;
pub use codes::{exit_code_in, status_code_in};
pub use faults::status_of;
pub use fields::{id_in, message_in};
pub(crate) use lists::with_word;
pub use lists::{container_lines_in, volume_names_in};
pub use telling::write_fault;
