//! The client of the Engine API, in parts: its line, its requests, and what it reads of answers.
#![tactic(auto)]

mod answers;
mod lines;
pub mod requests;
mod unread;
mod words;

pub use answers::{
    checked_in, container_lines_in, exit_code_in, id_in, message_in, status_code_in, status_of,
    volume_names_in, write_fault,
};
pub use lines::{change_line, standing_line};
pub use unread::Unread;
pub use words::{read_line, time_of};
