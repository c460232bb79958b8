//! What `dockc` asks, writes and ends with, as definitions, and the types of a line.
#![tactic(auto)]

mod checked;
mod command;
mod fault;
mod manner;
mod showing;
mod words;

pub use checked::Checked;
pub use command::{Command, Line, NewContainer, Restart};
pub use fault::Fault;
pub use manner::Manner;
pub use showing::Showing;
pub use words::{Kind, Split};
