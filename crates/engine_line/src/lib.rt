//! The command lines of `engined` and `engineone`.
#![tactic(auto)]

mod command;
mod line;
mod one_line;
mod read;
mod values;

pub use line::{Beginning, Line, OneLine, Stepping, Work};
pub use one_line::read_one_line;
pub use read::read_line;
pub use values::{moment_in, port_in, seed_of};
