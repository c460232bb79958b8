// The words of a line.
mod containers;
mod execs;
mod few;
mod optioned;
mod options;
mod replays;
mod split;
mod table;
mod targets;
mod times;
mod views;
mod volumes;

pub(crate) use few::copied;
pub use table::read_line;
pub(crate) use table::{ANY, usage_of};
pub use times::time_of;
