//! The calls that change no container, exec or volume: what they answer.
#![tactic(auto)]

pub mod attach;
pub mod events;
pub mod execs;
mod filters;
pub mod inspect;
pub mod list;
mod log_end;
mod log_part;
pub mod logs;
mod selection;
pub mod take;
mod volume_filters;
pub mod volumes;
pub mod wait;

pub use log_part::{LogPart, part_of};
pub use selection::is_selected;
