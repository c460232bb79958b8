//! Journals: their lines, and what a checker says of them.
#![tactic(auto)]

mod fault;
mod fields;
mod format;
mod header;
mod journal;
mod places;
mod reading;
mod sound;
mod verdict;
mod writing;

pub use fault::LineFault;
pub use format::Format;
pub use header::Header;
pub use journal::Journal;
pub use reading::{law_line_reads_back, read_header, read_line, seed_bytes};
pub use sound::{is_sound, law_sound_by_fields};
pub use verdict::Verdict;
pub use writing::{reply_text, write_header, write_line};
