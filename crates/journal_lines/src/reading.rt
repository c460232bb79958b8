// A journal's lines, read: one file for each kind of value.
mod calls;
mod carried;
mod create;
mod execs;
mod feeds;
mod filter;
mod header;
mod line;
mod lists;
mod logs;
mod options;
mod parts;
mod replies;

pub use carried::{entries_texts, seed_bytes};
pub use header::read_header;
pub use line::{law_line_reads_back, read_line};
