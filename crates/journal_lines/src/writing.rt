// A journal's lines, written: a call by its fields, each by its kind.
mod fields;
mod filter;
mod header;
mod line;
mod options;
mod replies;
mod values;

pub use header::{header_of, write_header};
pub use line::{line_of, write_line};
pub use replies::reply_text;
