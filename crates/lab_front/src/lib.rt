//! The requests that a front before the daemon answers the same at each time.
#![tactic(auto)]

mod forced;
mod images;
mod left;
mod naming;
mod path;
mod pruning;
mod query;
mod table;
mod texts;
mod writing;

pub use forced::{is_forced, query_in};
pub use left::LeftOut;
pub use path::{cut_at, path_of};
pub use query::{behind_first, query_of, spells, value_of};
pub use table::{Network, Row, row_of};
pub use texts::{status_of, text_of};
pub use writing::write_row;
