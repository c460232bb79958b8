// A source and a sink in memory that aren't ready at the polls that they are told.
mod late;
mod sink;
mod source;

pub use sink::MemPollSink;
pub use source::MemPollSource;
