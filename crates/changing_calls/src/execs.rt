// The calls of execs, one by one.
pub mod create;
mod refusal;
pub mod start;
