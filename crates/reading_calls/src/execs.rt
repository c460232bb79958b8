// The calls of execs, one by one.
pub mod inspect;
