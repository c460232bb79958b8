// The calls of volumes, one by one.
pub mod create;
pub mod remove;
