// The calls of volumes, one by one.
pub mod inspect;
pub mod list;
