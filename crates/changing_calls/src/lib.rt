//! The calls that change a container, an exec or a volume: prepared, and performed.
#![tactic(auto)]

pub mod create;
pub mod execs;
pub mod feed;
pub mod halts;
pub mod kill;
pub mod pause;
pub mod remove;
pub mod rename;
pub mod restart;
pub mod start;
pub mod stop;
pub mod unpause;
pub mod update;
pub mod volumes;
