//! The shared daemon: one daemon value behind a turnstile, and a session of each connection that
//! comes, in a thread of its own.
#![tactic(auto)]

mod accepting;
mod admission;
mod closing;
mod daemon_run;
mod ends;
mod event_job;
mod journal_job;
mod lending;
mod log_job;
mod one_daemon;
mod pairing;
mod running;
mod serving;
mod session_list;
mod shared;
mod sharing;

pub use daemon_run::run_daemon;
pub use one_daemon::{OneDaemon, Opening, open};
pub use shared::{Shared, TurnJob};
pub use sharing::serve_by;
