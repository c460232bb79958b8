//! Tables of the state beside those of containers, execs and volumes: processes, tickets, removals, moments.
#![tactic(auto)]

mod death;
mod held;
mod kept_logs;
mod least;
mod moment_places;
mod moments;
mod names;
mod processes;
mod ready;
mod removals;
mod ticket_rows;
mod tickets;

pub use death::Death;
pub use held::{HeldTicket, Ready, RemovalResult};
pub use least::{lesser, number_of};
pub use moments::Moments;
pub use names::chosen_name;
pub use processes::Processes;
pub use ready::{code_of, death_of, has_died, ready_if};
pub use removals::Removals;
pub use tickets::Tickets;
