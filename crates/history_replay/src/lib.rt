//! Checks a journal: its calls are made again on the machine, and their replies compared.
#![tactic(auto)]

mod checking;
mod cut;
mod dues;
mod entry;
mod head;
mod laws;
mod making;
mod moments;
mod remaking;
mod upgrading;

pub use checking::{check, check_lines};
pub use head::head_of;
pub use laws::{law_complete, law_legal, law_one_verdict, law_upgrade};
pub use remaking::Replays;
pub use upgrading::{Upgraded, upgrade};
