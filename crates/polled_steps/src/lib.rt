//! Steps of a session that is polled: a turn that is asked for once, and an answer that is put on its way and
//! written as far as it goes.
#![tactic(auto)]

mod answers;
mod chunks;
mod front;
mod opening;
mod outgoing;
mod sending;
mod telling;
mod texts;
mod turning;

pub use answers::{
    Answer, Behind, broken, direct, early, journal_full, out_of_memory, refusal, replied,
    replied_early, stopping,
};
pub use chunks::{chunk, last, stream_head};
pub use opening::{Opened, open_once};
pub use outgoing::Outgoing;
pub use sending::{Sent, send};
pub use telling::{Told, first_of, tell_once};
pub use turning::{Asked, Taken, ask_once, drop_ticket, take_once};
