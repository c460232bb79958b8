//! The events of a step, made before it, and what its effects need and note.
#![tactic(auto)]

mod end_memory;
mod events;
pub mod exec_lists;
mod foretell;
mod foretell_calls;
mod foretell_create;
mod foretell_end;
mod halting;
pub mod lives;
mod new_volumes;
mod statuses;

pub use end_memory::EndMemory;
pub use events::{
    die_event, exec_die_event, exec_event, kill_event, plain_event, rename_event, volume_event,
};
pub use foretell::{add, tell_launch, tell_mounts};
pub use foretell_calls::tell_again;
pub use foretell_create::tell_volumes;
pub use foretell_end::{Ending, tell_status};
pub use halting::Halting;
pub use new_volumes::{make_volumes, missing_volumes, refer_to};
pub use statuses::{is_paused, is_restarting};
