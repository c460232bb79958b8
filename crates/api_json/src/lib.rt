//! Bodies of requests and answers, and event lines, both ways.
#![tactic(auto)]

mod container;
mod create;
mod event;
mod event_rules;
mod exec;
mod exec_create;
mod fault;
mod fields;
mod filters;
mod health;
mod host_config;
mod list;
mod lists;
mod mount;
mod mount_forms;
mod status;
mod update;
mod values;
mod volume;
mod volume_create;
mod written;

pub use container::{ContainerView, container_body};
pub use create::read_create;
pub use event::{event_line, law_event_line_reads_back, read_event_line};
pub use event_rules::{action_word, attributes_fit, kind_word, read_action, read_kind};
pub use exec::{ExecView, exec_body};
pub use exec_create::{ExecSpec, read_exec, read_exec_start};
pub use fault::{BodyFault, BodyKey, Refused};
pub use filters::{filter_word, read_filter};
pub use list::list_body;
pub use status::{status_text, status_word};
pub use update::read_update;
pub use values::IMAGE_NAME;
pub use volume::{VolumeView, volume_body, volumes_body};
pub use volume_create::{VolumeSpec, read_volume};
