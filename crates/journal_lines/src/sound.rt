// Whether a request can make a call: by its fields, each by its kind.
mod bounds;
mod fields;
mod filters;
mod mounts;
mod rising;
mod sounds;

pub use sounds::{is_sound, law_sound_by_fields};
