// Why nothing is read.
use engine_text::NoMemory;
use std::alloc::AllocError;

/// Why nothing is read.
#[derive(Clone, Copy, PartialEq, Eq, Debug, Drop)]
pub enum Unread {
    /// It hasn't the form.
    NoForm,
    NoMemory,
}

impl From<NoMemory> for Unread {
    ghost use Rattle.std.specs.Prelude.{◌≡◌};
    ghost use Rattle.client_parts.specs.declared.unread.Unread.TheVariants as unread;

    ghost from_gives = { λ _ e. e ≡ unread.NoMemory };

    fn from(_error: NoMemory) -> Unread {
        Unread::NoMemory
    }
}

impl From<AllocError> for Unread {
    ghost use Rattle.std.specs.Prelude.{◌≡◌};
    ghost use Rattle.client_parts.specs.declared.unread.Unread.TheVariants as unread;

    ghost from_gives = { λ _ e. e ≡ unread.NoMemory };

    fn from(_error: AllocError) -> Unread {
        Unread::NoMemory
    }
}
