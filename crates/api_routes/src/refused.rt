// Why a part of a request isn't read: its fault, or want of memory.
ghost use Rattle.std.specs.Prelude.{◌≡◌};
ghost use Rattle.api_routes.specs.declared.refused.Refused.TheVariants.{NoMemory};

use crate::Fault;
use engine_text::NoMemory;
use std::alloc::AllocError;

/// Why a part of a request isn't read.
#[derive(Drop)]
pub(crate) enum Refused {
    Fault(Fault),
    NoMemory,
}

impl From<NoMemory> for Refused {
    ghost from_gives = { λ _ e. e ≡ NoMemory };

    fn from(_error: NoMemory) -> Refused {
        Refused::NoMemory
    }
}

impl From<AllocError> for Refused {
    ghost from_gives = { λ _ e. e ≡ NoMemory };

    fn from(_error: AllocError) -> Refused {
        Refused::NoMemory
    }
}
