// A taker that has taken nothing.
ghost use Rattle.std.specs.Prelude.{◌≡◌, []};
ghost use Rattle.client_exchange.specs.Taking.{taken};

use crate::taker::Taker;
use client_model::Showing;
use std::alloc::Global;

/// A taker before the first byte of a body.
pub(crate) fn fresh_taker(alloc: Global, showing: Showing) -> Taker
    ensures showing { result.showing ≡ showing }
    ensures fresh { result ≡ taken result.showing [] }
{
    Taker::new(alloc, showing)
}
