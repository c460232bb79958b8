// Messages that are always the same.
ghost use Rattle.std.specs.Prelude.{◌≡◌};
ghost use Rattle.machine_model.specs.Outcome.{message_text};
ghost use Rattle.exchange_laws.specs.Fixed.{fixed_status, fixed_text};

/// An answer whose message is always the same. It takes no memory.
#[derive(Clone, Copy, Debug, PartialEq, Eq)]
pub enum Fixed {
    OutOfMemory,
    JournalFull,
    Stopping,
}

impl Fixed {
    pub fn status(self) -> u16
        ensures { result ≡ fixed_status self }
    {
        match self {
            Fixed::OutOfMemory => 500,
            Fixed::JournalFull | Fixed::Stopping => 503,
        }
    }

    /// `{"message":"TEXT"}`
    pub fn as_slice(self) -> &'static [u8]
        ensures { result.now ≡ message_text (fixed_text self) }
    {
        match self {
            Fixed::OutOfMemory => b"{\"message\":\"out of memory\"}",
            Fixed::JournalFull => b"{\"message\":\"journal is full\"}",
            Fixed::Stopping => b"{\"message\":\"stopping\"}",
        }
    }
}
