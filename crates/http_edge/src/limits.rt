// The greatest sizes of a request.

/// The greatest head, in bytes.
pub const HEAD_LIMIT: usize = 16_384;

/// The most fields of a head.
pub const FIELD_LIMIT: usize = 64;

/// The greatest body, in bytes.
pub const BODY_LIMIT: usize = 1_048_576;

/// The most fields that can stand in a head of the greatest size: no head has too many for these.
pub(crate) const FIELD_PLACES: usize = 5_462;

/// The most digits of a length.
pub(crate) const DIGIT_LIMIT: usize = 18;

/// The greatest line of a chunk, in bytes, with its line end.
pub(crate) const LINE_LIMIT: usize = 256;

/// The greatest trailers, in bytes, with the empty line that ends them.
pub(crate) const TRAILER_LIMIT: usize = 4_096;

/// The most fields that can stand in trailers of the greatest size.
pub(crate) const TRAILER_PLACES: usize = 1_366;
