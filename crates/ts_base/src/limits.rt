//! How large models, inputs, certificates and texts may be.

/// The most cells of a series.
pub const CELLS: usize = 512;

/// The greatest value of a cell; the least is its opposite.
pub const CELL_VALUE: i64 = 1_000_000;

/// The most terms of a model.
pub const TERMS: usize = 32;

/// The most requirements of a model.
pub const REQUIREMENTS: usize = 64;

/// The greatest bound of a requirement that is a number; the least is its opposite.
pub const BOUND: i64 = 1_000_000_000_000;

/// The most values that all domains of a model have together, where it is solved.
pub const DOMAIN_VALUES: u64 = 65_536;

/// The most bytes of an input that is a model.
pub const MODEL_BYTES: usize = 1_048_576;

/// The most bytes of a model or a pattern with what follows it: a series, or a stream of readings.
pub const CHECK_BYTES: usize = 2_097_152;

/// The most bytes of a model and a certificate.
pub const VERIFY_BYTES: usize = 135_266_304;

/// The most checked lines of a certificate, and the greatest budget of a search.
pub const CHECKED: u32 = 4_000_000;

/// The most series of a listing.
pub const LISTED: u32 = 5_000;

/// No text, line or list that a call takes has so many bytes or items.
pub const TOO_MANY: u32 = 4_000_000_000;
