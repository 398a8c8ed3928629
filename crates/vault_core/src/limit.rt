//! The limits of a vault, each of which stands here alone.

/// The most merchants of a vault.
pub const MOST_MERCHANTS: u64 = 10000;

/// The most tokens of a merchant, purged ones too.
pub const MOST_TOKENS: u64 = 1000000;

/// How often a number may be given, and how often denied, at one merchant.
pub const MOST_COUNT: u64 = 4611686018427387903;

/// The longest life of a token, 100 years in seconds.
pub const LONGEST_LIFE: u64 = 3155760000;

/// The last moment, the end of the year 9999.
pub const LAST_MOMENT: u64 = 253402300799;
