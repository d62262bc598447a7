//! The limits that encounters alone have. Each limit is itself allowed.

/// The least range at the start of an encounter, in ft.
pub const LEAST_START_RANGE: i64 = 0;

/// The greatest range at the start of an encounter, in ft.
pub const GREATEST_START_RANGE: i64 = 3_000_000;

/// The least acceleration of either aircraft, in ft/min per second.
pub const LEAST_ACCELERATION: i64 = -2_000;

/// The greatest acceleration of either aircraft, in ft/min per second.
pub const GREATEST_ACCELERATION: i64 = 2_000;
