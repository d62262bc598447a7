//! The limits of models, tables, boxes, encounters and words. Each limit is itself allowed.

/// The least version of a model's text.
pub const LEAST_MODEL_VERSION: u32 = 1;

/// The greatest version of a model's text.
pub const GREATEST_MODEL_VERSION: u32 = 2;

/// The least number of vertices on an axis of a grid.
pub const LEAST_VERTICES: u32 = 2;

/// The greatest number of vertices on an axis of a grid.
pub const GREATEST_VERTICES: u32 = 129;

/// The least relative altitude of an axis or a box, in ft.
pub const LEAST_ALTITUDE: i64 = -10_000;

/// The greatest relative altitude of an axis or a box, in ft.
pub const GREATEST_ALTITUDE: i64 = 10_000;

/// The least vertical rate of an axis, of an advisory or of a box, in ft/min.
pub const LEAST_RATE: i64 = -10_000;

/// The greatest vertical rate of an axis, of an advisory or of a box, in ft/min.
pub const GREATEST_RATE: i64 = 10_000;

/// The least number of seconds that a table goes back.
pub const LEAST_HORIZON: u32 = 0;

/// The greatest number of seconds that a table goes back.
pub const GREATEST_HORIZON: u32 = 120;

/// The least number of advisories of a model.
pub const LEAST_ADVISORIES: u32 = 2;

/// The greatest number of advisories of a model.
pub const GREATEST_ADVISORIES: u32 = 16;

/// The least number of bytes of an advisory's name.
pub const LEAST_NAME_BYTES: usize = 1;

/// The greatest number of bytes of an advisory's name.
pub const GREATEST_NAME_BYTES: usize = 32;

/// The least number of sigma points of a model.
pub const LEAST_SIGMAS: u32 = 1;

/// The greatest number of sigma points of a model.
pub const GREATEST_SIGMAS: u32 = 25;

/// The least weight of a sigma point.
pub const LEAST_WEIGHT: i64 = 1;

/// The greatest weight of a sigma point.
pub const GREATEST_WEIGHT: i64 = 1_000;

/// The greatest sum of the weights of all sigma points.
pub const GREATEST_TOTAL_WEIGHT: u32 = 1_000;

/// The least change of a vertical rate by a sigma point, in ft/min.
pub const LEAST_NOISE: i64 = -5_000;

/// The greatest change of a vertical rate by a sigma point, in ft/min.
pub const GREATEST_NOISE: i64 = 5_000;

/// The least acceleration by which a pilot follows an advisory, in ft/min per second.
pub const LEAST_PULL: u32 = 1;

/// The greatest acceleration of any pilot response, in ft/min per second. No pull is above its model's limit.
pub const GREATEST_LIMIT: u32 = 2_000;

/// The greatest number of seconds that a pilot may hold the rate before following an advisory.
pub const GREATEST_DELAY: u32 = 10;

/// The least radius of the puck, in ft.
pub const LEAST_RADIUS: u32 = 1;

/// The greatest radius of the puck, in ft.
pub const GREATEST_RADIUS: u32 = 5_000;

/// The least half height of the puck, in ft.
pub const LEAST_HALF_HEIGHT: u32 = 1;

/// The greatest half height of the puck, in ft.
pub const GREATEST_HALF_HEIGHT: u32 = 1_000;

/// The least closing speed, in ft/s.
pub const LEAST_CLOSING: u32 = 1;

/// The greatest closing speed, in ft/s.
pub const GREATEST_CLOSING: u32 = 5_000;

/// The greatest number of seconds in which a horizon's range and twice the radius are closed at the least closing speed.
pub const WINDOW_SECONDS: u32 = 600;

/// The least cost, in units.
pub const LEAST_COST: i64 = -1_000_000_000;

/// The greatest cost, in units.
pub const GREATEST_COST: i64 = 1_000_000_000;

/// The greatest number of entries of a table, over all its layers.
pub const GREATEST_ENTRIES: u64 = 4_000_000;

/// The greatest number of bytes of a text file.
pub const TEXT_BYTES: u64 = 1_000_000;

/// The greatest number of bytes of a word that names a file. The least is 1.
pub const FILE_NAME_BYTES: usize = 255;

/// The least number of boxes of a file.
pub const LEAST_BOXES: u32 = 1;

/// The greatest number of boxes of a file.
pub const GREATEST_BOXES: u32 = 10_000;

/// The least range of a box, in ft.
pub const LEAST_BOX_RANGE: i64 = 0;

/// The greatest range of a box, in ft.
pub const GREATEST_BOX_RANGE: i64 = 3_000_000;

/// The least number of seconds of an encounter.
pub const LEAST_SECONDS: u32 = 1;

/// The greatest number of seconds of an encounter.
pub const GREATEST_SECONDS: u32 = 600;

/// The least number of a drill.
pub const LEAST_DRILL_NUMBER: u32 = 0;

/// The greatest number of a drill.
pub const GREATEST_DRILL_NUMBER: u32 = 999_999_999;
