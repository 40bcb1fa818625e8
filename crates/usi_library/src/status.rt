//! What a call answers, as a number that C can read.

/// It did what it was asked.
pub const USI_OK: u32 = 0;

/// The session is closed. Nothing changed.
pub const USI_CLOSED: u32 = 1;

/// From `usi_open` and `usi_open_with_setup`: the session is open already. Nothing changed.
pub const USI_IS_OPEN: u32 = 2;

/// From `usi_open` and `usi_open_with_setup`: a table has 1 to 1,000,000 entries. Nothing changed.
pub const USI_OUT_OF_RANGE: u32 = 3;

/// Memory was refused. From `usi_work`: whole lines may have been answered, and the next call
/// continues. From any other call: nothing changed.
pub const USI_OUT_OF_MEMORY: u32 = 4;

/// From `usi_feed`: more than 4,096 bytes at once. Nothing changed.
pub const USI_TOO_LONG: u32 = 5;

/// From `usi_feed`: something is pending, 65,536 bytes are queued, or the session is over. Nothing
/// changed.
pub const USI_NOT_WANTED: u32 = 6;

/// From `usi_open_with_setup`, as the four that follow: there is no such evaluation. Nothing changed.
pub const USI_UNKNOWN_EVAL: u32 = 7;

/// The depth is not from 1 to 16.
pub const USI_DEPTH_OUT_OF_RANGE: u32 = 8;

/// The greatest depth is not from 1 to 16.
pub const USI_MAX_DEPTH_OUT_OF_RANGE: u32 = 9;

/// The number of best lines is not from 1 to 8.
pub const USI_LINES_OUT_OF_RANGE: u32 = 10;

/// The depth is above the greatest depth.
pub const USI_DEPTH_ABOVE_MAX: u32 = 11;
