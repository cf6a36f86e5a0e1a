//! The limits of an input, which each command has.

/// The most bytes of a line.
pub const LONGEST_LINE: usize = 33_554_432;

/// The most bytes of an input that are judged.
pub const MOST_JUDGED: u32 = 1_073_741_824;
