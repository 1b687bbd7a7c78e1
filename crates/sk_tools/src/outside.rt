//! The outside as the commands use it: whole files, whole texts, and lines on standard error.

pub mod lines;
pub mod reading;
pub mod writing;

/// A link and a file are asked for so many bytes at a time.
pub const PIECE: usize = 16384;

/// Of words without a reading, where there is nothing more to say of them.
pub const USAGE_LINE: &str = "silkit: usage\n";

/// Where memory ran out.
pub const OUT_OF_MEMORY_LINE: &str = "silkit: out of memory\n";

/// Where the output couldn't be written.
pub const WRITE_FAULT_LINE: &str = "silkit: write fault\n";

/// Where no participant of a run can go on, and not all are finished.
pub const STALLED_LINE: &str = "silkit: stalled\n";
