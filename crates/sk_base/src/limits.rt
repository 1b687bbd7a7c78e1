//! The limits of the project, each written once: its unit, its reason, and what comes at it.

// # Virtual time

/// The latest virtual time, in nanoseconds: sums of two times stay far below the end of a `u64`.
/// A later one is no [`SimTime`](crate::SimTime).
pub const LATEST_NS: u64 = 1 << 62;

/// The longest step, in nanoseconds of virtual time: a run's end and one step more is a time. A
/// longer one is refused where it is read.
pub const LONGEST_STEP_NS: u64 = 1 << 60;

/// The longest duration of a run, in nanoseconds of virtual time: two of them are a time. A longer
/// one is refused where it is read.
pub const LONGEST_RUN_NS: u64 = 1 << 61;

// # Texts, payloads and frames

/// The longest name or text, in bytes: its length takes one byte of a frame. A longer one is
/// refused where it is made.
pub const LONGEST_TEXT: usize = 64;

/// The most bytes that a message carries: a frame with them and its head stays below
/// [`LONGEST_BODY`]. More are refused where they are made.
pub const LONGEST_PAYLOAD: usize = 4096;

/// The least value of a frame's length field in version 1, in bytes: the version and the kind. A
/// smaller one ends the link.
pub const SHORTEST_BODY: usize = 2;

/// The greatest value of a frame's length field in version 1, in bytes: a decoder waits for no
/// more. A greater one ends the link.
pub const LONGEST_BODY: usize = 8192;

// # Participants and services

/// The most participants of a simulation: their numbers stay below it. A scenario with more is
/// refused.
pub const MOST_PARTICIPANTS: u32 = 32;

/// The most tools that are added to one participant, those that have left or are gone counted. The
/// next one is refused as full.
pub const MOST_TOOLS: u32 = 4;

/// The most that one registry has joined at a time: all participants and tools. The next one is
/// refused as full.
pub const MOST_JOINED: usize = (MOST_PARTICIPANTS + MOST_TOOLS) as usize;

/// The most services of one participant: their numbers stay below it. A further one is refused.
pub const MOST_SERVICES: u32 = 64;

/// The most labels of a service's specification: their count takes one byte of a frame. More are
/// refused where it is made.
pub const MOST_LABELS: usize = 16;

// # Files

/// The longest file that is read, in bytes: it is kept in memory whole. A longer one is refused.
pub const LONGEST_FILE: usize = 1 << 24;

/// The most entries of one list of a configuration: a change is looked up in it one by one. A
/// longer list is a fault of the file.
pub const MOST_CONFIG_ENTRIES: usize = 64;

// # Runs

/// The most messages that wait in one ring. A push to a full ring is put off, and none is lost.
pub const MOST_RING_SLOTS: usize = 1024;

/// The most actions of one callback: what an app can ask for at once stays bounded. A further one
/// is handed back, and it is noted that it was over.
pub const MOST_ACTIONS: usize = 256;

/// A journal of so many entries is full. It is judged after each call, while the state has an edge to
/// Error: a fault is noted, and Error entered. At 64 bytes an entry they take 32 MB.
pub const MOST_ENTRIES: usize = 500_000;

/// So many bytes of payloads that were got and put fill a journal likewise, judged behind its entries:
/// 32 MiB.
pub const MOST_JOURNAL_PAYLOAD: u64 = 33_554_432;

/// The most bytes that are taken from one link: counts of them stay far below the end of a `u64`.
/// More end the link.
pub const MOST_LINK_BYTES: u64 = 1 << 32;

/// So many answers NotYet in a row end a command that has but its link to wait for.
pub const MOST_WAITS: u32 = 1_048_576;

/// Marks and calls are numbered from 1 and stay below this, so a further one can always be counted.
pub const HIGHEST_NUMBER: u64 = 1 << 63;
