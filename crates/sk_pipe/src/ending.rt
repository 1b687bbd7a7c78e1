//! How a run ends.

/// The end of a run of the step protocol.
#[derive(Clone, Copy, Debug, PartialEq, Eq)]
pub enum PipeEnding {
    /// The peer left in order.
    Left,
    /// Bytes that are no message, or a message out of order, before the peer's Leave.
    BadInput,
    /// The input ended before the peer's Leave.
    NoLeave,
    /// 2^32 bytes came and the peer hadn't left, or 1,048,576 answers NotYet came in a row.
    Limit,
    /// The link failed.
    LinkFault,
    /// Memory ran out.
    Memory,
}
