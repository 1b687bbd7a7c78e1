//! Frames of the buses CAN and LIN. A frame by itself may have any values: a
//! [`Message`](crate::Message) keeps the rules that stand here at the fields.

ghost use Rattle.std.specs.Prelude.{◌≡◌, IfOk};

use sk_base::{Bytes, WantOfMemory};
use std::alloc::Global;

/// A CAN frame.
#[derive(Debug, Drop)]
pub struct CanFrame {
    /// Below 2^11, or below 2^29 where it is extended.
    pub id: u32,
    /// Whether the identifier has 29 bits in place of 11.
    pub extended: bool,
    /// Whether it is a frame of CAN FD.
    pub fd: bool,
    /// 0 to 8 bytes; of CAN FD also 12, 16, 20, 24, 32, 48 or 64.
    pub payload: Bytes,
}

/// How a LIN checksum is made.
#[derive(Clone, Copy, Debug, PartialEq, Eq)]
pub enum LinChecksum {
    /// It isn't known.
    Unknown,
    /// Over the bytes alone, as all of LIN 1.x does.
    Classic,
    /// Over the protected identifier and the bytes, as LIN 2.x may.
    Enhanced,
}

/// What became of a LIN frame.
#[derive(Clone, Copy, Debug, PartialEq, Eq)]
pub enum LinStatus {
    /// A whole response was received.
    RxOk,
    /// What was received is no whole response.
    RxError,
    /// Nobody answered the header.
    RxNoResponse,
    /// There was no header: it is a signal that wakes the bus.
    Wakeup,
}

/// What a LIN controller does at a header.
#[derive(Clone, Copy, Debug, PartialEq, Eq)]
pub enum LinMode {
    /// It takes no part in the frame.
    Unused,
    /// It receives what another controller answers.
    Rx,
    /// It answers each header.
    TxUnconditional,
}

/// What a LIN controller is on its bus.
#[derive(Clone, Copy, Debug, PartialEq, Eq)]
pub enum LinRole {
    /// It sends the headers.
    Master,
    /// It only answers headers.
    Slave,
}

/// A LIN frame as it was on the bus.
#[derive(Debug, Drop)]
pub struct LinFrame {
    /// 0 to 63.
    pub id: u8,
    /// Unknown with a status other than RxOk.
    pub checksum: LinChecksum,
    /// What became of it.
    pub status: LinStatus,
    /// 0 to 8 bytes, none with a status other than RxOk.
    pub payload: Bytes,
}

/// What a LIN controller answers to a header.
#[derive(Debug, Drop)]
pub struct LinResponse {
    /// 0 to 63.
    pub id: u8,
    /// What the controller does at a header of this identifier.
    pub mode: LinMode,
    /// Unknown with a mode other than TxUnconditional.
    pub checksum: LinChecksum,
    /// 0 to 8 bytes, none with a mode other than TxUnconditional.
    pub payload: Bytes,
}

impl CanFrame {
    /// The same frame again.
    pub fn copy(&self, alloc: Global) -> Result<CanFrame, WantOfMemory>
        ensures { IfOk result (λ copy. copy ≡ self.now) }
    {
        Ok(CanFrame {
            id: self.id,
            extended: self.extended,
            fd: self.fd,
            payload: self.payload.copy(alloc)?,
        })
    }
}

impl LinFrame {
    /// The same frame again.
    pub fn copy(&self, alloc: Global) -> Result<LinFrame, WantOfMemory>
        ensures { IfOk result (λ copy. copy ≡ self.now) }
    {
        Ok(LinFrame {
            id: self.id,
            checksum: self.checksum,
            status: self.status,
            payload: self.payload.copy(alloc)?,
        })
    }
}

impl LinResponse {
    /// The same response again.
    pub fn copy(&self, alloc: Global) -> Result<LinResponse, WantOfMemory>
        ensures { IfOk result (λ copy. copy ≡ self.now) }
    {
        Ok(LinResponse {
            id: self.id,
            mode: self.mode,
            checksum: self.checksum,
            payload: self.payload.copy(alloc)?,
        })
    }
}
