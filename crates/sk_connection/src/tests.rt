use crate::Connection;
use sk_base::{Gave, Took};
use sk_msg::Message;
use std::process::Abort;
use std::test::Fail;

const LEAVE: &[u8] = b"\x02\x00\x00\x00\x01\x02";

const ABORT: &[u8] = b"\x02\x00\x00\x00\x01\x08";

/// Two messages are queued, and given in three parts.
#[test]
fn what_is_queued_is_given(rt: HostRuntime) -> Result<(), Fail> {
    let mut connection = Connection::new(rt.alloc());
    assert!(rt; !connection.has_output());
    connection.queue(&Message::leave())?;
    assert_eq!(rt; connection.next_piece(), LEAVE);
    connection.gave(Gave::Bytes(4));
    connection.queue(&Message::abort())?;
    connection.gave(Gave::NotYet);
    assert!(rt; connection.is_held());
    assert_eq!(rt; connection.next_piece().len(), 8);
    connection.gave(Gave::Bytes(2));
    assert_eq!(rt; connection.next_piece(), ABORT);
    connection.gave(Gave::Bytes(6));
    assert!(rt; !connection.has_output());
    Ok(())
}

/// A message comes in two takes, and the end behind it.
#[test]
fn what_is_taken_is_read(rt: HostRuntime) -> Result<(), Fail> {
    let mut connection = Connection::new(rt.alloc());
    let fed = connection.took(Took::Bytes(4), LEAVE)?;
    assert_eq!(rt; fed.messages.len(), 0);
    let fed = connection.took(Took::Bytes(2), b"\x01\x02")?;
    assert_eq!(rt; fed.messages.len(), 1);
    assert!(rt; fed.fault.is_none());
    let fed = connection.took(Took::End, b"")?;
    assert_eq!(rt; fed.messages.len(), 0);
    assert!(rt; connection.is_ended());
    assert_eq!(rt; connection.taken(), 6);
    assert!(rt; !connection.is_full());
    assert!(rt; !connection.is_tired());
    Ok(())
}
