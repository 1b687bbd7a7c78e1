//! Messages as they are made here, and their bytes as docs/FORMATS.md has them. What is read of
//! streams is the table of `sk_tables`.

use crate::made::service_of;
use sk_base::{Name, SimTime, Text};
use sk_msg::rules::is_service_id;
use sk_msg::{Announced, Message, Names, Role, ServiceKind};
use sk_wire::encode;
use std::alloc::Global;
use std::process::Abort;
use std::test::Fail;

/// Whether the message is written so.
fn is_written(alloc: Global, message: Message, bytes: &[u8]) -> Result<bool, Fail> {
    let mut to = Vec::new(alloc);
    encode(&message, &mut to)?;
    Ok(to.as_slice() == bytes)
}

/// The tool called tool, which listens on [::1]:7000.
#[test]
fn a_made_hello(rt: HostRuntime) -> Result<(), Fail> {
    let name = Name::new(rt.alloc(), "tool")?;
    let address = Text::new(rt.alloc(), "[::1]:7000")?;
    let message = Message::hello(name, Role::Tool, address);
    let bytes = b"\x13\x00\x00\x00\x01\x01\x04tool\x04\x0a[::1]:7000";
    assert!(rt; is_written(rt.alloc(), message, bytes)?);
    Ok(())
}

/// A step of 2^60 ns, the longest, announced at 2^62 ns, the latest time.
#[test]
#[tactic(auto, unfolding(sk_msg::specs::Rules::is_step_size))]
fn a_made_step(rt: HostRuntime) -> Result<(), Fail> {
    let at = SimTime::new(1 << 62).ok_or("no time")?;
    let message = Message::next_step(at, 1 << 60);
    let bytes =
        b"\x12\x00\x00\x00\x01\x03\x00\x00\x00\x00\x00\x00\x00\x40\x00\x00\x00\x00\x00\x00\x00\x10";
    assert!(rt; is_written(rt.alloc(), message, bytes)?);
    Ok(())
}

#[test]
fn a_made_service(rt: HostRuntime) -> Result<(), Fail> {
    let service = service_of(rt.alloc(), ServiceKind::Can, "a", "")?;
    if !is_service_id(service.id) || service.history {
        return Err(Fail::new("no service to tell of"));
    }
    let message = Message::service_add(Announced::new(rt.alloc(), service)?);
    let bytes = b"\x0d\x00\x00\x00\x01\x04\x00\x00\x00\x00\x01\x01A\x01a\x00\x00";
    assert!(rt; is_written(rt.alloc(), message, bytes)?);
    Ok(())
}

#[test]
#[tactic(auto, unfolding(sk_msg::specs::Rules::is_required_count, sk_msg::specs::Rules::is_new_name))]
fn a_made_workflow(rt: HostRuntime) -> Result<(), Fail> {
    let mut names = Vec::new(rt.alloc());
    names.push(Name::new(rt.alloc(), "A")?)?;
    let message = Message::workflow(Names::new(names));
    let bytes = b"\x05\x00\x00\x00\x01\x07\x01\x01A";
    assert!(rt; is_written(rt.alloc(), message, bytes)?);
    Ok(())
}
