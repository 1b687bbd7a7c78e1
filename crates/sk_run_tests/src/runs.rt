//! Each scenario both ways. What the command writes is, byte for byte, the text of the journals that the
//! seats have at their end when they are turned by hand; and its status says whether one was aborted.

use crate::by_command::by_command;
use crate::by_hand::by_hand;
use crate::scenarios::{COUNTER, ERROR, GATEWAY, STOP};
use std::process::Abort;
use std::test::Fail;

/// Both ways come to the same.
fn expect_same(rt: &(impl Abort + AllocGlobal), scenario: &str) -> Result<(), Fail> {
    let alloc = rt.alloc();
    let turned = by_hand(alloc, scenario)?;
    let called = by_command(alloc, scenario)?;
    assert_eq!(rt; called.status, turned.status);
    assert!(rt; called.text.as_slice() == turned.text.as_slice());
    Ok(())
}

#[test]
fn a_counter(rt: HostRuntime) -> Result<(), Fail> {
    expect_same(&rt, COUNTER)
}

#[test]
fn a_gateway(rt: HostRuntime) -> Result<(), Fail> {
    expect_same(&rt, GATEWAY)
}

#[test]
fn a_stop(rt: HostRuntime) -> Result<(), Fail> {
    expect_same(&rt, STOP)
}

#[test]
fn an_error(rt: HostRuntime) -> Result<(), Fail> {
    expect_same(&rt, ERROR)
}
