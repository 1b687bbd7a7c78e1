//! A list into which messages come in another order than that in which they were sent.

use crate::VisibleList;
use sk_base::{Bytes, SimTime};
use sk_law::Visible;
use sk_msg::rules::is_mark;
use sk_msg::{Head, Message};
use std::alloc::Global;
use std::process::Abort;
use std::test::Fail;

/// A time of so many ns.
fn at(rt: &impl Abort, ns: u64) -> SimTime {
    SimTime::new(ns).expect(rt, "a time")
}

/// A publication of service 0, sent in the step of this number, or in none where it is 0.
fn published(rt: &impl Abort, alloc: Global, stamp: u64, step: u64) -> Result<Message, Fail> {
    assert!(rt; is_mark(step));
    let head = Head {
        service: 0,
        stamp: at(rt, stamp),
        mark: step,
    };
    Ok(Message::publish(head, Bytes::new(alloc, &[])?))
}

/// What came, with its stamp, step, sender and place.
fn made(rt: &impl Abort, alloc: Global) -> Result<VisibleList, Fail> {
    let mut list = VisibleList::new(alloc);
    for (stamp, step, peer, place) in [
        (5, 2, 1, 1),
        (5, 0, 1, 2),
        (7, 3, 1, 3),
        (5, 2, 0, 9),
        (3, 1, 2, 4),
        (5, 2, 1, 5),
    ] {
        let message = published(rt, alloc, stamp, step)?;
        list.note(alloc, peer, place, 0, &message)?;
    }
    list.add(Visible {
        stamp: at(rt, 5),
        peer: 1,
        place: 4,
        service: 0,
        message: published(rt, alloc, 5, 2)?,
    })?;
    Ok(list)
}

/// The places of these.
fn places(alloc: Global, items: &[Visible]) -> Result<Vec<u64>, Fail> {
    let mut places = Vec::new(alloc);
    for item in items {
        places.push(item.place)?;
    }
    Ok(places)
}

#[test]
fn what_came_is_seen_in_the_order_of_sending(rt: HostRuntime) -> Result<(), Fail> {
    let list = made(&rt, rt.alloc())?;
    let all = places(rt.alloc(), list.as_slice())?;
    // at 3, and at 5 by the sender's number and then by place; what was sent in no step isn't there
    assert_eq!(rt; all.as_slice(), [4, 9, 1, 4, 5, 3].as_slice());
    let seen = places(rt.alloc(), list.between(at(&rt, 4), at(&rt, 7)))?;
    assert_eq!(rt; seen.as_slice(), [9, 1, 4, 5].as_slice());
    let none = places(rt.alloc(), list.between(at(&rt, 8), at(&rt, 2)))?;
    assert!(rt; none.is_empty());
    Ok(())
}
