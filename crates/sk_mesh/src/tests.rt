//! Messages go from each participant to each other one, in order.

ghost use Rattle.std.specs.Prelude.{◌≡◌, ◌≤◌, IfOk};
ghost use Rattle.sk_mesh.specs.Places.{place, AreOfOneMesh};

use crate::one_hand::{pop_beside, push_beside};
use crate::{Ends, mesh};
use sk_base::SimTime;
use sk_msg::{Content, Message};
use std::alloc::Global;
use std::process::Abort;
use std::test::Fail;
use std::thread;

/// The message that stands for a number.
#[tactic(auto, unfolding(sk_msg::specs::Rules::is_step_size))]
fn numbered(rt: &impl Abort, number: u64) -> Message {
    Message::next_step(SimTime::new(number).expect(rt, "a time"), 1)
}

/// The number that a message stands for.
fn number_of(rt: &impl Abort, message: &Message) -> u64 {
    match message.content() {
        Content::NextStep { at, .. } => at.ns(),
        other => panic!(rt; "{other:?}"),
    }
}

/// Pushes the message of a number. The answer is whether it was taken; else it came back.
fn push(rt: &impl Abort, ends: &mut Ends, peer: u32, number: u64) -> bool
    ensures { place ends.new ≡ place ends.old }
{
    assert!(rt; (peer as usize) < ends.size() && peer != ends.number());
    match ends.push(peer, numbered(rt, number)) {
        Ok(()) => true,
        Err(back) => {
            assert_eq!(rt; number_of(rt, &back), number);
            false
        }
    }
}

/// Pops a message, and answers its number.
fn pop(rt: &impl Abort, ends: &mut Ends, peer: u32) -> Option<u64>
    ensures { place ends.new ≡ place ends.old }
{
    assert!(rt; (peer as usize) < ends.size() && peer != ends.number());
    ends.pop(peer).map(|message| number_of(rt, &message))
}

/// The two ends of a mesh of two.
fn two(rt: &impl Abort, alloc: Global, capacity: usize) -> Result<(Ends, Ends), Fail>
    requires least { 1 ≤ capacity }
    requires most { capacity ≤ 1024 }
    ensures { IfOk result (λ ends. AreOfOneMesh (place ends.0) (place ends.1)) }
{
    let mut ends = mesh(alloc, 2, capacity)?;
    let last = ends.pop().expect(rt, "the second end");
    let first = ends.pop().expect(rt, "the first end");
    Ok((first, last))
}

#[test]
fn a_ring_with_room_for_one(rt: HostRuntime) -> Result<(), Fail> {
    let (mut a, mut b) = two(&rt, rt.alloc(), 1)?;
    assert_eq!(rt; pop(&rt, &mut b, 0), None);
    assert!(rt; push(&rt, &mut a, 1, 7));
    assert!(rt; !push(&rt, &mut a, 1, 8));
    // nothing is known to wait, so it looks at the ring
    assert_eq!(rt; pop(&rt, &mut b, 0), Some(7));
    assert_eq!(rt; pop(&rt, &mut b, 0), None);
    // no slot is known to be free, so it looks at the ring
    assert!(rt; push(&rt, &mut a, 1, 9));
    assert!(rt; !push(&rt, &mut a, 1, 10));
    assert_eq!(rt; pop(&rt, &mut b, 0), Some(9));
    assert_eq!(rt; pop(&rt, &mut a, 1), None);
    Ok(())
}

/// Each of so many sends each other one a message, which it gets from none but the sender.
fn each_to_each(rt: &impl Abort, alloc: Global, n: u32) -> Result<(), Fail>
    requires least { 1 ≤ n }
    requires most { n ≤ 32 }
{
    let mut ends = mesh(alloc, n, 1)?;
    assert_eq!(rt; ends.len(), n as usize);
    for sender in ends.iter_mut() {
        let from = sender.number();
        for peer in 0..n {
            if peer != from {
                assert!(rt; push(rt, sender, peer, (from as u64) * 100 + peer as u64));
            }
        }
    }
    for receiver in ends.iter_mut() {
        let to = receiver.number();
        for peer in 0..n {
            if peer != to {
                assert_eq!(rt;
                    pop(rt, receiver, peer),
                    Some((peer as u64) * 100 + to as u64)
                );
                assert_eq!(rt; pop(rt, receiver, peer), None);
            }
        }
    }
    Ok(())
}

#[test]
fn meshes_of_all_sizes(rt: HostRuntime) -> Result<(), Fail> {
    each_to_each(&rt, rt.alloc(), 1)?;
    each_to_each(&rt, rt.alloc(), 2)?;
    each_to_each(&rt, rt.alloc(), 3)?;
    each_to_each(&rt, rt.alloc(), 32)
}

#[test]
fn a_thousand_messages_in_order(rt: HostRuntime) -> Result<(), Fail> {
    let (mut a, mut b) = two(&rt, rt.alloc(), 3)?;
    let mut sent = 0u64;
    let mut came = 0u64;
    for _round in 0..400u32 {
        for _slot in 0..4u32 {
            if sent < 1000 && push(&rt, &mut a, 1, sent) {
                sent += 1;
            }
        }
        for _slot in 0..4u32 {
            if let Some(number) = pop(&rt, &mut b, 0) {
                assert!(rt; number == came && came < 1000);
                came += 1;
            }
        }
    }
    assert_eq!(rt; (sent, came), (1000, 1000));
    Ok(())
}

#[test]
fn both_ends_in_one_hand(rt: HostRuntime) -> Result<(), Fail> {
    let (mut a, mut b) = two(&rt, rt.alloc(), 2)?;
    assert!(rt; pop_beside(&mut b, &mut a).is_none());
    assert!(rt; push_beside(&mut a, &mut b, numbered(&rt, 1)).is_ok());
    assert!(rt; push_beside(&mut a, &mut b, numbered(&rt, 2)).is_ok());
    let back = push_beside(&mut a, &mut b, numbered(&rt, 3)).err();
    assert_eq!(rt; back.map(|message| number_of(&rt, &message)), Some(3));
    // `beside` makes neither end blind to what the other does afterwards
    assert_eq!(rt; pop(&rt, &mut b, 0), Some(1));
    assert!(rt; push(&rt, &mut a, 1, 4));
    a.beside(&mut b);
    assert!(rt; !push(&rt, &mut a, 1, 5));
    assert_eq!(rt; pop(&rt, &mut b, 0), Some(2));
    assert_eq!(rt; pop(&rt, &mut b, 0), Some(4));
    b.beside(&mut a);
    assert!(rt; push(&rt, &mut a, 1, 6));
    let last = pop_beside(&mut b, &mut a);
    assert_eq!(rt; last.map(|message| number_of(&rt, &message)), Some(6));
    Ok(())
}

/// Tries to push the messages of 0 to 3.
fn send_four(rt: &impl Abort, ends: Ends, peer: u32) -> Ends
    ensures { place result ≡ place ends }
{
    let mut ends = ends;
    for number in 0..4u64 {
        assert_eq!(rt; push(rt, &mut ends, peer, number), number < 3);
    }
    ends
}

#[test]
fn each_end_in_a_thread_of_its_own(rt: HostRuntime) -> Result<(), Fail> {
    let (a, b) = two(&rt, rt.alloc(), 3)?;
    let (mut a, mut b) = thread::join(
        &rt,
        || -> Ends
            ensures { place result ≡ place a }
        { send_four(&rt, a, 1) },
        || -> Ends
            ensures { place result ≡ place b }
        { send_four(&rt, b, 0) },
    );
    a.beside(&mut b);
    for number in 0..3u64 {
        assert_eq!(rt; pop(&rt, &mut a, 1), Some(number));
        assert_eq!(rt; pop(&rt, &mut b, 0), Some(number));
    }
    assert_eq!(rt; pop(&rt, &mut a, 1), None);
    Ok(())
}
