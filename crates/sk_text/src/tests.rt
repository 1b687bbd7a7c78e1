//! The text of a world, worked out by hand.

use crate::world_text;
use sk_base::{Bytes, Name, SimTime};
use sk_msg::{Command, Entry, Head, Message, RefuseReason, Sent, State, Verdict};
use std::alloc::Global;
use std::test::Fail;

/// Bytes that a publisher sends.
#[tactic(auto, unfolding(sk_msg::specs::Rules::is_mark))]
fn published(alloc: Global) -> Result<Message, Fail> {
    let head = Head {
        service: 3,
        stamp: SimTime::new(0).ok_or("no time")?,
        mark: 1,
    };
    Ok(Message::publish(head, Bytes::new(alloc, &[255, 10])?))
}

/// The entries that have a message.
#[tactic(auto, unfolding(sk_msg::specs::Rules::is_told, sk_msg::specs::Rules::is_step_size))]
fn with_messages(alloc: Global) -> Result<Vec<Entry>, Fail> {
    let at = SimTime::new(5_000_000).ok_or("no time")?;
    let sent = Sent::new(alloc, published(alloc)?)?;
    Ok(vec![in alloc;
        Entry::Got(1, Message::leave()),
        Entry::Got(30, Message::status(State::Running, at)),
        Entry::Put(31, Message::next_step(at, 1_000_000)),
        Entry::Put(0, Message::refuse(RefuseReason::Full)),
        Entry::Did(3, 0, Some(sent)),
    ]?)
}

/// The other entries.
fn without_messages(alloc: Global) -> Result<Vec<Entry>, Fail> {
    let at = SimTime::new(1 << 62).ok_or("no time")?;
    Ok(vec![in alloc;
        Entry::Hand {
            peer: 1,
            place: 12,
            service: 63
        },
        Entry::State(State::ReadyToRun),
        Entry::System(State::CommunicationInitializing),
        Entry::Begin(10, at),
        Entry::Done(0),
        Entry::End(u64::MAX),
        Entry::Ask(Command::Abort, Verdict::Accepted),
        Entry::Ask(Command::Stop, Verdict::Refused(State::Paused)),
        Entry::Gone(2, 9),
        Entry::Stray(7),
        Entry::Did(0, 4, None),
        Entry::Fault(3),
    ]?)
}

#[test]
fn a_world(rt: HostRuntime) -> Result<(), Fail> {
    let alloc = rt.alloc();
    let names = vec![in alloc; Name::new(alloc, "A")?, Name::new(alloc, "B C")?]?;
    let journals = vec![in alloc; with_messages(alloc)?, without_messages(alloc)?]?;
    let text = world_text(alloc, &names, &journals)?;
    assert_eq!(rt;
        text.as_str(),
        "world 2
participant 0 A
participant 1 B C
journal 0 5
got 1 Leave 020000000102
got 30 Status 0b000000010632404b4c0000000000
put 31 NextStep 120000000103404b4c000000000040420f0000000000
put 0 Refuse 03000000011002
did 3 0 1a000000010d03000000000000000000000001000000000000000200ff0a
journal 1 12
hand 1 12 63
state ReadyToRun
system CommunicationInitializing
begin 10 4611686018427387904
done 0
end 18446744073709551615
ask Abort accepted
ask Stop refused Paused
gone 2 9
stray 7
did 0 4 -
fault 3
"
    );
    Ok(())
}
