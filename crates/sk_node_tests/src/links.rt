//! Each place of the order of a link, with a message that breaks it.

ghost use Rattle.std.specs.Prelude.{◌≡◌, false, IfOk};

use crate::play::{Seat, expect, make_seat, names, take, turn_on};
use sk_base::{Bytes, Name, SimTime, Text};
use sk_msg::rules::{is_call, is_mark, is_required_count, is_service_id, is_step_size, is_told};
use sk_msg::{Announced, Head, Message, RefuseReason, Role, Service, ServiceKind, Spec, State};
use std::alloc::Global;
use std::process::Abort;
use std::test::Fail;

/// What B said in order, and what it says then.
type Row = (&'static [&'static str], &'static str);

const ROWS: [Row; 20] = [
    // Hello comes first, with the peer's name and without the tool bit.
    (&[], "ServicesEnd"),
    (&[], "Hello C"),
    (&[], "Hello tool"),
    // Once.
    (&["Hello"], "Hello"),
    // Services are numbered from 0, and ServicesEnd stands behind them.
    (&["Hello"], "ServiceAdd 1"),
    (&["Hello", "ServiceAdd 0"], "ServiceAdd 0"),
    (&["Hello"], "Status Running"),
    (&["Hello"], "NextStep 0"),
    (&["Hello"], "Abort"),
    (&["Hello", "ServicesEnd"], "ServicesEnd"),
    (&["Hello", "ServicesEnd"], "ServiceAdd 0"),
    // Times of steps rise, and come of one that is synchronised.
    (&["Hello", "ServicesEnd", "NextStep 5"], "NextStep 5"),
    (&["Hello plain", "ServicesEnd"], "NextStep 0"),
    // A coordinated one doesn't run while it must still wait for A.
    (&["Hello coordinated", "ServicesEnd"], "NextStep 0"),
    // Leave stands behind the Status of Shutdown.
    (&["Hello", "ServicesEnd", "Status Running"], "Leave"),
    // These come of a tool, or never.
    (&["Hello", "ServicesEnd"], "Workflow"),
    (&["Hello", "ServicesEnd"], "Refuse"),
    // What is sent names an announced service of the kind that sends it.
    (&["Hello", "ServicesEnd"], "Publish"),
    (&["Hello", "ServiceAdd 0", "ServicesEnd"], "Call"),
    // A marked message has the stamp of the last announcement.
    (
        &["Hello", "ServiceAdd 0", "ServicesEnd", "NextStep 5"],
        "Publish in a step at 6",
    ),
];

/// The Hello of one of this name.
fn hello(
    alloc: Global,
    name: &str,
    coordinated: bool,
    synchronised: bool,
) -> Result<Message, Fail> {
    let role = Role::Participant {
        coordinated,
        synchronised,
    };
    Ok(Message::hello(Name::new(alloc, name)?, role, Text::new(alloc, "")?))
}

/// The Hello of a tool that has B's name.
fn tool(alloc: Global) -> Result<Message, Fail> {
    Ok(Message::hello(Name::new(alloc, "B")?, Role::Tool, Text::new(alloc, "")?))
}

/// A publisher of this number.
fn service(alloc: Global, id: u32) -> Result<Service, Fail>
    ensures id { IfOk result (λ service. service.id ≡ id) }
    ensures history { IfOk result (λ service. service.history ≡ false) }
{
    let topic = Name::new(alloc, "T")?;
    let media = Text::new(alloc, "")?;
    Ok(Service {
        id,
        kind: ServiceKind::Publisher,
        name: Name::new(alloc, "P")?,
        spec: Spec::new(topic, media, Vec::new(alloc))?,
        history: false,
    })
}

/// It is announced.
fn announce(rt: &impl Abort, alloc: Global, id: u32) -> Result<Message, Fail> {
    let told = service(alloc, id)?;
    assert!(rt; is_service_id(id));
    Ok(Message::service_add(Announced::new(alloc, told)?))
}

/// A time of so many ns.
fn at(rt: &impl Abort, ns: u64) -> SimTime {
    SimTime::new(ns).expect(rt, "a time")
}

/// B is in this state.
fn status(rt: &impl Abort, state: State) -> Message {
    assert!(rt; is_told(state));
    Message::status(state, at(rt, 0))
}

/// A message of service 0.
fn publish(rt: &impl Abort, alloc: Global, mark: u64, ns: u64) -> Result<Message, Fail> {
    assert!(rt; is_mark(mark));
    let head = Head {
        service: 0,
        stamp: at(rt, ns),
        mark,
    };
    Ok(Message::publish(head, Bytes::new(alloc, &[7])?))
}

/// A call of service 0.
fn call(rt: &impl Abort, alloc: Global, number: u64, mark: u64) -> Result<Message, Fail> {
    assert!(rt; is_call(number));
    assert!(rt; is_mark(mark));
    let head = Head {
        service: 0,
        stamp: at(rt, 0),
        mark,
    };
    Ok(Message::call(head, number, Bytes::new(alloc, &[7])?))
}

/// B's next step begins at so many ns.
fn next_step(rt: &impl Abort, ns: u64, size: u64) -> Message {
    assert!(rt; is_step_size(size));
    Message::next_step(at(rt, ns), size)
}

/// B needs A.
fn workflow(rt: &impl Abort, alloc: Global) -> Result<Message, Fail> {
    let required = names(rt, alloc, &["A"])?;
    let count = required.as_slice().len() as u8;
    assert!(rt; is_required_count(count));
    Ok(Message::workflow(required))
}

/// The message of these words.
fn message_of(rt: &impl Abort, alloc: Global, words: &str) -> Result<Message, Fail> {
    match words {
        "Hello" => hello(alloc, "B", false, true),
        "Hello C" => hello(alloc, "C", false, true),
        "Hello plain" => hello(alloc, "B", false, false),
        "Hello coordinated" => hello(alloc, "B", true, true),
        "Hello tool" => tool(alloc),
        "ServiceAdd 0" => announce(rt, alloc, 0),
        "ServiceAdd 1" => announce(rt, alloc, 1),
        "ServicesEnd" => Ok(Message::services_end()),
        "NextStep 0" => Ok(next_step(rt, 0, 1)),
        "NextStep 5" => Ok(next_step(rt, 5, 1)),
        "Status Running" => Ok(status(rt, State::Running)),
        "Leave" => Ok(Message::leave()),
        "Abort" => Ok(Message::abort()),
        "Workflow" => workflow(rt, alloc),
        "Refuse" => Ok(Message::refuse(RefuseReason::Late)),
        "Publish" => publish(rt, alloc, 0, 0),
        "Publish in a step at 6" => publish(rt, alloc, 1, 6),
        "Call" => call(rt, alloc, 1, 0),
        _ => panic!(rt; "{words}"),
    }
}

/// A takes a message of B, which is open.
fn hear(rt: &impl Abort, alloc: Global, a: &mut Seat, words: &str) -> Result<(), Fail> {
    let message = message_of(rt, alloc, words)?;
    assert!(rt; take(a, 1, message)?, "{words}");
    Ok(())
}

/// It is got and has no other effect, and B is gone; A alone is needed, so it goes on to its end.
fn breaks(rt: &impl Abort, alloc: Global, row: Row) -> Result<(), Fail> {
    let (before, words) = row;
    let mut a = make_seat(rt, alloc, &["A", "B"], &["A"], 0, 1_000_000, 2_000_000)?;
    break_order(rt, alloc, &mut a, before, words)
}

fn break_order(
    rt: &impl Abort,
    alloc: Global,
    a: &mut Seat,
    before: &[&str],
    words: &str,
) -> Result<(), Fail> {
    for said in before {
        hear(rt, alloc, a, said)?;
    }
    let from = a.node.journal().len();
    hear(rt, alloc, a, words)?;
    assert!(rt; !a.node.is_open(1), "{words}");
    turn_on(a)?;
    expect(
        rt,
        alloc,
        &a.node,
        from,
        &[
            "gone 1 8",
            "state Error",
            "system Error",
            "ask accepted",
            "state Aborting",
            "system Aborting",
            "state Shutdown",
            "system Shutdown",
        ],
    )
}

#[test]
fn what_breaks_the_order_of_a_link(rt: HostRuntime) -> Result<(), Fail> {
    for row in ROWS {
        breaks(&rt, rt.alloc(), row)?;
    }
    Ok(())
}
