//! What own services receive of a peer, and what a publisher keeps.

ghost use Rattle.std.specs.Prelude.{◌≡◌, IfOk};

use crate::{AddRefused, Publisher, Receivers};
use sk_base::{Bytes, Name, Text};
use sk_msg::{Service, ServiceKind, Spec};
use std::alloc::Global;
use std::test::Fail;

/// A service on this topic.
fn service(alloc: Global, id: u32, kind: ServiceKind, topic: &str) -> Result<Service, Fail>
    ensures { IfOk result (λ made. made.id ≡ id) }
{
    let topic = Name::new(alloc, topic)?;
    let media = Text::new(alloc, "")?;
    Ok(Service {
        id,
        kind,
        name: Name::new(alloc, "S")?,
        spec: Spec::new(topic, media, Vec::new(alloc))?,
        history: false,
    })
}

#[test]
fn matching_services_receive_in_rising_number(rt: HostRuntime) -> Result<(), Fail> {
    let alloc = rt.alloc();
    let mut own = Vec::new(alloc);
    own.push(service(alloc, 0, ServiceKind::Publisher, "T")?)?;
    own.push(service(alloc, 1, ServiceKind::Subscriber, "T")?)?;
    own.push(service(alloc, 2, ServiceKind::Subscriber, "U")?)?;
    own.push(service(alloc, 3, ServiceKind::Subscriber, "T")?)?;
    let mut receivers = Receivers::new(alloc, own);
    assert!(rt; receivers.receivers(0, 0).is_empty());
    let publisher = service(alloc, 0, ServiceKind::Publisher, "T")?;
    assert_eq!(rt; receivers.add(0, publisher), Ok(()));
    assert_eq!(rt; receivers.receivers(0, 0), [1, 3].as_slice());
    // each peer has numbers of its own
    let subscriber = service(alloc, 0, ServiceKind::Subscriber, "T")?;
    assert_eq!(rt; receivers.add(2, subscriber), Ok(()));
    assert_eq!(rt; receivers.receivers(2, 0), [0].as_slice());
    assert_eq!(rt; receivers.receivers(0, 0), [1, 3].as_slice());
    for (peer, id) in [(0, 1), (1, 0), (2, 1), (4_000_000_000, 0)] {
        assert!(rt; receivers.receivers(peer, id).is_empty(), "{peer} {id}");
    }
    Ok(())
}

/// Own clients 0 and 1 of two functions; what comes of which peer, and then which of the own ones
/// has a server at the peers 0 and 1.
const SERVERS: [(u32, u32, ServiceKind, &str, [bool; 4]); 4] = [
    (1, 0, ServiceKind::Client, "F", [false, false, false, false]),
    (1, 1, ServiceKind::Server, "F", [false, false, true, false]),
    (1, 2, ServiceKind::Server, "H", [false, false, true, false]),
    (0, 0, ServiceKind::Server, "G", [false, true, true, false]),
];

#[test]
fn clients_know_which_peers_have_servers(rt: HostRuntime) -> Result<(), Fail> {
    let alloc = rt.alloc();
    let mut own = Vec::new(alloc);
    own.push(service(alloc, 0, ServiceKind::Client, "F")?)?;
    own.push(service(alloc, 1, ServiceKind::Client, "G")?)?;
    let mut receivers = Receivers::new(alloc, own);
    for (peer, id, kind, topic, expected) in SERVERS {
        assert_eq!(rt;
            receivers.add(peer, service(alloc, id, kind, topic)?),
            Ok(())
        );
        let known = [
            receivers.has_match(0, 0),
            receivers.has_match(0, 1),
            receivers.has_match(1, 0),
            receivers.has_match(1, 1),
        ];
        assert!(rt; known == expected, "{peer} {id}");
        assert!(rt; !receivers.has_match(peer, 2) && !receivers.has_match(2, 0));
    }
    Ok(())
}

#[test]
fn services_are_added_in_order(rt: HostRuntime) -> Result<(), Fail> {
    let alloc = rt.alloc();
    let mut receivers = Receivers::new(alloc, Vec::new(alloc));
    for (id, answer) in [
        (1, Err(AddRefused::OutOfOrder(0))),
        (0, Ok(())),
        (0, Err(AddRefused::OutOfOrder(1))),
        (2, Err(AddRefused::OutOfOrder(1))),
    ] {
        let server = service(alloc, id, ServiceKind::Server, "T")?;
        assert_eq!(rt; receivers.add(0, server), answer, "{id}");
    }
    for id in 1..64 {
        let server = service(alloc, id, ServiceKind::Server, "T")?;
        assert_eq!(rt; receivers.add(0, server), Ok(()), "{id}");
    }
    let server = service(alloc, 64, ServiceKind::Server, "T")?;
    assert_eq!(rt; receivers.add(0, server), Err(AddRefused::Full));
    Ok(())
}

#[test]
fn a_publication_is_kept_with_history(rt: HostRuntime) -> Result<(), Fail> {
    let mut with = Publisher::new(true);
    let mut without = Publisher::new(false);
    assert!(rt; with.last().is_none());
    for payload in [b"one", b"two"] {
        with.publish(Bytes::new(rt.alloc(), payload)?);
        without.publish(Bytes::new(rt.alloc(), payload)?);
        match with.last() {
            Some(last) => assert_eq!(rt; last.as_slice(), payload.as_slice()),
            None => panic!(rt; "no publication"),
        }
        assert!(rt; without.last().is_none());
    }
    Ok(())
}
