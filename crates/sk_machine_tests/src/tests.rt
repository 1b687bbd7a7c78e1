//! Scripts that are played.

use crate::play::{machine, ready, step};
use std::test::Fail;

/// A subscriber 0, a publisher 1, a server 2 and a CAN controller 3, and what each does.
const SCENARIO: &str = r#"{"duration":9,"participants":[{"name":"A","step":1,
"services":[{"kind":"subscriber","name":"S","topic":"T"},{"kind":"publisher","name":"P","topic":"T"},
{"kind":"server","name":"F","function":"f"},{"kind":"can","name":"C"}],
"vars":{"n":0,"x":18446744073709551612},
"ready":[{"set":"n","to":258},{"can_start":"C"}],
"script":[{"every":2,"from":1,"do":[{"publish":"P","data":"ee","append":"n"}]},
{"on":"S","do":[{"take":"n"},{"publish":"P","append":"n"}]},
{"at":3,"do":[{"add":"x","by":2},{"publish":"P","append":"x"},{"add":"x","by":2},{"publish":"P","append":"x"},{"stop":true}]},
{"on":"F","do":[{"reply":"F","data":"aa","append":"n"}]},
{"on":"S","do":[{"add":"n","by":1}]}]}]}"#;

/// What may move between threads, as it is.
fn movable<T: Send>(value: T) -> T {
    value
}

#[test]
fn messages_come_before_the_time_and_rules_in_their_order(rt: HostRuntime) -> Result<(), Fail> {
    let alloc = rt.alloc();
    let mut a = movable(machine(&rt, alloc, SCENARIO));
    assert_eq!(rt; ready(alloc, &mut a)?.as_str(), "start 3;");
    // nothing is due at 0 and at 2
    assert_eq!(rt; step(&rt, alloc, &mut a, 0, &[])?.as_str(), "");
    assert_eq!(rt;
        step(&rt, alloc, &mut a, 1, &[])?.as_str(),
        "publish 1 ee0201000000000000;"
    );
    assert_eq!(rt; step(&rt, alloc, &mut a, 2, &[])?.as_str(), "");
    // the number of eight bytes at most, and what the second rule adds to it
    let seen = [
        (0, "pub", [1, 2, 3, 4, 5, 6, 7, 8, 9].as_slice()),
        (2, "call", [].as_slice()),
    ];
    assert_eq!(rt;
        step(&rt, alloc, &mut a, 2, &seen)?.as_str(),
        "publish 1 0102030405060708;submit 2 3 2 7 aa0202030405060708;"
    );
    // 0 of no bytes; a sum stops at 2^64 - 1
    assert_eq!(rt;
        step(&rt, alloc, &mut a, 3, &[(0, "pub", &[])])?.as_str(),
        "publish 1 0000000000000000;publish 1 ee0100000000000000;publish 1 feffffffffffffff;publish 1 ffffffffffffffff;stop;"
    );
    Ok(())
}

#[test]
fn a_message_that_its_service_does_not_take_leads_to_nothing(rt: HostRuntime) -> Result<(), Fail> {
    let alloc = rt.alloc();
    let mut a = machine(&rt, alloc, SCENARIO);
    for service in [1, 2, 3, 4] {
        assert_eq!(rt;
            step(&rt, alloc, &mut a, 2, &[(service, "pub", &[5])])?.as_str(),
            ""
        );
    }
    Ok(())
}
