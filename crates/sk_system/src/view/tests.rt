use super::*;
use State::{Aborting, Error, Invalid, Paused, Running, ServicesCreated, Shutdown, Stopping};
use std::test::Fail;

/// What two required participants add up to, by tens of the states' numbers: a row for each state
/// of the one, a column for each state of the other. It was made by a program apart from this
/// crate.
const PAIRS: [[u8; 13]; 13] = [
    [0, 0, 0, 0, 0, 0, 0, 0, 0, 0, 0, 0, 0],
    [0, 1, 1, 1, 1, 1, 1, 7, 7, 9, 7, 7, 12],
    [0, 1, 2, 2, 2, 2, 2, 7, 7, 9, 7, 7, 12],
    [0, 1, 2, 3, 3, 3, 3, 7, 7, 9, 7, 7, 12],
    [0, 1, 2, 3, 4, 4, 4, 7, 7, 9, 7, 7, 12],
    [0, 1, 2, 3, 4, 5, 6, 7, 7, 9, 7, 7, 12],
    [0, 1, 2, 3, 4, 6, 6, 7, 7, 9, 7, 7, 12],
    [0, 7, 7, 7, 7, 7, 7, 7, 7, 9, 7, 7, 12],
    [0, 7, 7, 7, 7, 7, 7, 7, 8, 9, 8, 8, 12],
    [0, 9, 9, 9, 9, 9, 9, 9, 9, 9, 9, 9, 12],
    [0, 7, 7, 7, 7, 7, 7, 7, 8, 9, 10, 10, 12],
    [0, 7, 7, 7, 7, 7, 7, 7, 8, 9, 10, 11, 12],
    [0, 12, 12, 12, 12, 12, 12, 12, 12, 12, 12, 12, 12],
];

/// The system state of two required participants in the states of these numbers.
fn both(alloc: Global, one: u8, other: u8) -> Result<u8, WantOfMemory> {
    let mut view = SystemView::new(alloc, 2)?;
    view.set_required(vec![in alloc; Some(0), Some(1)]?);
    if let Some(state) = State::from_number(one) {
        view.note(0, state);
    }
    if let Some(state) = State::from_number(other) {
        view.note(1, state);
    }
    Ok(view.system().number())
}

#[test]
fn every_pair_of_states(rt: HostRuntime) -> Result<(), Fail> {
    let mut one = 0u8;
    for row in PAIRS {
        let mut other = 0u8;
        for whole in row {
            let system = both(rt.alloc(), one, other)?;
            assert_eq!(rt; system, whole.saturating_mul(10), "{one} and {other}");
            other = other.saturating_add(10);
        }
        one = one.saturating_add(10);
    }
    Ok(())
}

#[test]
fn who_counts(rt: HostRuntime) -> Result<(), Fail> {
    let mut view = SystemView::new(rt.alloc(), 3)?;
    view.note(0, Running);
    view.note(1, Aborting);
    assert_eq!(rt; view.system(), Invalid, "the workflow isn't known");
    assert!(rt;
        !view.all_reached(ServicesCreated),
        "the workflow isn't known"
    );
    view.set_required(vec![in rt.alloc(); Some(0), Some(2)]?);
    assert_eq!(rt; view.system(), Invalid, "nothing is known of one");
    view.note(2, Running);
    assert_eq!(rt; view.system(), Running, "who isn't required doesn't count");
    assert!(rt; view.all_reached(Running));
    assert!(rt; !view.all_reached(Stopping));
    view.note(2, Paused);
    assert_eq!(rt; view.system(), Paused, "the last note counts");
    assert!(rt; view.all_reached(Running), "Paused counts as Running");
    view.note(2, Error);
    assert!(rt;
        !view.all_reached(ServicesCreated),
        "Error has reached nothing"
    );
    view.set_required(vec![in rt.alloc(); Some(0), None]?);
    assert_eq!(rt;
        view.system(),
        Invalid,
        "a name that is no participant has no known state"
    );
    view.set_required(vec![in rt.alloc()]?);
    assert_eq!(rt; view.system(), Invalid, "nobody is required");
    assert!(rt; view.all_reached(Shutdown), "nobody is waited for");
    Ok(())
}

#[test]
fn the_last_state_of_each(rt: HostRuntime) -> Result<(), Fail> {
    let mut view = SystemView::new(rt.alloc(), 2)?;
    view.note(1, Running);
    view.note(1, Paused);
    assert_eq!(rt; view.last(1), Some(Paused));
    assert_eq!(rt; view.last(0), None, "it told none");
    assert_eq!(rt; view.last(2), None, "there are two");
    Ok(())
}
