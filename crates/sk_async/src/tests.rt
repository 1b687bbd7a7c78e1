//! A completer turn by turn.

use crate::{Completer, Completion, StepToken};
use std::process::Abort;
use std::test::Fail;

/// Turns a completer that was handed a token: the numbers that it answers.
fn expect_turns(rt: &impl Abort, turns: u32, number: u64, answers: &[Option<u64>]) {
    let mut completer = Completer::new(turns);
    assert!(rt; completer.turn().is_none());
    completer.hold(StepToken::new(number));
    for answer in answers {
        let completed = completer.turn().map(|completion| completion.number());
        assert_eq!(rt; completed, *answer, "{turns} turns");
    }
}

#[test]
fn a_token_is_completed_at_its_turn(rt: HostRuntime) {
    expect_turns(&rt, 2, 8, &[None, Some(8), None]);
    expect_turns(&rt, 1, 8, &[Some(8), None]);
    expect_turns(&rt, 0, 0, &[Some(0), None]);
    expect_turns(&rt, 4, 9, &[None, None, None, Some(9)]);
}

#[test]
fn a_token_that_is_held_comes_back(rt: HostRuntime) -> Result<(), Fail> {
    let mut completer = Completer::new(2);
    completer.hold(StepToken::new(8));
    assert!(rt; completer.turn().is_none());
    assert!(rt; completer.is_holding());
    let token = completer.close().ok_or("no token")?;
    assert_eq!(rt; token.complete().number(), 8);
    Ok(())
}

/// Anybody may say that a step is done.
#[test]
fn a_completion_without_a_token(rt: HostRuntime) {
    assert_eq!(rt; Completion::new(7).number(), 7);
}
