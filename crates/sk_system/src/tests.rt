//! Lives of simulations, as the tools see them. What is expected was worked out by hand.
//!
//! A row says who, what is noted of it, and what follows. Noted is the name of a state for a
//! Status, `Leave`, `Abort`, `needs` and names for a Workflow, or `lost` for the end of the link.
//! What follows are the lines, `abort` where one is asked for, and the end; commas part them.

ghost use Rattle.sk_msg.specs.Rules.{is_told};

use crate::{Controller, Monitor};
use sk_base::{ExitStatus, Line, Name, SimTime};
use sk_msg::rules::{is_new_name, is_told};
use sk_msg::{Message, Names, State};
use std::alloc::Global;
use std::process::Abort;
use std::test::Fail;

type Row = (&'static str, &'static str, &'static str);

/// The message that was noted, or None for the end of a link.
fn message_of(rt: &impl Abort, alloc: Global, noted: &str) -> Result<Option<Message>, Fail> {
    Ok(match noted {
        "lost" => None,
        "Leave" => Some(Message::leave()),
        "Abort" => Some(Message::abort()),
        "needs A" => Some(workflow(rt, alloc, &["A"])?),
        "needs B" => Some(workflow(rt, alloc, &["B"])?),
        "needs A B C" => Some(workflow(rt, alloc, &["A", "B", "C"])?),
        name => Some(status(rt, name)),
    })
}

/// The Status of the state of this name.
fn status(rt: &impl Abort, name: &str) -> Message {
    for tens in 1..13u8 {
        if let Some(state) = State::from_number(tens * 10)
            && state.name() == name
        {
            assert!(rt; is_told(state));
            return Message::status(state, SimTime::new(0).expect(rt, "0 is a time"));
        }
    }
    panic!(rt; "{name}")
}

/// The Workflow of these names.
fn workflow(rt: &impl Abort, alloc: Global, texts: &[&str]) -> Result<Message, Fail> {
    let mut names = Vec::new(alloc);
    for text in texts {
        let name = Name::new(alloc, text)?;
        assert!(rt; is_new_name(&names, &name), "{text} twice");
        names.push(name)?;
    }
    assert!(rt; 1 <= names.len());
    assert!(rt; names.len() <= 32);
    Ok(Message::workflow(Names::new(names)))
}

/// What followed, as a row says it.
fn follow(
    alloc: Global,
    lines: &[Line],
    abort: bool,
    ended: Option<ExitStatus>,
) -> Result<String, Fail> {
    let mut text = String::new(alloc);
    for line in lines {
        add(&mut text, line.as_str())?;
    }
    if abort {
        add(&mut text, "abort")?;
    }
    match ended {
        Some(ExitStatus::Done) => add(&mut text, "done")?,
        Some(ExitStatus::Aborted) => add(&mut text, "aborted")?,
        _ => {}
    }
    Ok(text)
}

/// Adds one more behind a comma.
fn add(text: &mut String, more: &str) -> Result<(), Fail> {
    if !text.is_empty() {
        text.push_str(", ")?;
    }
    text.push_str(more)?;
    Ok(())
}

/// What a monitor is told, one row after another.
fn watch(rt: &impl Abort, alloc: Global, rows: &[Row]) -> Result<(), Fail> {
    let mut monitor = Monitor::new(alloc);
    for (name, noted, expected) in rows {
        let named = Name::new(alloc, name)?;
        let lines = match message_of(rt, alloc, noted)? {
            Some(message) => monitor.note(&named, &message)?,
            None => monitor.lost(&named)?,
        };
        let text = follow(alloc, &lines, false, None)?;
        assert_eq!(rt; text.as_str(), *expected, "{name} {noted}");
    }
    Ok(())
}

/// What a controller that requires A and B is told, one row after another.
fn control(rt: &impl Abort, alloc: Global, rows: &[Row]) -> Result<(), Fail> {
    let required = vec![in alloc; Name::new(alloc, "A")?, Name::new(alloc, "B")?]?;
    let mut controller = Controller::new(alloc, required);
    for (name, noted, expected) in rows {
        let named = Name::new(alloc, name)?;
        let reaction = match message_of(rt, alloc, noted)? {
            Some(message) => controller.note(&named, &message)?,
            None => controller.lost(&named)?,
        };
        let lines = reaction.lines.into_vec();
        let text = follow(alloc, &lines, reaction.abort, reaction.ended)?;
        assert_eq!(rt; text.as_str(), *expected, "{name} {noted}");
    }
    Ok(())
}

#[test]
fn one_participant_runs(rt: HostRuntime) -> Result<(), Fail> {
    watch(
        &rt,
        rt.alloc(),
        &[
            ("SystemController", "needs A", ""),
            ("A", "Running", "A Running, system Running"),
        ],
    )
}

#[test]
fn three_participants_one_of_them_lost(rt: HostRuntime) -> Result<(), Fail> {
    watch(
        &rt,
        rt.alloc(),
        &[
            ("A", "ServicesCreated", "A ServicesCreated"),
            ("SystemController", "needs A B C", ""),
            ("B", "ReadyToRun", "B ReadyToRun"),
            ("C", "Running", "C Running, system ServicesCreated"),
            ("A", "Running", "A Running, system ReadyToRun"),
            ("B", "Running", "B Running, system Running"),
            ("A", "Paused", "A Paused, system Paused"),
            ("SystemController", "needs B", ""),
            ("A", "Running", "A Running, system Running"),
            ("C", "lost", "lost C"),
            ("C", "lost", ""),
            ("A", "Error", "A Error, system Error"),
            ("A", "Abort", ""),
            ("A", "Aborting", "A Aborting, system Aborting"),
            ("A", "Shutdown", "A Shutdown, system Stopping"),
            ("A", "Leave", "left A"),
            ("A", "lost", ""),
        ],
    )
}

#[test]
fn an_error_aborts_once(rt: HostRuntime) -> Result<(), Fail> {
    control(
        &rt,
        rt.alloc(),
        &[
            ("B", "Running", ""),
            ("A", "Running", "system Running"),
            ("C", "Error", ""),
            ("B", "Error", "system Error, abort"),
            ("A", "Error", ""),
            ("A", "Aborting", "system Aborting"),
            ("B", "lost", ""),
            ("A", "Shutdown", "system Error"),
            ("A", "Leave", "aborted"),
            ("A", "Running", "aborted"),
            ("B", "lost", "aborted"),
        ],
    )
}

#[test]
fn a_lost_one_is_in_error(rt: HostRuntime) -> Result<(), Fail> {
    control(
        &rt,
        rt.alloc(),
        &[
            ("A", "Running", ""),
            ("B", "Running", "system Running"),
            ("B", "lost", "system Error, abort"),
            ("B", "lost", ""),
            ("B", "Running", ""),
            ("A", "lost", "aborted"),
        ],
    )
}

#[test]
fn one_that_was_aborting_ends_it_aborted(rt: HostRuntime) -> Result<(), Fail> {
    control(
        &rt,
        rt.alloc(),
        &[
            ("C", "Aborting", ""),
            ("A", "Leave", ""),
            ("B", "Leave", "aborted"),
        ],
    )
}

#[test]
fn a_calm_life_ends_done(rt: HostRuntime) -> Result<(), Fail> {
    control(
        &rt,
        rt.alloc(),
        &[
            ("A", "Running", ""),
            ("B", "Running", "system Running"),
            ("C", "needs A", ""),
            ("A", "Stopping", "system Stopping"),
            ("B", "Stopped", ""),
            ("A", "Stopped", "system Stopped"),
            ("A", "ShuttingDown", ""),
            ("B", "Shutdown", "system ShuttingDown"),
            ("B", "Leave", ""),
            ("A", "Shutdown", "system Shutdown"),
            ("A", "Abort", ""),
            ("A", "Leave", "done"),
            ("A", "Aborting", "done"),
        ],
    )
}
