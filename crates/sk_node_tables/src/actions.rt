//! Actions, as rows write them.

use crate::fault::Fault;
use crate::words::{bytes, checksum, mode, number, number_8, number_32, word, words_of};
use sk_msg::{Action, CanFrame, Command, LinResponse, LinRole};
use std::alloc::Global;

/// Adds the actions of this text, of which one may be asked for several services.
pub fn push_actions(alloc: Global, actions: &mut Vec<Action>, text: &str) -> Result<(), Fault> {
    for part in text.split(';') {
        let words = words_of(alloc, part.trim())?;
        push_action(alloc, actions, &words)?;
    }
    Ok(())
}

/// Adds one, for each service that it names.
fn push_action(alloc: Global, actions: &mut Vec<Action>, words: &[&str]) -> Result<(), Fault> {
    match word(words, 0) {
        "ask" => actions.push(Action::Ask(command(word(words, 1))?))?,
        "pause_for" => actions.push(Action::PauseFor(number_32(words, 1)?))?,
        _ => {
            for service in word(words, 1).split(',') {
                let Ok(service) = service.parse::<u32>() else {
                    return Err(Fault::BadRow);
                };
                actions.push(action(alloc, words, service)?)?;
            }
        }
    }
    Ok(())
}

/// The command of this name.
fn command(word: &str) -> Result<Command, Fault> {
    match word {
        "Pause" => Ok(Command::Pause),
        "Continue" => Ok(Command::Continue),
        "Stop" => Ok(Command::Stop),
        "ReportError" => Ok(Command::ReportError),
        "Abort" => Ok(Command::Abort),
        _ => Err(Fault::BadRow),
    }
}

/// One action on this service.
fn action(alloc: Global, words: &[&str], service: u32) -> Result<Action, Fault> {
    match word(words, 0) {
        "can_baud" => Ok(Action::CanBaud(service, number_32(words, 2)?)),
        "can_start" => Ok(Action::CanStart(service)),
        "can_stop" => Ok(Action::CanStop(service)),
        "can_reset" => Ok(Action::CanReset(service)),
        "can_sleep" => Ok(Action::CanSleep(service)),
        "can_send" => Ok(Action::CanSend(service, can_frame(alloc, words, 2)?)),
        "eth_activate" => Ok(Action::EthActivate(service)),
        "eth_deactivate" => Ok(Action::EthDeactivate(service)),
        "eth_send" => Ok(Action::EthSend(service, bytes(alloc, words, 2)?)),
        "lin_init" => Ok(Action::LinInit(service, role(word(words, 2))?)),
        "lin_response" => Ok(Action::LinSetResponse(service, response(alloc, words, 2)?)),
        "lin_header" => Ok(Action::LinHeader(service, number_8(words, 2)?)),
        "lin_frame" => Ok(Action::LinSendFrame(service, response(alloc, words, 2)?)),
        "lin_sleep" => Ok(Action::LinSleep(service)),
        "lin_wakeup" => Ok(Action::LinWakeup(service)),
        "publish" => Ok(Action::Publish(service, bytes(alloc, words, 2)?)),
        "call" => Ok(Action::Call(service, bytes(alloc, words, 2)?)),
        "submit" => Ok(Action::Submit {
            service,
            peer: number_32(words, 2)?,
            client: number_32(words, 3)?,
            call: number(words, 4)?,
            payload: bytes(alloc, words, 5)?,
        }),
        _ => Err(Fault::BadRow),
    }
}

/// The CAN frame of the fields from this place on.
pub fn can_frame(alloc: Global, words: &[&str], at: usize) -> Result<CanFrame, Fault> {
    let id = number_32(words, at)?;
    let flags = number_8(words, at.saturating_add(1))?;
    let payload = bytes(alloc, words, at.saturating_add(2))?;
    Ok(CanFrame {
        id,
        extended: flags == 1 || flags == 3,
        fd: flags == 2 || flags == 3,
        payload,
    })
}

/// The response of the fields from this place on.
pub fn response(alloc: Global, words: &[&str], at: usize) -> Result<LinResponse, Fault> {
    let id = number_8(words, at)?;
    let mode = mode(word(words, at.saturating_add(1)))?;
    let checksum = checksum(word(words, at.saturating_add(2)))?;
    let payload = bytes(alloc, words, at.saturating_add(3))?;
    Ok(LinResponse {
        id,
        mode,
        checksum,
        payload,
    })
}

/// What a LIN controller is to be.
fn role(word: &str) -> Result<LinRole, Fault> {
    match word {
        "master" => Ok(LinRole::Master),
        "slave" => Ok(LinRole::Slave),
        _ => Err(Fault::BadRow),
    }
}
