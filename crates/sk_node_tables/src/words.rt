//! What the words of a row stand for.

use crate::fault::Fault;
use sk_base::{Bytes, Name, SimTime, Text};
use sk_msg::rules::is_mark;
use sk_msg::{Head, Label, LabelKind, LinChecksum, LinMode, LinStatus, Service, ServiceKind, Spec};
use std::alloc::Global;

/// The words of a text, parted by blanks.
pub fn words_of(alloc: Global, text: &str) -> Result<Vec<&str>, Fault> {
    let mut words = Vec::new(alloc);
    for word in text.split(' ') {
        words.push(word)?;
    }
    Ok(words)
}

/// The word at this place, empty behind the last one.
pub fn word<'a>(words: &[&'a str], at: usize) -> &'a str {
    match words.get(at) {
        Some(word) => word,
        None => "",
    }
}

/// The number at this place.
pub fn number(words: &[&str], at: usize) -> Result<u64, Fault> {
    match word(words, at).parse::<u64>() {
        Ok(number) => Ok(number),
        Err(_) => Err(Fault::BadRow),
    }
}

/// The same, of 32 bits.
pub fn number_32(words: &[&str], at: usize) -> Result<u32, Fault> {
    match word(words, at).parse::<u32>() {
        Ok(number) => Ok(number),
        Err(_) => Err(Fault::BadRow),
    }
}

/// The same, of 8 bits.
pub fn number_8(words: &[&str], at: usize) -> Result<u8, Fault> {
    match word(words, at).parse::<u8>() {
        Ok(number) => Ok(number),
        Err(_) => Err(Fault::BadRow),
    }
}

/// The time at this place.
pub fn time(words: &[&str], at: usize) -> Result<SimTime, Fault> {
    match SimTime::new(number(words, at)?) {
        Some(time) => Ok(time),
        None => Err(Fault::BadRow),
    }
}

/// The head of a message: the service, the stamp and the mark behind its kind.
pub fn head(words: &[&str]) -> Result<Head, Fault> {
    let service = number_32(words, 1)?;
    let stamp = time(words, 2)?;
    let mark = number(words, 3)?;
    if !is_mark(mark) {
        return Err(Fault::BadRow);
    }
    Ok(Head {
        service,
        stamp,
        mark,
    })
}

/// The bytes at this place.
pub fn bytes(alloc: Global, words: &[&str], at: usize) -> Result<Bytes, Fault> {
    let text = word(words, at);
    let mut all = Vec::new(alloc);
    if text != "-" {
        for piece in text.split('+') {
            push_piece(alloc, &mut all, piece)?;
        }
    }
    Ok(Bytes::new(alloc, &all)?)
}

/// Adds the bytes of `HEX`, or those of `HEX*N` so many times.
fn push_piece(alloc: Global, all: &mut Vec<u8>, piece: &str) -> Result<(), Fault> {
    let (digits, times) = piece.split_once('*').unwrap_or((piece, "1"));
    let Ok(times) = times.parse::<u16>() else {
        return Err(Fault::BadRow);
    };
    let Ok(bytes) = hex::decode(alloc, digits) else {
        return Err(Fault::BadRow);
    };
    for _ in 0..times {
        all.extend_from_slice(&bytes)?;
    }
    Ok(())
}

/// The kind of a service.
fn kind(word: &str) -> Result<ServiceKind, Fault> {
    match word {
        "can" => Ok(ServiceKind::Can),
        "ethernet" => Ok(ServiceKind::Ethernet),
        "lin" => Ok(ServiceKind::Lin),
        "publisher" => Ok(ServiceKind::Publisher),
        "subscriber" => Ok(ServiceKind::Subscriber),
        "server" => Ok(ServiceKind::Server),
        "client" => Ok(ServiceKind::Client),
        _ => Err(Fault::BadRow),
    }
}

/// The service of this number, by the words from this place on.
pub fn service(alloc: Global, id: u32, words: &[&str], from: usize) -> Result<Service, Fault> {
    let behind = from.saturating_add(2);
    let mut history = false;
    let mut labels = Vec::new(alloc);
    for (at, word) in words.iter().enumerate() {
        if at >= behind && *word == "history" {
            history = true;
        } else if at >= behind {
            labels.push(label(alloc, word)?)?;
        }
    }
    let topic = Name::new(alloc, word(words, from.saturating_add(1)))?;
    let media = Text::new(alloc, "")?;
    Ok(Service {
        id,
        kind: kind(word(words, from))?,
        name: Name::new(alloc, "S")?,
        spec: Spec::new(topic, media, labels)?,
        history,
    })
}

/// The label of `!KEY=VALUE` or `?KEY=VALUE`.
fn label(alloc: Global, word: &str) -> Result<Label, Fault> {
    let (kind, rest) = if let Some(rest) = word.strip_prefix('!') {
        (LabelKind::Mandatory, rest)
    } else if let Some(rest) = word.strip_prefix('?') {
        (LabelKind::Optional, rest)
    } else {
        return Err(Fault::BadRow);
    };
    let (key, value) = rest.split_once('=').unwrap_or((rest, ""));
    Ok(Label {
        key: Name::new(alloc, key)?,
        value: Text::new(alloc, value)?,
        kind,
    })
}

/// What a LIN controller does at a header.
pub fn mode(word: &str) -> Result<LinMode, Fault> {
    match word {
        "Unused" => Ok(LinMode::Unused),
        "Rx" => Ok(LinMode::Rx),
        "TxUnconditional" => Ok(LinMode::TxUnconditional),
        _ => Err(Fault::BadRow),
    }
}

/// How a LIN checksum is made.
pub fn checksum(word: &str) -> Result<LinChecksum, Fault> {
    match word {
        "Unknown" => Ok(LinChecksum::Unknown),
        "Classic" => Ok(LinChecksum::Classic),
        "Enhanced" => Ok(LinChecksum::Enhanced),
        _ => Err(Fault::BadRow),
    }
}

/// What became of a LIN frame.
pub fn status(word: &str) -> Result<LinStatus, Fault> {
    match word {
        "RxOk" => Ok(LinStatus::RxOk),
        "RxError" => Ok(LinStatus::RxError),
        "RxNoResponse" => Ok(LinStatus::RxNoResponse),
        "Wakeup" => Ok(LinStatus::Wakeup),
        _ => Err(Fault::BadRow),
    }
}
