//! Journals in words.

use sk_msg::{Content, Entry, Message};
use std::alloc::Global;
use std::test::Fail;

/// Its own states and steps, and what was handed, each word with a space behind it.
pub fn own(alloc: Global, journal: &[Entry]) -> Result<String, Fail> {
    let mut text = String::new(alloc);
    for entry in journal {
        let word = match entry {
            Entry::State(state) => format!(in alloc; "{state} ")?,
            Entry::Begin(number, at) => format!(in alloc; "begin {number} {} ", at.ns())?,
            Entry::End(number) => format!(in alloc; "end {number} ")?,
            Entry::Hand {
                peer,
                place,
                service,
            } => format!(in alloc; "hand {peer} {place} {service} ")?,
            _ => String::new(alloc),
        };
        text.push_str(word.as_str())?;
    }
    Ok(text)
}

/// What it got from this peer, each word with a space behind it.
pub fn got(alloc: Global, journal: &[Entry], from: usize) -> Result<String, Fail> {
    let mut text = String::new(alloc);
    for entry in journal {
        if let Entry::Got(peer, message) = entry
            && *peer as usize == from
        {
            text.push_str(said(alloc, message)?.as_str())?;
        }
    }
    Ok(text)
}

/// What a message says.
fn said(alloc: Global, message: &Message) -> Result<String, Fail> {
    Ok(match message.content() {
        Content::Hello { .. } => format!(in alloc; "Hello ")?,
        Content::ServiceAdd { .. } => format!(in alloc; "ServiceAdd ")?,
        Content::ServicesEnd => format!(in alloc; "ServicesEnd ")?,
        Content::Status { state, .. } => format!(in alloc; "{state} ")?,
        Content::NextStep { at, .. } => format!(in alloc; "next {} ", at.ns())?,
        Content::Publish { head, .. } => format!(in alloc;
            "publish {} {} ",
            head.stamp.ns(),
            head.mark
        )?,
        Content::Leave => format!(in alloc; "Leave ")?,
        _ => format!(in alloc; "other ")?,
    })
}
