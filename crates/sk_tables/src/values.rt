//! What is made of bytes as a name, a text or a payload.

use sk_base::{Bytes, Name, NameFault, Text, WantOfMemory};
use std::alloc::Global;
use std::str::from_utf8;

/// The name that is made of these bytes, or why none is; and the one that is read from them.
pub fn name(alloc: Global, bytes: &[u8]) -> Result<String, WantOfMemory> {
    let read = Name::from_utf8(alloc, bytes)?;
    let read = match &read {
        Some(name) => name.as_str(),
        None => "none",
    };
    let Ok(text) = from_utf8(bytes) else {
        return answer(alloc, "no UTF-8", read);
    };
    match Name::new(alloc, text) {
        Ok(name) => answer(alloc, name.copy(alloc)?.as_str(), read),
        Err(fault) => answer(alloc, reason(alloc, fault)?.as_str(), read),
    }
}

/// The same of a text.
pub fn text(alloc: Global, bytes: &[u8]) -> Result<String, WantOfMemory> {
    let read = Text::from_utf8(alloc, bytes)?;
    let read = match &read {
        Some(text) => text.as_str(),
        None => "none",
    };
    let Ok(text) = from_utf8(bytes) else {
        return answer(alloc, "no UTF-8", read);
    };
    match Text::new(alloc, text) {
        Ok(text) => answer(alloc, text.copy(alloc)?.as_str(), read),
        Err(fault) => answer(alloc, reason(alloc, fault)?.as_str(), read),
    }
}

fn answer(alloc: Global, made: &str, read: &str) -> Result<String, WantOfMemory> {
    Ok(format!(in alloc; "[{made}] [{read}]")?)
}

fn reason(alloc: Global, fault: NameFault) -> Result<String, WantOfMemory> {
    Ok(format!(in alloc; "{fault:?}")?)
}

/// Whether these bytes are kept as they are, or why they aren't.
pub fn payload(alloc: Global, bytes: &[u8]) -> Result<String, WantOfMemory> {
    Ok(match Bytes::new(alloc, bytes) {
        Ok(kept) => {
            let same = kept.copy(alloc)?.as_slice() == bytes;
            String::from_str(alloc, if same { "kept" } else { "changed" })?
        }
        Err(fault) => format!(in alloc; "{fault:?}")?,
    })
}
