//! A row of a table: what it asks, and of which bytes.

use crate::{findings, values};
use sk_base::WantOfMemory;
use std::alloc::Global;

/// The answer to a row. A comment is its own answer.
pub fn answer(alloc: Global, row: &str) -> Result<String, WantOfMemory> {
    let (word, pieces) = row.split_once(' ').unwrap_or((row, ""));
    let Some((bytes, ends)) = bytes_of(alloc, pieces)? else {
        return Ok(String::from_str(alloc, row)?);
    };
    match word {
        "read" => findings::read(alloc, &bytes, &ends),
        "show" => findings::show(alloc, &bytes),
        "name" => values::name(alloc, &bytes),
        "text" => values::text(alloc, &bytes),
        "payload" => values::payload(alloc, &bytes),
        _ => Ok(String::from_str(alloc, row)?),
    }
}

/// The bytes of all pieces, and where each ends. None where one isn't hexadecimal.
fn bytes_of(alloc: Global, pieces: &str) -> Result<Option<(Vec<u8>, Vec<usize>)>, WantOfMemory> {
    let mut bytes = Vec::new(alloc);
    let mut ends = Vec::new(alloc);
    for piece in pieces.split(' ') {
        if !push_piece(alloc, &mut bytes, piece)? {
            return Ok(None);
        }
        ends.push(bytes.len())?;
    }
    Ok(Some((bytes, ends)))
}

/// Adds the bytes of `HEX`, or those of `HEX*N` so many times. Whether it was one of these.
fn push_piece(alloc: Global, all: &mut Vec<u8>, piece: &str) -> Result<bool, WantOfMemory> {
    let (digits, times) = piece.split_once('*').unwrap_or((piece, "1"));
    let Ok(times) = times.parse::<u16>() else {
        return Ok(false);
    };
    let Ok(bytes) = hex::decode(alloc, digits) else {
        return Ok(false);
    };
    for _ in 0..times {
        all.extend_from_slice(&bytes)?;
    }
    Ok(true)
}
