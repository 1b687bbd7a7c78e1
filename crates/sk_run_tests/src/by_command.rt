//! A run by the command.

use crate::outcome::Outcome;
use sk_base::memory::{MemFile, MemFiles, MemSink};
use sk_tools::silkit_offline;
use std::alloc::{AllocError, Global};
use std::test::Fail;

/// The name of the file that holds the scenario.
const FILE: &str = "scenario.json";

/// What `simulate` ends with and writes where this scenario stands in its file.
pub fn by_command(alloc: Global, scenario: &str) -> Result<Outcome, Fail> {
    let mut out = MemSink::new(alloc, Vec::new(alloc));
    let status = call(alloc, scenario, &mut out)?;
    let text = Vec::from_slice(alloc, out.written())?;
    Ok(Outcome { status, text })
}

/// Calls the command, and answers its status.
fn call(alloc: Global, scenario: &str, out: &mut MemSink) -> Result<u8, AllocError> {
    let words = words(alloc)?;
    let mut files = files(alloc, scenario)?;
    let mut err = MemSink::new(alloc, Vec::new(alloc));
    Ok(silkit_offline(alloc, &words, &mut files, out, &mut err))
}

/// The words of the command.
fn words(alloc: Global) -> Result<Vec<String>, AllocError> {
    let mut words = Vec::new(alloc);
    words.push(String::from_str(alloc, "simulate")?)?;
    words.push(String::from_str(alloc, FILE)?)?;
    Ok(words)
}

/// The file, with this scenario in it.
fn files(alloc: Global, scenario: &str) -> Result<MemFiles, AllocError> {
    let mut files = Vec::new(alloc);
    files.push(MemFile {
        path: String::from_str(alloc, FILE)?,
        content: Vec::from_slice(alloc, scenario.as_bytes())?,
    })?;
    Ok(MemFiles::new(files, Vec::new(alloc)))
}
