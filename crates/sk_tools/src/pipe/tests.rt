use crate::silkit_pipe;
use crate::testing::{fails_of, words_of};
use crate::words::Refused;
use crate::words::pipe::read_pipe;
use sk_base::memory::{CallKind, FailAt, MemFiles, MemLink, MemTake};
use std::alloc::{AllocError, Global};
use std::process::Abort;
use std::test::Fail;

// A peer's Hello, its Leave, and bytes of a kind that there isn't.
const HELLO_B: &[u8] = b"\x06\x00\x00\x00\x01\x01\x01\x42\x02\x00";

const LEAVE: &[u8] = b"\x02\x00\x00\x00\x01\x02";

const KIND_17: &[u8] = b"\x02\x00\x00\x00\x01\x11";

/// What a run of no duration gives: Hello, one announcement and Leave.
const GIVEN: usize = 38;

/// How a run on these frames ends, where these calls of the link fail, and how much it gives.
fn run(
    alloc: Global,
    words: &[&str],
    frames: &[&[u8]],
    fails: Vec<FailAt>,
) -> Result<(u8, usize), AllocError> {
    let mut takes = Vec::new(alloc);
    for frame in frames {
        takes.push(MemTake::Bytes(frame.to_vec(alloc)?))?;
    }
    let mut link = MemLink::new(alloc, takes, Vec::new(alloc), fails);
    let mut files = MemFiles::new(Vec::new(alloc), Vec::new(alloc));
    let status = silkit_pipe(alloc, &words_of(alloc, words)?, &mut link, &mut files);
    Ok((status, link.given().len()))
}

#[test]
fn a_status_for_each_ending(rt: HostRuntime) -> Result<(), Fail> {
    let alloc = rt.alloc();
    let words = ["pipe", "A", "1", "0"];
    let table: [(&[&[u8]], u8); 3] = [
        (&[HELLO_B, LEAVE], 0),
        (&[HELLO_B, KIND_17], 10),
        (&[HELLO_B], 11),
    ];
    for (frames, status) in table {
        let none = Vec::new(alloc);
        assert_eq!(rt; run(alloc, &words, frames, none)?, (status, GIVEN));
    }
    let fails = fails_of(alloc, CallKind::Take, 1)?;
    assert_eq!(rt; run(alloc, &words, &[], fails)?, (4, GIVEN));
    Ok(())
}

#[test]
fn words_without_a_reading(rt: HostRuntime) -> Result<(), Fail> {
    let alloc = rt.alloc();
    let table: [&[&str]; 4] = [
        &["pipe", "A", "0", "5"],
        &["pipe", "A", "1"],
        &["check", "A", "1", "5"],
        &["pipe", "--help"],
    ];
    for words in table {
        let none = Vec::new(alloc);
        assert_eq!(rt; run(alloc, words, &[HELLO_B, LEAVE], none)?, (2, 0));
    }
    Ok(())
}

const HELP: &str = "Keeps step with one peer, over standard input and output

Usage: silkit pipe <NAME> <STEP> <DURATION>

Arguments:
  <NAME>      The own name, 1 to 64 bytes
  <STEP>      The step size in nanoseconds of virtual time, 1 to 2^60
  <DURATION>  The duration in nanoseconds of virtual time, 0 to 2^61

Options:
  -h, --help  Print help

Status: 0 the peer left, 2 usage or help, 4 link fault, 5 out of memory, 8 limit, 10 bad input, 11 no leave
";

/// What `pipe --help` would say, if standard error were not left to others.
#[test]
fn help(rt: HostRuntime) -> Result<(), Fail> {
    let alloc = rt.alloc();
    let words = words_of(alloc, &["pipe", "--help"])?;
    let Err(Refused::Words(text)) = read_pipe(alloc, &words) else {
        return Err(Fail::new("help is no reading"));
    };
    assert_eq!(rt; text.as_str(), HELP);
    Ok(())
}
