//! A program for tables: what scenario files read as, and what is written of them.
//!
//! Each line of its input is a row, and for each it writes an answer. Rows come from
//! `scripts/scenarios.py`, since long tables in a test take minutes to prove.
//!
//! - `read HEX`: the bytes of a file, in hexadecimal. The answer is `fault PATH: RULE`; or `scenario
//!   COUNT`, so many lines with the warnings, and `closed` or `open`.
//! - `text HEX`: the same bytes. The answer is the scenario's one text; or `fault PATH: RULE`.
//! - `generate NUMBER PARTICIPANTS STEPS`: the answer is the text of the scenario that is made so.
//! - Another row is answered by `no such row`.
#![tactic(auto)]

mod fault;
mod row;

use fault::Fault;
use std::alloc::AllocError;
use std::io::{self, BufRead, BufReader};

fn main(rt: HostRuntime) -> io::Result<()> {
    let alloc = rt.alloc();
    for line in BufReader::new(alloc, rt.reader())?.lines(alloc) {
        let row = line?;
        match row::answer(alloc, row.as_str()) {
            Ok(answer) => print!(rt; "{}", answer.as_str())?,
            Err(Fault::BadRow) => println!(rt; "no such row")?,
            Err(Fault::WantOfMemory) => return Err(AllocError.into()),
        }
    }
    Ok(())
}
