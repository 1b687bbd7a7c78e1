//! A program for tables: what `sk_base` and `sk_wire` make of bytes.
//!
//! Each line of its input is a row: a word, and what it is asked of, in hexadecimal. For each it
//! writes the answer. The table stands beside its source, rows in `stdin` and answers in `stdout`,
//! since long tables in a test take minutes to prove.
//!
//! - `read` and `show`: a stream, in the pieces in which it is fed; `HEX*N` is N times `HEX`.
//! - `name`, `text` and `payload`: the bytes of one.
//! - A line that begins with # is a comment.
#![tactic(auto)]

mod findings;
mod row;
mod values;

use std::alloc::AllocError;
use std::io::{self, BufRead, BufReader};

fn main(rt: HostRuntime) -> io::Result<()> {
    let alloc = rt.alloc();
    for line in BufReader::new(alloc, rt.reader())?.lines(alloc) {
        let answer = row::answer(alloc, line?.as_str()).map_err(|_| AllocError)?;
        println!(rt; "{answer}")?;
    }
    Ok(())
}
