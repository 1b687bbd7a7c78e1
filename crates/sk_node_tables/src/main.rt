//! A program for tables: what a participant makes of its services, as its journal tells it.
//!
//! Each line of its input is a row. The answer to a row is the row again, and below it, indented,
//! what the journal gained by it. The table stands beside its source, rows in `stdin` and answers in
//! `stdout`, since long tables in a test take minutes to prove.
//!
//! The rows:
//! - `case N WORDS`: from here on another participant. Its number is 0, and those of its peers are 1 to N.
//! - `own SERVICE; SERVICE`, `peer P SERVICE`: it has these services, or its peer has. They are numbered from 0.
//! - `make`: it is made, autonomous and with steps of 1 ns. `run`: it is made, each peer is introduced, and
//!   it turns until it runs; of this nothing is shown.
//! - `do ACTION; ACTION`: its next step asks for these. It turns until then.
//! - `on S ACTION; ACTION`: the next message that is handed to the own service S asks for these.
//! - `got P MESSAGE`: it takes this of its peer. `gone P`: the link of its peer ended. `turn`: one turn.
//! - A line that begins with # is a comment.
//!
//! The words:
//! - SERVICE: `KIND TOPIC`, and behind it `history`, `!KEY=VALUE` (mandatory) and `?KEY=VALUE` (optional).
//! - ACTION: `NAME SERVICE FIELDS`, or `ask COMMAND`, `pause_for TURNS`. In place of one service several
//!   may stand, as `0,1,2`: it is asked for each.
//! - MESSAGE: `can`, `eth`, `lin`, `response`, `publish`, `call` or `reply`, then `SERVICE STAMP MARK FIELDS`;
//!   or `hello synchronised`, `hello plain`, `service ID SERVICE`, `end`, `next AT`.
//! - Bytes: pieces with + between them, each `HEX` or `HEX*N`, which is N times `HEX`; `-` for none.
//! - The fields of a CAN frame are its identifier, the sum of 1 (extended) and 2 (FD), and its bytes.
//!
//! Of the journal the entries of these kinds are shown: `got P PLACE`, `put P MESSAGE`, `hand P PLACE SERVICE`,
//! `did SERVICE CODE MESSAGE` (`-` for none), `ask COMMAND VERDICT`, `state STATE`, `gone P REASON`, `fault N`.
//! Of the puts these are shown: what services send, and Hello, the services and their end. Besides, `closed` says
//! that nothing may come of the peer any more, and `counted`, `quiet` and `finished` are answers of a turn.
#![tactic(auto)]

mod actions;
mod fault;
mod lines;
mod messages;
mod play;
mod player;
mod words;

use fault::Fault;
use play::Play;
use std::alloc::AllocError;
use std::io::{self, BufRead, BufReader};

fn main(rt: HostRuntime) -> io::Result<()> {
    let alloc = rt.alloc();
    let mut play = Play::new(alloc, 1);
    for line in BufReader::new(alloc, rt.reader())?.lines(alloc) {
        let row = line?;
        println!(rt; "{}", row.as_str())?;
        match play.row(row.as_str()) {
            Ok(lines) => print!(rt; "{}", lines.as_str())?,
            Err(Fault::BadRow) => println!(rt; "  no such row")?,
            Err(Fault::WantOfMemory) => return Err(AllocError.into()),
        }
    }
    Ok(())
}
