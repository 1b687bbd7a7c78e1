//! The program `silkit`: the outside, handed to the one call that does all the rest.
//!
//! The adapters here carry just the bytes of what they stand on, wherever that tells them; what is
//! trusted is what the host's own streams and files do. They note each fault of the real thing by
//! `log`, which the shipped program has switched off.
#![tactic(auto)]

mod faults;
mod files;
mod idle;
mod link;
mod sink;
mod tries;
mod words;

use files::OsFiles;
use idle::NoRest;
use link::StdLink;
use log::sink::Discard;
use sink::StdSink;
use sk_base::memory::MemNet;
use sk_tools::{Host, silkit};
use std::io::Write;
use std::process::ExitCode;
use words::{is_pipe, read_words};

fn main(rt: HostRuntime) -> ExitCode {
    let words = match read_words(&rt) {
        Ok(words) => words,
        Err(fault) => {
            if !is_pipe(&rt) {
                // A fault on standard error changes no status.
                let _ = rt.stderr().write_all(fault.line().as_bytes());
            }
            return ExitCode::from(fault.status().number());
        }
    };
    let mut host = Host {
        files: OsFiles::new(&rt, Discard),
        out: StdSink::new(rt.stdout(), Discard),
        err: StdSink::new(rt.stderr(), Discard),
        link: StdLink::new(rt.stdin(), rt.stdout(), Discard),
        net: MemNet::without_links(rt.alloc()),
        idle: NoRest,
    };
    ExitCode::from(silkit(rt.alloc(), &words, &mut host))
}

#[cfg(test)]
mod tests;
