//! The words of `check`.

ghost use Rattle.std.specs.Prelude.{◌≡◌, Some, IfOk, map, string_bytes, MatchResult};
ghost use Rattle.clap.specs.Words.{app_of};
ghost use Rattle.sk_tools.specs.Words.{check_app, file_to_check};
ghost use Rattle.sk_tools.specs.Usage.{IsRefusalOf};

use crate::words::file::read_file_word;
use crate::words::{Refused, needed};
use clap::Command;
use std::alloc::{AllocError, Global};

const ABOUT: &str = "Reads a participant's configuration and writes its canonical text";

const FILE_HELP: &str = "A JSON file; - is a file of that name";

const STATUSES: &str =
    "Status: 0 written, 1 no configuration, 2 usage or help, 3 read fault, 4 write fault, 5 out of memory";

/// Reads `check FILE`, and answers the file.
pub fn read_check<'a>(alloc: Global, words: &'a [String]) -> Result<&'a str, Refused>
    ensures { MatchResult result
        (λ file. file_to_check (map string_bytes words.entry.now) ≡ Some file.now)
        (IsRefusalOf (file_to_check (map string_bytes words.entry.now))) }
{
    let command = check_command(alloc)?;
    read_file_word(alloc, "check", command, words)
}

fn check_command<'a>(alloc: Global) -> Result<Command<'a>, AllocError>
    ensures { IfOk result (λ command. app_of command ≡ check_app) }
{
    let command = Command::new(alloc, "check")
        .about(ABOUT)
        .after_help(STATUSES)
        .bin_name("silkit check")?;
    let file = needed(alloc, "FILE").help(FILE_HELP);
    Ok(command.arg(file)?)
}
