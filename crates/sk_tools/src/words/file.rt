//! The words of a command whose one word is a file.

ghost use Rattle.std.specs.Prelude.{◌≡◌, true, Some, map, string_bytes, MatchResult};
ghost use Rattle.clap.specs.Words.{app_of, is_simple_and_free};
ghost use Rattle.sk_tools.specs.Words.{file_in};
ghost use Rattle.sk_tools.specs.Usage.{IsRefusalOf};

use crate::words::{Refused, is_command, parse, value};
use clap::Command;
use std::alloc::Global;

/// Reads the words of the command of this name, and answers the file.
pub fn read_file_word<'a>(
    alloc: Global,
    name: &str,
    command: Command<'a>,
    words: &'a [String],
) -> Result<&'a str, Refused>
    requires { is_simple_and_free (app_of command) ≡ true }
    ensures { MatchResult result
        (λ file. file_in name.now (app_of command.entry) (map string_bytes words.entry.now) ≡ Some file.now)
        (IsRefusalOf (file_in name.now (app_of command.entry) (map string_bytes words.entry.now))) }
{
    if !is_command(words, name) {
        return Err(Refused::Usage);
    }
    let matches = parse(alloc, command, words)?;
    match value(&matches, "FILE") {
        Some(file) => Ok(file),
        None => Err(Refused::Usage),
    }
}
