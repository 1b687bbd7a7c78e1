//! Words, read by one simple `clap` command for each command of the program, of which the first
//! word is the name. Ranges are looked at behind it.

ghost use Rattle.std.specs.Prelude.{◌≡◌, ◌≤◌, ◌⊎◌, true, false, map, option_map, IfOk, IfErr, IfSome, MatchOption, string_bytes};
ghost use Rattle.std.specs.Str.Parse.{digits_value};
ghost use Rattle.clap.specs.Words.{app_of, found_of, rows_of, rule_of, is_simple_and_free};
ghost use Rattle.sk_tools.specs.Words.{takes_words, rows_read, value_of, is_number};
ghost use Rattle.sk_tools.specs.Words as words_of;
ghost use Rattle.sk_tools.specs.declared.words.Refused.TheVariants.{WantOfMemory};

pub mod check;
mod file;
pub mod generate;
pub mod pipe;
pub mod simulate;

use clap::error::ErrorKind;
use clap::{Arg, ArgAction, ArgMatches, Command};
use sk_base::is_digits;
use std::alloc::{AllocError, AllocFailed, Global};

/// Why words have no reading.
#[derive(Debug, Drop)]
pub enum Refused {
    /// They don't fit the command, or ask for help: what is said of them.
    Words(String),
    /// They fit the command, and a name or a number is out of its form; or they are those of
    /// another command, or of none.
    Usage,
    /// They weren't read: there was no memory.
    WantOfMemory,
}

impl From<AllocError> for Refused {
    ghost from_gives = { λ _ refused. refused ≡ WantOfMemory };

    fn from(_error: AllocError) -> Refused {
        Refused::WantOfMemory
    }
}

impl<T: Drop> From<AllocFailed<T>> for Refused {
    ghost from_gives = { λ _ refused. refused ≡ WantOfMemory };

    fn from(_error: AllocFailed<T>) -> Refused {
        Refused::WantOfMemory
    }
}

/// Whether this is the first of the words.
pub fn is_command(words: &[String], name: &str) -> bool
    ensures { result ≡ words_of.is_command name.now (map string_bytes words.now) }
{
    match words.first() {
        Some(word) => word.as_str() == name,
        None => false,
    }
}

/// A word that has to be given.
pub fn needed<'a>(alloc: Global, id: &'a str) -> Arg<'a>
    ensures rule { rule_of result ≡ words_of.needed id.entry.now }
    ensures local { result.global ≡ false }
{
    Arg::new(alloc, id).required(true).action(ArgAction::Set)
}

/// A word that may be given: two hyphens and its name.
pub fn flag<'a>(alloc: Global, id: &'a str) -> Arg<'a>
    ensures rule { rule_of result ≡ words_of.flag id.entry.now }
    ensures local { result.global ≡ false }
{
    Arg::new(alloc, id).long(id).action(ArgAction::SetTrue)
}

/// What a simple command finds in the words.
pub fn parse<'a>(
    alloc: Global,
    command: Command<'a>,
    words: &'a [String],
) -> Result<ArgMatches<'a>, Refused>
    requires { is_simple_and_free (app_of command) ≡ true }
    ensures taken { IfOk result (λ _. takes_words (app_of command.entry) (map string_bytes words.entry.now) ≡ true) }
    ensures rows { IfOk result (λ found. rows_of (found_of found) ≡ rows_read (app_of command.entry) (map string_bytes words.entry.now)) }
    ensures refused { IfErr result (λ refused. (refused ≡ Refused.WantOfMemory) ⊎ (takes_words (app_of command.entry) (map string_bytes words.entry.now) ≡ false)) }
{
    match command.try_get_matches_from(words) {
        Ok(matches) => Ok(matches),
        Err(error) => {
            if let ErrorKind::OutOfMemory = error.kind() {
                return Err(Refused::WantOfMemory);
            }
            match error.to_string(alloc) {
                Ok(text) => Err(Refused::Words(text)),
                Err(_) => Err(Refused::WantOfMemory),
            }
        }
    }
}

/// The first value of an argument.
pub fn value<'a>(matches: &ArgMatches<'a>, id: &str) -> Option<&'a str>
    ensures { option_map (λ text. text.now) result ≡ value_of (rows_of (found_of matches.now)) id.now }
{
    matches.get_str(id)
}

/// Whether a word that may be given is given.
#[tactic(auto, unfolding(crate::specs::Words::is_set))]
pub fn is_set(matches: &ArgMatches<'_>, id: &str) -> bool
    ensures { result ≡ words_of.is_set (rows_of (found_of matches.now)) id.now }
{
    match value(matches, id) {
        Some(text) => text == "true",
        None => false,
    }
}

/// One or more decimal digits, of a number from low to high.
pub fn number_between(low: u64, high: u64, text: &str) -> Option<u64>
    ensures reads { MatchOption result (is_number low high text.now ≡ false) (λ n. (is_number low high text.now ≡ true) × (n ≡ digits_value 10 text.now)) }
    ensures range { IfSome result (λ n. (low ≤ n) × (n ≤ high)) }
{
    if !is_digits(text) {
        return None;
    }
    match text.parse::<u64>() {
        Ok(number) => {
            if low <= number && number <= high {
                Some(number)
            } else {
                None
            }
        }
        Err(_) => None,
    }
}
