//! The words of the command line.

use sk_base::ExitStatus;
use sk_tools::{OUT_OF_MEMORY_LINE, USAGE_LINE};
use std::env::{self, Env};
use std::io::ErrorKind;

/// Why the words can't be handed over.
#[derive(Clone, Copy, Debug, PartialEq, Eq)]
pub enum NoWords {
    /// One of them isn't UTF-8, so they have no reading.
    NotUtf8,
    /// Memory ran out.
    WantOfMemory,
}

impl NoWords {
    /// The status that the program ends with.
    pub fn status(self) -> ExitStatus {
        match self {
            NoWords::NotUtf8 => ExitStatus::Usage,
            NoWords::WantOfMemory => ExitStatus::OutOfMemory,
        }
    }

    /// What is said on standard error.
    pub fn line(self) -> &'static str {
        match self {
            NoWords::NotUtf8 => USAGE_LINE,
            NoWords::WantOfMemory => OUT_OF_MEMORY_LINE,
        }
    }
}

/// The words behind the program's name.
pub fn read_words(rt: &(impl Env + AllocGlobal)) -> Result<Vec<String>, NoWords> {
    let words = match env::args(rt) {
        Ok(words) => words,
        Err(error) => {
            return Err(if error.kind() == ErrorKind::OutOfMemory {
                NoWords::WantOfMemory
            } else {
                NoWords::NotUtf8
            });
        }
    };
    match words.skip(1).collect(rt.alloc()) {
        Ok(words) => Ok(words),
        Err(_) => Err(NoWords::WantOfMemory),
    }
}

/// Whether the first word is `pipe`, which never writes on standard error.
pub fn is_pipe(rt: &impl Env) -> bool {
    let mut word = [0u8; 4];
    matches!(rt.arg(1, &mut word), Ok(4)) && word == *b"pipe"
}
