//! The lines that commands print.

ghost use Rattle.std.specs.Prelude.{◌≡◌};
ghost use Rattle.std.specs.String.{string_bytes};

use std::marker::Model;

/// One line, without its newline. Contracts see its bytes.
#[derive(Debug, Drop)]
pub struct Line {
    text: String,
}

impl Model for Line {
    ghost use Rattle.std.specs.Prelude.{List, ℕ};
    ghost use Rattle.std.specs.String.{string_bytes};

    ghost Value = { List ℕ };

    ghost view = { λ line. string_bytes line.text };
}

impl Line {
    /// The line of this text.
    pub fn new(text: String) -> Line
        ensures { result ≡ string_bytes text }
    {
        Line { text }
    }

    /// What it says.
    pub fn as_str(&self) -> &str
        ensures { result.now ≡ self.now }
    {
        self.text.as_str()
    }
}
