//! Where in a file something stands.

ghost use Rattle.std.specs.Prelude.{◌≡◌, ◌++◌, ℕ, List, [], IfOk, OnOk};
ghost use Rattle.std.specs.String.{string_bytes};
ghost use Rattle.sk_config.specs.Paths.{escape, escape_char, key_at, index_at};

use sk_base::WantOfMemory;
use std::alloc::{AllocError, Global};
use std::fmt;
use std::marker::Model;

/// A JSON Pointer (RFC 6901): `/` and the key or index of each level, from the root on. In a key
/// `~` is written `~0`, and `/` is written `~1`. Contracts see its text.
#[derive(Debug, Drop)]
pub struct Path {
    text: String,
}

impl Model for Path {
    ghost Value = { List ℕ };

    ghost view = { λ path. string_bytes path.text };
}

impl Path {
    /// The path of the whole file, which is empty. It takes no memory.
    pub fn root(alloc: Global) -> Path
        ensures { result ≡ [] }
    {
        Path {
            text: String::new(alloc),
        }
    }

    /// The path of a member of what stands here.
    #[tactic(auto, unfolding(crate::specs::Paths::key_at))]
    pub fn key(&self, alloc: Global, key: &str) -> Result<Path, WantOfMemory>
        ensures { IfOk result (λ path. path ≡ key_at self.now key.now) }
    {
        let mut text = String::from_str(alloc, self.text.as_str())?;
        text.push('/')?;
        push_escaped(&mut text, key)?;
        Ok(Path { text })
    }

    /// The path of an item of what stands here.
    #[tactic(auto, unfolding(crate::specs::Paths::index_at))]
    pub fn index(&self, alloc: Global, index: usize) -> Result<Path, WantOfMemory>
        ensures { IfOk result (λ path. path ≡ index_at self.now index) }
    {
        let mut text = String::from_str(alloc, self.text.as_str())?;
        text.push('/')?;
        let digits = index.to_string(alloc)?;
        text.push_str(digits.as_str())?;
        Ok(Path { text })
    }

    /// The same path again.
    pub fn copy(&self, alloc: Global) -> Result<Path, WantOfMemory>
        ensures { IfOk result (λ copy. copy ≡ self.now) }
    {
        Ok(Path {
            text: String::from_str(alloc, self.text.as_str())?,
        })
    }

    /// Its text.
    pub fn as_str(&self) -> &str
        ensures { result.now ≡ self.now }
    {
        self.text.as_str()
    }
}

impl fmt::Display for Path {
    fn fmt<W: fmt::Write>(&self, f: &mut fmt::Formatter<W>) -> fmt::Result {
        f.write_str(self.text.as_str())
    }
}

/// Appends a key as a path has it.
fn push_escaped(text: &mut String, key: &str) -> Result<(), AllocError>
    ensures { OnOk result (string_bytes text.new ≡ string_bytes text.old ++ escape key.now) }
{
    for c in key.chars() {
        push_char(text, c)?;
    }
    Ok(())
}

fn push_char(text: &mut String, c: char) -> Result<(), AllocError>
    ensures { OnOk result (string_bytes text.new ≡ string_bytes text.old ++ escape_char c) }
{
    match c {
        '~' => text.push_str("~0"),
        '/' => text.push_str("~1"),
        _ => text.push(c),
    }
}
