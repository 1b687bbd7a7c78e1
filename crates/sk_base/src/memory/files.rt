//! Files in memory.

ghost use Rattle.std.specs.Prelude.{◌≡◌, ◌≤◌, ℕ, List, length, take, drop, min, true, false, Some, IsSome, position};
ghost use Rattle.std.specs.Option.{ForSome};
ghost use Rattle.sk_base.specs.Memory.{has_path, content_of, path_at, content_at};

use crate::fault::Failed;
use crate::files::{Files, Opened};
use crate::memory::fails::{CallKind, Calls, FailAt};

/// A file in memory.
#[derive(Debug, Drop)]
pub struct MemFile {
    pub path: String,
    pub content: Vec<u8>,
}

/// Files in memory. Of two with one path the first counts.
#[derive(Drop)]
pub struct MemFiles {
    files: Vec<MemFile>,
    calls: Calls,
    /// Whether the last open answered Ready.
    is_ready: bool,
    /// The index of the file that was opened last.
    opened: Option<usize>,
    /// How many bytes of it were read.
    place: usize,
    ghost ready: { is_ready ≡ true → IsSome opened },
    ghost first: { ForSome opened (λ index. content_of files.items (path_at files.items index) ≡ Some (content_at files.items index)) },
    ghost within: { ForSome opened (λ index. place ≤ length (content_at files.items index)) },
}

impl MemFiles {
    /// These files, with the opens and reads that are to fail.
    pub fn new(files: Vec<MemFile>, fails: Vec<FailAt>) -> MemFiles
        ensures tells { ⟦<MemFiles as Files>⟧.tells result ≡ true }
        ensures content { (path : List ℕ) → ⟦<MemFiles as Files>⟧.content result path ≡ content_of files.items path }
        ensures ready { ⟦<MemFiles as Files>⟧.is_ready result ≡ false }
        ensures faults { ⟦<MemFiles as Files>⟧.faults result ≡ 0 }
    {
        MemFiles {
            files,
            calls: Calls::new(fails),
            is_ready: false,
            opened: None,
            place: 0,
        }
    }
}

/// The index of the first file of this path.
fn index_of(files: &[MemFile], path: &str) -> Option<usize>
    ensures { result ≡ position (has_path path.now) files.now }
{
    files.iter().position(|file| file.path.as_str() == path)
}

/// The bytes of the file of this index from this place on.
fn left_of(files: &[MemFile], index: usize, place: usize) -> &[u8]
    requires { place ≤ length (content_at files.now index) }
    ensures { result.now ≡ drop place (content_at files.now index) }
{
    match files.get(index) {
        Some(file) => &file.content.as_slice()[place..],
        None => &[],
    }
}

/// Copies the front of the bytes into the buffer, as many as fit, and says how many.
fn copy_front(buf: &mut [u8], bytes: &[u8]) -> usize
    ensures count { result ≡ min (length bytes.now) (length buf.old) }
    ensures front { take result buf.new ≡ take result bytes.now }
{
    let count = bytes.len().min(buf.len());
    buf[..count].copy_from_slice(&bytes[..count]);
    count
}

impl Files for MemFiles {
    ghost use Rattle.std.specs.Prelude.{true};
    ghost use Rattle.sk_base.specs.Memory.{content_of, opened_path};

    ghost faults = { λ files. files.calls.faults };

    ghost is_ready = { λ files. files.is_ready };

    ghost tells = { λ _. true };

    ghost content = { λ files path. content_of files.files.items path };

    ghost current = { λ files. opened_path files.files.items files.opened };

    ghost place = { λ files. files.place };

    fn open(&mut self, path: &str) -> Result<Opened, Failed> {
        self.is_ready = false;
        self.calls.next(CallKind::Open)?;
        self.place = 0;
        self.opened = index_of(&self.files, path);
        match self.opened {
            Some(_) => {
                self.is_ready = true;
                Ok(Opened::Ready)
            }
            None => Ok(Opened::Absent),
        }
    }

    fn read(&mut self, buf: &mut [u8]) -> Result<usize, Failed> {
        self.calls.next(CallKind::Read)?;
        match self.opened {
            Some(index) => {
                let count = copy_front(buf, left_of(&self.files, index, self.place));
                self.place += count;
                Ok(count)
            }
            None => Ok(0),
        }
    }
}
