use crate::files::OsFiles;
use crate::link::StdLink;
use crate::sink::StdSink;
use crate::words::{NoWords, is_pipe, read_words};
use log::sink::Memory;
use sk_base::{ExitStatus, Failed, Files, Gave, Link, Opened, Sink, Took};
use std::env::{Env, FillError};
use std::io::{ErrorKind, Read, Write};
use std::process::Abort;
use std::test::Fail;

/// A file that isn't there, a device that gives zeros, and a folder, which opens and can't be read.
#[test]
fn files_of_the_host(rt: HostRuntime) -> Result<(), Fail> {
    let lines = Memory::new(rt.alloc());
    let mut files = OsFiles::new(&rt, &lines);
    assert!(rt; files.open("/nowhere/a.json") == Ok(Opened::Absent));
    let mut buf = [1u8; 4];
    let Ok(Opened::Ready) = files.open("/dev/zero") else {
        return Err(Fail::new("no /dev/zero"));
    };
    assert!(rt; files.read(&mut buf) == Ok(4));
    assert_eq!(rt; &buf, &[0u8; 4]);
    let Ok(Opened::Ready) = files.open("/") else {
        return Err(Fail::new("no root"));
    };
    assert!(rt; files.read(&mut buf) == Err(Failed));
    drop(files);
    assert_eq!(rt; lines.into_lines().len(), 1);
    Ok(())
}

/// Only a file that isn't there is absent. A path through a file can't be opened, which is a fault,
/// and leads to no file that can be read.
#[test]
fn a_path_through_a_file(rt: HostRuntime) -> Result<(), Fail> {
    let lines = Memory::new(rt.alloc());
    let mut files = OsFiles::new(&rt, &lines);
    assert!(rt; files.open("/dev/null/a.json") == Err(Failed));
    assert!(rt; files.open("/nowhere.json") == Ok(Opened::Absent));
    drop(files);
    assert_eq!(rt; lines.into_lines().len(), 1);
    Ok(())
}

#[test]
fn a_sink_on_a_buffer(rt: HostRuntime) -> Result<(), Fail> {
    let lines = Memory::new(rt.alloc());
    let mut bytes: Vec<u8> = Vec::new(rt.alloc());
    let mut sink = StdSink::new(&mut bytes, &lines);
    assert!(rt; sink.write(b"abc") == Ok(3));
    assert!(rt; sink.write(b"") == Ok(0));
    assert!(rt; sink.write(b"de") == Ok(2));
    assert!(rt; sink.flush() == Ok(()));
    drop(sink);
    assert_eq!(rt; bytes.as_slice(), b"abcde".as_slice());
    assert!(rt; lines.into_lines().is_empty());
    Ok(())
}

/// Takes no byte, and is interrupted at each flush and read.
#[derive(Drop)]
struct Stuck;

impl Write for Stuck {
    fn write(&mut self, _buf: &[u8]) -> std::io::Result<usize> {
        Ok(0)
    }

    fn flush(&mut self) -> std::io::Result<()> {
        Err(ErrorKind::Interrupted.into())
    }
}

impl Read for Stuck {
    fn read(&mut self, _buf: &mut [u8]) -> std::io::Result<usize> {
        Err(ErrorKind::Interrupted.into())
    }
}

/// Each fault is noted, also where the host reports no error.
#[test]
fn a_stuck_sink(rt: HostRuntime) -> Result<(), Fail> {
    let lines = Memory::new(rt.alloc());
    let mut sink = StdSink::new(Stuck, &lines);
    assert!(rt; sink.write(b"abc") == Err(Failed));
    assert!(rt; sink.flush() == Err(Failed));
    drop(sink);
    assert_eq!(rt; lines.into_lines().len(), 2);
    Ok(())
}

#[test]
fn a_stuck_link(rt: HostRuntime) -> Result<(), Fail> {
    let lines = Memory::new(rt.alloc());
    let mut link = StdLink::new(Stuck, Stuck, &lines);
    let mut buf = [0u8; 2];
    assert!(rt; link.take(&mut buf) == Err(Failed));
    assert!(rt; link.give(b"abc") == Err(Failed));
    drop(link);
    assert_eq!(rt; lines.into_lines().len(), 2);
    Ok(())
}

/// Writes two bytes at a time to a buffer.
#[derive(Drop)]
struct Twos<'a> {
    bytes: &'a mut Vec<u8>,
}

impl Write for Twos<'_> {
    fn write(&mut self, buf: &[u8]) -> std::io::Result<usize> {
        let count = buf.len().min(2);
        self.bytes.write_all(&buf[..count])?;
        Ok(count)
    }

    fn flush(&mut self) -> std::io::Result<()> {
        Ok(())
    }
}

/// A link answers what the streams took and gave, and no more.
#[test]
fn a_link_in_parts(rt: HostRuntime) -> Result<(), Fail> {
    let lines = Memory::new(rt.alloc());
    let mut bytes: Vec<u8> = Vec::new(rt.alloc());
    let output = Twos { bytes: &mut bytes };
    let mut link = StdLink::new(b"abc".as_slice(), output, &lines);
    let mut buf = [0u8; 2];
    for (answer, front) in [
        (Ok(Took::Bytes(2)), b"ab".as_slice()),
        (Ok(Took::Bytes(1)), b"c"),
        (Ok(Took::End), b""),
        (Ok(Took::End), b""),
    ] {
        assert!(rt; link.take(&mut buf) == answer);
        assert!(rt; buf.starts_with(front));
    }
    assert!(rt; link.give(b"xyz") == Ok(Gave::Bytes(2)));
    assert!(rt; link.give(b"z") == Ok(Gave::Bytes(1)));
    drop(link);
    assert_eq!(rt; bytes.as_slice(), b"xyz".as_slice());
    Ok(())
}

/// A command line, with the program's name.
#[derive(Drop)]
struct CommandLine<'a> {
    words: &'a [&'a [u8]],
}

impl Env for CommandLine<'_> {
    fn arg(&self, i: usize, buf: &mut [u8]) -> Result<usize, FillError> {
        let Some(word) = self.words.get(i) else {
            return Err(FillError::NotPresent);
        };
        match buf.get_mut(..word.len()) {
            Some(front) => {
                front.copy_from_slice(word);
                Ok(word.len())
            }
            None => Err(FillError::TooLong),
        }
    }

    fn var(&self, _name: &str, _buf: &mut [u8]) -> Result<usize, FillError> {
        Err(FillError::NotPresent)
    }

    fn var_at(&self, _i: usize, _buf: &mut [u8]) -> Result<usize, FillError> {
        Err(FillError::NotPresent)
    }
}

#[test]
fn words_are_those_behind_the_name(rt: HostRuntime) -> Result<(), Fail> {
    let words: [&[u8]; 3] = [b"silkit", b"check", "Größe.json".as_bytes()];
    let line = (CommandLine { words: &words }, rt.alloc());
    let Ok(read) = read_words(&line) else {
        return Err(Fail::new("words that are UTF-8"));
    };
    assert_eq!(rt; read.len(), 2);
    assert_eq!(rt; read[0].as_str(), "check");
    assert_eq!(rt; read[1].as_str(), "Größe.json");
    assert!(rt; !is_pipe(&line));
    Ok(())
}

/// A word that isn't UTF-8 is refused, and only `pipe` keeps silent about it.
#[test]
fn words_that_are_not_utf8(rt: HostRuntime) -> Result<(), Fail> {
    let table: [(&[u8], bool); 4] = [
        (b"check", false),
        (b"pipe", true),
        (b"pip", false),
        (b"pipes", false),
    ];
    for (command, is_silent) in table {
        let words: [&[u8]; 3] = [b"silkit", command, b"\xff"];
        let line = (CommandLine { words: &words }, rt.alloc());
        let Err(fault) = read_words(&line) else {
            return Err(Fail::new("no refusal"));
        };
        assert!(rt; fault == NoWords::NotUtf8);
        assert!(rt; fault.status() == ExitStatus::Usage);
        assert_eq!(rt; fault.line(), "silkit: usage\n");
        assert!(rt; is_pipe(&line) == is_silent);
    }
    Ok(())
}
