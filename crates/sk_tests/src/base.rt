use sk_base::memory::{
    CallKind, FailAt, MemFile, MemFiles, MemGive, MemLink, MemNet, MemSink, MemTake,
};
use sk_base::{
    Bytes, ExitStatus, Failed, Files, Gave, Line, Link, Name, Net, Opened, SimTime, Sink, Text,
    Took, one_more,
};
use std::alloc::Global;
use std::process::Abort;
use std::test::Fail;

#[test]
fn names_that_are_one(rt: HostRuntime) -> Result<(), Fail> {
    let name = Name::new(rt.alloc(), "A")?;
    for (other, same) in [("A", true), ("a", false), ("AB", false), ("B", false)] {
        let other = Name::new(rt.alloc(), other)?;
        assert_eq!(rt; name.is(&other), same);
    }
    Ok(())
}

#[test]
fn a_line_and_a_status(rt: HostRuntime) -> Result<(), Fail> {
    let line = Line::new(String::from_str(rt.alloc(), "left A")?);
    assert_eq!(rt; line.as_str(), "left A");
    assert_eq!(rt; ExitStatus::Done.number(), 0);
    assert_eq!(rt; ExitStatus::Unlawful.number(), 13);
    Ok(())
}

#[test]
fn times(rt: HostRuntime) -> Result<(), Fail> {
    let latest = SimTime::new(4_611_686_018_427_387_904).ok_or("none")?;
    assert_eq!(rt; latest.ns(), 1 << 62);
    assert!(rt; SimTime::new(4_611_686_018_427_387_905).is_none());
    assert!(rt; SimTime::new(u64::MAX).is_none());
    assert!(rt; latest.plus(0) == Some(latest));
    assert!(rt; latest.plus(1).is_none());
    assert!(rt; latest.plus(u64::MAX).is_none());
    let start = SimTime::new(0).ok_or("none")?;
    assert!(rt; start.plus(1 << 62) == Some(latest));
    assert!(rt; start < latest);
    Ok(())
}

/// The calls that fail, by kind and number.
fn failing(alloc: Global, calls: &[(CallKind, u64)]) -> Result<Vec<FailAt>, Fail> {
    let mut fails = Vec::new(alloc);
    for (call, number) in calls {
        fails.push(FailAt {
            call: *call,
            link: 0,
            number: *number,
        })?;
    }
    Ok(fails)
}

/// A link that answers takes with these pieces, each None as NotYet, and fails these calls.
fn taking(
    alloc: Global,
    pieces: &[Option<&str>],
    calls: &[(CallKind, u64)],
) -> Result<MemLink, Fail> {
    let mut takes = Vec::new(alloc);
    for piece in pieces {
        takes.push(match piece {
            Some(piece) => MemTake::Bytes(piece.as_bytes().to_vec(alloc)?),
            None => MemTake::NotYet,
        })?;
    }
    let fails = failing(alloc, calls)?;
    Ok(MemLink::new(alloc, takes, Vec::new(alloc), fails))
}

#[test]
fn a_link_plays_what_is_taken(rt: HostRuntime) -> Result<(), Fail> {
    let pieces = [Some("abc"), None, Some(""), Some("d")];
    let mut link = taking(rt.alloc(), &pieces, &[(CallKind::Take, 3)])?;
    let mut buf = [0u8; 2];
    for (answer, front) in [
        (Ok(Took::Bytes(2)), "ab"),
        (Ok(Took::Bytes(1)), "c"),
        (Err(Failed), ""),
        (Ok(Took::NotYet), ""),
        (Ok(Took::NotYet), ""),
        (Ok(Took::Bytes(1)), "d"),
        (Ok(Took::End), ""),
        (Ok(Took::End), ""),
    ] {
        assert!(rt; link.take(&mut buf) == answer);
        assert!(rt; buf.starts_with(front.as_bytes()));
    }
    Ok(())
}

/// A link that takes at most so many bytes in a give, each None as NotYet, and fails these calls.
fn giving(
    alloc: Global,
    sizes: &[Option<usize>],
    calls: &[(CallKind, u64)],
) -> Result<MemLink, Fail> {
    let mut gives = Vec::new(alloc);
    for size in sizes {
        gives.push(match size {
            Some(size) => MemGive::Bytes(*size),
            None => MemGive::NotYet,
        })?;
    }
    let fails = failing(alloc, calls)?;
    Ok(MemLink::new(alloc, Vec::new(alloc), gives, fails))
}

#[test]
fn a_link_plays_what_is_given(rt: HostRuntime) -> Result<(), Fail> {
    let mut link = giving(
        rt.alloc(),
        &[Some(2), None, Some(0)],
        &[(CallKind::Give, 2)],
    )?;
    for (answer, given) in [
        (Ok(Gave::Bytes(2)), "xy"),
        (Err(Failed), "xy"),
        (Ok(Gave::NotYet), "xy"),
        (Ok(Gave::NotYet), "xy"),
        (Ok(Gave::Bytes(3)), "xyxyz"),
    ] {
        assert!(rt; link.give(b"xyz") == answer);
        assert!(rt; link.given() == given.as_bytes());
    }
    Ok(())
}

/// Files of these paths and contents, of which these calls fail.
fn holding(
    alloc: Global,
    files: &[(&str, &str)],
    calls: &[(CallKind, u64)],
) -> Result<MemFiles, Fail> {
    let mut list = Vec::new(alloc);
    for (path, content) in files {
        list.push(MemFile {
            path: String::from_str(alloc, path)?,
            content: content.as_bytes().to_vec(alloc)?,
        })?;
    }
    Ok(MemFiles::new(list, failing(alloc, calls)?))
}

#[test]
fn files_play_which_there_are(rt: HostRuntime) -> Result<(), Fail> {
    let held = [("a.json", "abc"), ("b.json", "")];
    let mut files = holding(rt.alloc(), &held, &[(CallKind::Open, 2)])?;
    for (path, answer) in [
        ("c.json", Ok(Opened::Absent)),
        ("a.json", Err(Failed)),
        ("a.json", Ok(Opened::Ready)),
        ("b.json", Ok(Opened::Ready)),
    ] {
        assert!(rt; files.open(path) == answer);
    }
    Ok(())
}

/// The first file of a path counts.
#[test]
fn files_play_what_they_hold(rt: HostRuntime) -> Result<(), Fail> {
    let held = [("a.json", "abc"), ("a.json", "never")];
    let mut files = holding(rt.alloc(), &held, &[(CallKind::Read, 2)])?;
    let Ok(Opened::Ready) = files.open("a.json") else {
        return Err(Fail::new("a.json isn't there"));
    };
    let mut buf = [0u8; 2];
    assert!(rt; files.read(&mut buf) == Ok(2));
    assert!(rt; buf.starts_with(b"ab"));
    assert!(rt; files.read(&mut buf) == Err(Failed));
    assert!(rt; files.read(&mut buf) == Ok(1));
    assert!(rt; buf.starts_with(b"c"));
    assert!(rt; files.read(&mut buf) == Ok(0));
    Ok(())
}

#[test]
fn a_sink_keeps_what_it_took(rt: HostRuntime) -> Result<(), Fail> {
    let fails = failing(rt.alloc(), &[(CallKind::Write, 2), (CallKind::Flush, 1)])?;
    let mut sink = MemSink::new(rt.alloc(), fails);
    let long = [b'a'; 70];
    for (bytes, answer) in [
        (long.as_slice(), Ok(64)),
        (b"b", Err(Failed)),
        (b"", Ok(0)),
        (b"c", Ok(1)),
    ] {
        assert!(rt; sink.write(bytes) == answer);
    }
    assert!(rt; sink.flush() == Err(Failed));
    assert!(rt; sink.flush() == Ok(()));
    assert!(rt; sink.written().starts_with(&long[..64]));
    assert!(rt; sink.written().get(64..) == Some(b"c".as_slice()));
    Ok(())
}

/// Stands only where values of the type may be handed to other threads.
fn may_be_sent<T: Send>(_value: &T) {}

/// A copy of a name that is gone.
fn copied_name(alloc: Global) -> Result<Name, Fail> {
    let name = Name::new(alloc, "A")?;
    may_be_sent(&name);
    Ok(name.copy(alloc)?)
}

/// A copy of bytes that are gone.
fn copied_bytes(alloc: Global) -> Result<Bytes, Fail> {
    let bytes = Bytes::new(alloc, b"\x01\x02")?;
    may_be_sent(&bytes);
    Ok(bytes.copy(alloc)?)
}

#[test]
fn copies_outlive_the_first(rt: HostRuntime) -> Result<(), Fail> {
    assert!(rt; copied_name(rt.alloc())?.as_str() == "A");
    assert!(rt; copied_bytes(rt.alloc())?.as_slice() == b"\x01\x02".as_slice());
    Ok(())
}

/// The number 0 names every call of its kind.
#[test]
fn a_sink_that_always_fails(rt: HostRuntime) -> Result<(), Fail> {
    let fails = failing(rt.alloc(), &[(CallKind::Write, 0)])?;
    let mut sink = MemSink::new(rt.alloc(), fails);
    for _ in 0..3u8 {
        assert!(rt; sink.write(b"a") == Err(Failed));
    }
    assert!(rt; sink.flush() == Ok(()));
    assert!(rt; sink.written().is_empty());
    Ok(())
}

#[test]
fn a_net_without_links(rt: HostRuntime) -> Result<(), Fail> {
    let alloc = rt.alloc();
    let at = Text::new(alloc, "silkit://127.0.0.1:0")?;
    let mut net = MemNet::without_links(alloc);
    assert!(rt; net.listen(&at).is_err());
    assert!(rt; net.connect(&at) == Err(Failed));
    assert!(rt; net.accept() == Ok(None));
    assert!(rt; !net.is_open(0));
    Ok(())
}

#[test]
fn counts_of_faults(rt: HostRuntime) -> Result<(), Fail> {
    for (before, now) in [(0, 1), (u64::MAX - 1, u64::MAX), (u64::MAX, u64::MAX)] {
        assert_eq!(rt; one_more(before), now);
    }
    Ok(())
}
