use crate::testing::{fails_of, words_of};
use crate::{Host, silkit, silkit_offline};
use sk_base::Idle;
use sk_base::memory::{CallKind, FailAt, MemFile, MemFiles, MemLink, MemNet, MemSink};
use std::alloc::{AllocError, Global};
use std::process::Abort;
use std::test::Fail;

/// A configuration with a key that isn't used.
const SOUND: &str =
    "{\"ParticipantName\":\"A\",\"CanControllers\":[{\"Name\":\"C1\",\"Network\":\"PT\"}],\"Logging\":{\"FlushLevel\":\"Off\"}}";

const TEXT: &str =
    "{\"CanControllers\":[{\"Name\":\"C1\",\"Network\":\"PT\"}],\"ParticipantName\":\"A\"}\n";

const WARNING: &str = "warning: /Logging: not used\n";

#[derive(Drop)]
struct NoRest;

impl Idle for NoRest {
    fn rest(&self) {}
}

/// One file, `a.json`.
fn files_of(alloc: Global, content: &[u8], fails: Vec<FailAt>) -> Result<MemFiles, AllocError> {
    let mut files = Vec::new(alloc);
    files.push(MemFile {
        path: String::from_str(alloc, "a.json")?,
        content: content.to_vec(alloc)?,
    })?;
    Ok(MemFiles::new(files, fails))
}

/// What a run of these words on the one file answers, writes and says, where one call fails: that
/// of this number, or none where it is out of reach.
fn expect(
    rt: &(impl Abort + AllocGlobal),
    words: &[&str],
    content: &[u8],
    fail: (CallKind, u64),
    wanted: (u8, &str, &str),
) -> Result<(), Fail> {
    let alloc = rt.alloc();
    let mut files = files_of(alloc, content, fails_of(alloc, fail.0, fail.1)?)?;
    let mut out = MemSink::new(alloc, fails_of(alloc, fail.0, fail.1)?);
    let mut err = MemSink::new(alloc, Vec::new(alloc));
    let words = words_of(alloc, words)?;
    assert_eq!(rt;
        silkit_offline(alloc, &words, &mut files, &mut out, &mut err),
        wanted.0
    );
    assert_eq!(rt; out.written(), wanted.1.as_bytes());
    assert_eq!(rt; err.written(), wanted.2.as_bytes());
    Ok(())
}

const NEVER: (CallKind, u64) = (CallKind::Accept, 1);

const CHECK: [&str; 2] = ["check", "a.json"];

#[test]
fn configurations(rt: HostRuntime) -> Result<(), Fail> {
    expect(&rt, &CHECK, SOUND.as_bytes(), NEVER, (0, TEXT, WARNING))?;
    let table: [(&str, &str); 3] = [
        (
            "{\"CanControllers\":[{\"Network\":\"PT\"}]}",
            "silkit: /CanControllers/0/Name: missing\n",
        ),
        (
            "{\"CanControllers\":[{\"Name\":\"C1\"},{\"Name\":\"C1\"}]}",
            "silkit: /CanControllers/1/Name: double\n",
        ),
        ("[", "silkit: : not JSON\n"),
    ];
    for (content, said) in table {
        expect(&rt, &CHECK, content.as_bytes(), NEVER, (1, "", said))?;
    }
    Ok(())
}

#[test]
fn faults_of_the_outside(rt: HostRuntime) -> Result<(), Fail> {
    let sound = SOUND.as_bytes();
    let read_fault = "silkit: read fault: a.json\n";
    let cut = "warning: /Logging: not used\nsilkit: write fault\n";
    expect(&rt, &CHECK, sound, (CallKind::Open, 1), (3, "", read_fault))?;
    expect(&rt, &CHECK, sound, (CallKind::Read, 1), (3, "", read_fault))?;
    expect(&rt, &CHECK, sound, (CallKind::Read, 2), (3, "", read_fault))?;
    expect(&rt, &CHECK, sound, (CallKind::Write, 1), (4, "", cut))?;
    // A write takes 64 bytes of the text.
    let front = TEXT.get(..64).ok_or("short")?;
    expect(&rt, &CHECK, sound, (CallKind::Write, 2), (4, front, cut))?;
    expect(&rt, &CHECK, sound, (CallKind::Flush, 1), (4, TEXT, cut))?;
    Ok(())
}

#[test]
fn files_that_are_not_read(rt: HostRuntime) -> Result<(), Fail> {
    let absent = ["check", "b.json"];
    let said = "silkit: b.json: no such file\n";
    expect(&rt, &absent, b"{}", NEVER, (1, "", said))?;
    let mut content = Vec::new(rt.alloc());
    for _ in 0..16_777_216u32 {
        content.push(b' ')?;
    }
    let said = "silkit: : not JSON\n";
    expect(&rt, &CHECK, &content, NEVER, (1, "", said))?;
    content.push(b' ')?;
    let said = "silkit: a.json: more than 16777216 bytes\n";
    expect(&rt, &CHECK, &content, NEVER, (1, "", said))?;
    Ok(())
}

const SIMULATE: [&str; 2] = ["simulate", "a.json"];

/// One participant of two steps.
const ALONE: &str = "{\"duration\":2000000,\"participants\":[{\"name\":\"A\",\"step\":1000000}]}";

const JOURNAL: &str = "world 1
participant 0 A
journal 0 22
state ServicesCreated
system ServicesCreated
state CommunicationInitializing
system CommunicationInitializing
state CommunicationInitialized
system CommunicationInitialized
state ReadyToRun
system ReadyToRun
state Running
system Running
begin 1 0
end 1
begin 2 1000000
end 2
state Stopping
system Stopping
state Stopped
system Stopped
state ShuttingDown
system ShuttingDown
state Shutdown
system Shutdown
";

#[test]
fn scenarios(rt: HostRuntime) -> Result<(), Fail> {
    let alone = ALONE.as_bytes();
    let read_fault = "silkit: read fault: a.json\n";
    let cut = "silkit: write fault\n";
    expect(&rt, &SIMULATE, alone, NEVER, (0, JOURNAL, ""))?;
    expect(
        &rt,
        &SIMULATE,
        alone,
        (CallKind::Read, 1),
        (3, "", read_fault),
    )?;
    // A write takes 64 bytes of the text.
    let front = JOURNAL.get(..64).ok_or("short")?;
    expect(&rt, &SIMULATE, alone, (CallKind::Write, 2), (4, front, cut))?;
    expect(
        &rt,
        &SIMULATE,
        alone,
        (CallKind::Flush, 1),
        (4, JOURNAL, cut),
    )?;
    let nobody = b"{\"duration\":0,\"participants\":[]}";
    let said = "silkit: /participants: out of range\n";
    expect(&rt, &SIMULATE, nobody, NEVER, (1, "", said))?;
    let absent = ["simulate", "s.json"];
    let said = "silkit: s.json: no such file\n";
    expect(&rt, &absent, alone, NEVER, (1, "", said))
}

/// A journal that reaches its limit ends the run.
#[test]
fn a_journal_is_full(rt: HostRuntime) -> Result<(), Fail> {
    let alloc = rt.alloc();
    let endless = b"{\"duration\":500000,\"participants\":[{\"name\":\"A\",\"step\":1}]}";
    let mut files = files_of(alloc, endless, Vec::new(alloc))?;
    let mut out = MemSink::new(alloc, Vec::new(alloc));
    let mut err = MemSink::new(alloc, Vec::new(alloc));
    let words = words_of(alloc, &SIMULATE)?;
    assert_eq!(rt;
        silkit_offline(alloc, &words, &mut files, &mut out, &mut err),
        6
    );
    assert_eq!(rt; err.written(), "silkit: ended by abort: A\n".as_bytes());
    Ok(())
}

/// What is said of words without a reading.
fn said_of(alloc: Global, words: &[&str]) -> Result<String, Fail> {
    let mut files = files_of(alloc, b"{}", Vec::new(alloc))?;
    let mut out = MemSink::new(alloc, Vec::new(alloc));
    let mut err = MemSink::new(alloc, Vec::new(alloc));
    let words = words_of(alloc, words)?;
    if silkit_offline(alloc, &words, &mut files, &mut out, &mut err) != 2 {
        return Err(Fail::new("another status"));
    }
    if !out.written().is_empty() {
        return Err(Fail::new("an output"));
    }
    let Ok(text) = str::from_utf8(err.written()) else {
        return Err(Fail::new("no text"));
    };
    Ok(String::from_str(alloc, text)?)
}

const HELP: &str = "Reads a participant's configuration and writes its canonical text

Usage: silkit check <FILE>

Arguments:
  <FILE>  A JSON file; - is a file of that name

Options:
  -h, --help  Print help

Status: 0 written, 1 no configuration, 2 usage or help, 3 read fault, 4 write fault, 5 out of memory
";

#[test]
fn help(rt: HostRuntime) -> Result<(), Fail> {
    let said = said_of(rt.alloc(), &["check", "--help"])?;
    assert_eq!(rt; said.as_str(), HELP);
    Ok(())
}

/// No command, an unknown one, and one that goes to another call; and words that `clap` refuses.
#[test]
fn words_without_a_reading(rt: HostRuntime) -> Result<(), Fail> {
    let alloc = rt.alloc();
    let table: [&[&str]; 4] = [
        &[],
        &["--help"],
        &["Check", "a.json"],
        &["pipe", "A", "1", "5"],
    ];
    for words in table {
        expect(&rt, words, b"{}", NEVER, (2, "", "silkit: usage\n"))?;
    }
    let table: [&[&str]; 3] = [
        &["check"],
        &["check", "a.json", "b.json"],
        &["check", "-a.json"],
    ];
    for words in table {
        let said = said_of(alloc, words)?;
        assert!(rt; said.len() > 30);
    }
    expect(
        &rt,
        &["check", "--", "a.json"],
        b"{}",
        NEVER,
        (0, "{}\n", ""),
    )
}

#[test]
fn the_whole_program(rt: HostRuntime) -> Result<(), Fail> {
    let alloc = rt.alloc();
    let mut host = Host {
        files: files_of(alloc, SOUND.as_bytes(), Vec::new(alloc))?,
        out: MemSink::new(alloc, Vec::new(alloc)),
        err: MemSink::new(alloc, Vec::new(alloc)),
        link: MemLink::new(alloc, Vec::new(alloc), Vec::new(alloc), Vec::new(alloc)),
        net: MemNet::without_links(alloc),
        idle: NoRest,
    };
    assert_eq!(rt; silkit(alloc, &words_of(alloc, &CHECK)?, &mut host), 0);
    assert_eq!(rt; host.out.written(), TEXT.as_bytes());
    assert_eq!(rt; host.err.written(), WARNING.as_bytes());
    assert!(rt; host.link.given().is_empty());
    // The peer's end comes at once.
    let pipe = words_of(alloc, &["pipe", "A", "1", "0"])?;
    assert_eq!(rt; silkit(alloc, &pipe, &mut host), 11);
    assert_eq!(rt; host.link.given().len(), 38);
    assert_eq!(rt; host.out.written(), TEXT.as_bytes());
    assert_eq!(rt; host.err.written(), WARNING.as_bytes());
    Ok(())
}
