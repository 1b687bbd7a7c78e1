//! A whole text, written to a sink.

ghost use Rattle.std.specs.Prelude.{◌≡◌, ◌++◌, true, codes, OnOk, OnErr, IfOk, MatchResult, string_bytes};
ghost use Rattle.sk_base.specs.Talk.{Rose};
ghost use Rattle.sk_tools.specs.Outside.{IsPartWritten, Says};

use sk_base::{Failed, Sink, WantOfMemory};
use std::alloc::Global;

/// Writes all of the text, or a part of it where a write fails.
pub fn write_all<S: Sink>(sink: &mut S, text: &[u8]) -> Result<(), Failed>
    ensures steady { OnOk result (S.faults sink.new ≡ S.faults sink.old) }
    ensures rose { OnErr result (Rose (S.faults sink.old) (S.faults sink.new)) }
    ensures tells { S.tells sink.new ≡ S.tells sink.old }
    ensures written { S.tells sink.old ≡ true → MatchResult result
        (λ _. S.written sink.new ≡ S.written sink.old ++ text.now)
        (λ _. IsPartWritten (S.written sink.old) (S.written sink.new) text.now) }
{
    let mut rest = text;
    'pieces: while !rest.is_empty() {
        let count = sink.write(rest)?;
        rest = &rest[count..];
    }
    Ok(())
}

/// Writes all of the text and sees it off.
pub fn write_out<S: Sink>(sink: &mut S, text: &[u8]) -> Result<(), Failed>
    ensures steady { OnOk result (S.faults sink.new ≡ S.faults sink.old) }
    ensures rose { OnErr result (Rose (S.faults sink.old) (S.faults sink.new)) }
    ensures tells { S.tells sink.new ≡ S.tells sink.old }
    ensures written { S.tells sink.old ≡ true → MatchResult result
        (λ _. S.written sink.new ≡ S.written sink.old ++ text.now)
        (λ _. IsPartWritten (S.written sink.old) (S.written sink.new) text.now) }
{
    write_all(sink, text)?;
    sink.flush()
}

/// Says the text where nothing depends on it: what a fault cuts off is lost.
pub fn say<S: Sink>(sink: &mut S, text: &[u8])
    ensures tells { S.tells sink.new ≡ S.tells sink.old }
    ensures says { Says (S.tells sink.old) (S.faults sink.old) (S.faults sink.new) (S.written sink.old) (S.written sink.new) text.now }
{
    let _ = write_all(sink, text);
}

/// Says a line: the head, what it is about, a colon, and what is wrong with that. It goes out as one
/// piece, so that lines of several programs on one stream don't mix; without memory for it, in parts.
#[tactic(auto, using(crate::proofs::OfflineLaws::says_more))]
pub fn say_line<S: Sink>(alloc: Global, sink: &mut S, head: &str, about: &str, wrong: &str)
    ensures tells { S.tells sink.new ≡ S.tells sink.old }
    ensures says { Says (S.tells sink.old) (S.faults sink.old) (S.faults sink.new) (S.written sink.old) (S.written sink.new)
        (head.now ++ about.now ++ codes ": " ++ wrong.now ++ codes "\n") }
{
    if let Ok(line) = line_of(alloc, head, about, wrong) {
        say(sink, line.as_bytes());
        return;
    }
    say(sink, head.as_bytes());
    say(sink, about.as_bytes());
    say(sink, b": ");
    say(sink, wrong.as_bytes());
    say(sink, b"\n");
}

/// The line as one text.
fn line_of(alloc: Global, head: &str, about: &str, wrong: &str) -> Result<String, WantOfMemory>
    ensures { IfOk result (λ line. string_bytes line ≡ head.now ++ about.now ++ codes ": " ++ wrong.now ++ codes "\n") }
{
    let mut line = String::from_str(alloc, head)?;
    line.push_str(about)?;
    line.push_str(": ")?;
    line.push_str(wrong)?;
    line.push_str("\n")?;
    Ok(line)
}
