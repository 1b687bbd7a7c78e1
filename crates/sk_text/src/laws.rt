//! Laws of the text: functions whose contracts are the laws.

ghost use Rattle.std.specs.Prelude.{◌≡◌, ℕ, List, map, All, IsTrue};
ghost use Rattle.sk_base.specs.Ranges.{is_name};
ghost use Rattle.sk_msg.specs.declared.entry.Entry.{Entry};
ghost use Rattle.sk_wire.specs.Stream.{AreBytes};
ghost use Rattle.sk_text.specs.Lines.{world_text};
ghost use Rattle.sk_text.specs.Kept.{payload_of, IsMessage, IsSent, IsEntry, IsWorld};

use sk_base::{Bytes, Name};
use sk_msg::{Content, Entry, Message, Sent};

/// Two worlds with equal texts have equal names and equal journals: a text leaves nothing out, and
/// reads in one way only.
///
/// It holds of all names, 1 to 64 bytes of UTF-8 without control characters, and of all entries
/// whose numbers have the widths of their fields, whose times are at most 2^62 ns, and whose
/// messages keep the rules of their kinds and carry bytes. It needs no bound on how many there are.
/// What is in memory keeps all of this: [`see_world`].
pub fn equal_texts_have_equal_worlds()
    ensures { (names other_names : List (List ℕ)) (journals other_journals : List (List Entry))
        → IsWorld names journals → IsWorld other_names other_journals
        → world_text names journals ≡ world_text other_names other_journals
        → (names ≡ other_names) × (journals ≡ other_journals) }
{
    sk_wire::laws::one_spelling();
}

/// Names and journals in memory keep what [`equal_texts_have_equal_worlds`] asks for, because their
/// types do. It looks at each, and does nothing else.
pub fn see_world(names: &[Name], journals: &[Vec<Entry>])
    ensures { IsWorld names.now (map (λ journal. journal.items) journals.now) }
{
    see_names(names);
    see_journals(journals);
}

/// Each is a name.
fn see_names(names: &[Name])
    ensures { All (λ name. IsTrue (is_name name)) names.now }
{
    for name in names {
        let _name = name.as_str();
    }
}

/// Each entry of each is one.
fn see_journals(journals: &[Vec<Entry>])
    ensures { All (λ journal. All IsEntry journal.items) journals.now }
{
    for journal in journals {
        see_entries(journal.as_slice());
    }
}

/// Each is an entry.
fn see_entries(entries: &[Entry])
    ensures { All IsEntry entries.now }
{
    for entry in entries {
        see_entry(entry);
    }
}

/// Its numbers fit their fields, and its message is one.
fn see_entry(entry: &Entry)
    ensures { IsEntry entry.now }
{
    match entry {
        Entry::Got(peer, message) => {
            let _peer = *peer;
            see_message(message);
        }
        Entry::Put(peer, message) => {
            let _peer = *peer;
            see_message(message);
        }
        Entry::Hand {
            peer,
            place,
            service,
        } => {
            let _numbers = (*peer, *place, *service);
        }
        Entry::State(_) => {}
        Entry::System(_) => {}
        Entry::Begin(step, at) => {
            let _step = *step;
            let _at = at.ns();
        }
        Entry::Done(step) => {
            let _step = *step;
        }
        Entry::End(step) => {
            let _step = *step;
        }
        Entry::Ask(_, _) => {}
        Entry::Gone(peer, reason) => {
            let _numbers = (*peer, *reason);
        }
        Entry::Stray(number) => {
            let _number = *number;
        }
        Entry::Did(service, code, sent) => {
            let _numbers = (*service, *code);
            see_sent(sent);
        }
        Entry::Fault(limit) => {
            let _limit = *limit;
        }
    }
}

/// What was sent is a message.
fn see_sent(sent: &Option<Sent>)
    ensures { IsSent sent.now }
{
    match sent {
        Some(sent) => see_message(sent.message()),
        None => {}
    }
}

/// It keeps the rules of its kind, and carries bytes.
fn see_message(message: &Message)
    ensures { IsMessage message.now }
{
    see_payload(message.content());
}

/// It carries bytes.
fn see_payload(content: &Content)
    ensures { AreBytes (payload_of content.now) }
{
    match content {
        Content::Can { frame, .. } => see_bytes(&frame.payload),
        Content::Eth { payload, .. } => see_bytes(payload),
        Content::Lin { frame, .. } => see_bytes(&frame.payload),
        Content::LinResponse { response, .. } => see_bytes(&response.payload),
        Content::Publish { payload, .. } => see_bytes(payload),
        Content::Call { payload, .. } => see_bytes(payload),
        Content::Reply { payload, .. } => see_bytes(payload),
        _ => {}
    }
}

/// Each of them is a byte.
fn see_bytes(bytes: &Bytes)
    ensures { AreBytes bytes.now }
{
    see_slice(bytes.as_slice());
}

/// Each of them is a byte.
fn see_slice(bytes: &[u8])
    ensures { AreBytes bytes.now }
{}
