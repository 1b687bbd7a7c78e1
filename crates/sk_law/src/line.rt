//! What is kept of each peer and tool.

ghost use Rattle.std.specs.Prelude.{◌≡◌, ◌==◌, ◌<◌, ◌+◌, ◌^◌, [], ◌∷◌, ◌++◌, true, false, length, slice_set, slice_index_or, IfSome, IfNone, IfOk, replicate, OnOk, OnErr};
ghost use Rattle.sk_law.specs.Serving.{IsNext, IsIndexed};
ghost use Rattle.sk_law.specs.Tied.{queued, no_line, heard_line, heard_lines};

use crate::Said;
use sk_base::WantOfMemory;
use sk_msg::Message;
use sk_pubsub::Receivers;
use std::alloc::Global;
use std::collections::VecDeque;
use std::marker::Model;

/// Messages that wait, the oldest first. Contracts see the list.
#[derive(Debug, Drop)]
pub struct Queue {
    items: VecDeque<Message>,
}

impl Model for Queue {
    ghost use Rattle.std.specs.Prelude.{List};
    ghost use Rattle.sk_msg.specs.declared.content.Content.{Content};

    ghost Value = { List Content };

    ghost view = { λ q. q.items.items };
}

impl Queue {
    /// Nothing waits.
    pub fn new(alloc: Global) -> Queue
        ensures { result ≡ [] }
    {
        Queue {
            items: VecDeque::new(alloc),
        }
    }

    /// One message more, behind the others.
    pub fn push(&mut self, message: Message) -> Result<(), WantOfMemory>
        ensures ok { OnOk result (self.new ≡ self.old ++ message ∷ []) }
        ensures err { OnErr result (self.new ≡ self.old) }
    {
        self.items.push_back(message)?;
        Ok(())
    }

    /// Whether nothing waits.
    pub fn is_empty(&self) -> bool
        ensures { result ≡ (length self.now == 0) }
    {
        self.items.is_empty()
    }

    /// The oldest message is taken out.
    pub fn pop(&mut self) -> Option<Message>
        ensures some { IfSome result (λ m. self.old ≡ m ∷ self.new) }
        ensures none { IfNone result (self.old ≡ []) }
        ensures same { IfNone result (self.new ≡ []) }
    {
        self.items.pop_front()
    }
}

/// What is kept of one peer or tool.
#[derive(Debug, Drop)]
pub struct Line {
    /// Whether its link is gone.
    pub gone: bool,
    /// What was put to it and not yet taken out.
    pub waiting: Queue,
    /// How many messages were got from it.
    pub got: u64,
    /// What it has said in order.
    pub said: Said,
}

impl Line {
    /// Of one of whom nothing has come, and for whom nothing waits.
    pub fn new(alloc: Global) -> Line
        ensures { result ≡ no_line }
    {
        Line {
            gone: false,
            waiting: Queue::new(alloc),
            got: 0,
            said: Said::new(alloc),
        }
    }

    /// One message more was got of this number, whose line it is; it came in order or not.
    pub fn hear(
        &mut self,
        alloc: Global,
        index: &mut Receivers,
        number: u32,
        orderly: bool,
        message: &Message,
    ) -> Result<(), WantOfMemory>
        requires few { self.old.got < 2 ^ 63 }
        requires next { orderly ≡ true → IsNext index.old number message.now }
        ensures ok { OnOk result (self.new ≡ heard_line orderly message.now self.old) }
        ensures indexed { OnOk result (IsIndexed orderly number message.now index.old index.new) }
        ensures err { OnErr result (self.new ≡ self.old) }
        ensures index { OnErr result (index.new ≡ index.old) }
    {
        if orderly {
            self.said.note(alloc, index, number, message)?;
        }
        self.got += 1;
        Ok(())
    }
}

/// A line of each of so many.
pub fn new_lines(alloc: Global, count: usize) -> Result<Vec<Line>, WantOfMemory>
    ensures { IfOk result (λ lines. lines.items ≡ replicate count no_line) }
{
    let mut lines = Vec::new(alloc);
    for _place in 0..count {
        lines.push(Line::new(alloc))?;
    }
    Ok(lines)
}

/// So many zeros.
pub fn zeros(alloc: Global, count: usize) -> Result<Vec<usize>, WantOfMemory>
    ensures { IfOk result (λ counts. counts.items ≡ replicate count 0) }
{
    let counts = vec![in alloc; 0; count]?;
    Ok(counts)
}

/// The message waits for this number, where there is one.
pub fn let_wait(lines: &mut Vec<Line>, number: u32, message: Message) -> Result<(), WantOfMemory>
    ensures ok { OnOk result (lines.new.items ≡ queued number message lines.old.items) }
    ensures err { OnErr result (lines.new.items ≡ lines.old.items) }
{
    match lines.get_mut(number as usize) {
        Some(line) => line.waiting.push(message),
        None => Ok(()),
    }
}

/// The message came from this number.
pub fn hear(
    alloc: Global,
    lines: &mut Vec<Line>,
    index: &mut Receivers,
    number: u32,
    orderly: bool,
    message: &Message,
) -> Result<(), WantOfMemory>
    requires within { number < length lines.old.items }
    requires few { (slice_index_or lines.old.items number no_line).got < 2 ^ 63 }
    requires next { orderly ≡ true → IsNext index.old number message.now }
    ensures ok { OnOk result (lines.new.items ≡ heard_lines orderly number message.now lines.old.items) }
    ensures indexed { OnOk result (IsIndexed orderly number message.now index.old index.new) }
    ensures err { OnErr result (lines.new.items ≡ lines.old.items) }
    ensures index { OnErr result (index.new ≡ index.old) }
{
    lines[number as usize].hear(alloc, index, number, orderly, message)
}
