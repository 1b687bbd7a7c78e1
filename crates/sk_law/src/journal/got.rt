//! A message is got.

ghost use Rattle.std.specs.Prelude.{◌≡◌, ◌<◌, ◌≤◌, min, OnOk, OnErr, length, slice_get, ◌++◌, option_copied};
ghost use Rattle.std.specs.Option.{option_map};
ghost use Rattle.sk_law.specs.Past.{add};
ghost use Rattle.sk_law.specs.Links.{comes_in_order, is_peer, workflow_in};
ghost use Rattle.sk_law.specs.Kept.{grown};
ghost use Rattle.sk_law.specs.Tied.{all_of, first_in, with_state, limit_after};

use crate::journal::Journal;
use crate::journal::needed::{find_needed, require};
use crate::line::hear;
use crate::order::{comes, waits};
use crate::{Setup, journals_go_by_entries};
use sk_base::{Name, WantOfMemory};
use sk_msg::{Content, Entry, Message, Names};
use sk_system::SystemView;

impl Journal {
    /// Whether this message of this number, got now, comes in order.
    pub fn comes_in_order(&self, number: u32, message: &Message) -> bool
        ensures { result ≡ comes_in_order self.now.setup self.now.past number message.now }
    {
        match name_of(&self.setup.names, &self.memory.tools, number) {
            Some(name) => comes(
                waits(
                    self.setup.coordinated,
                    self.tally.state,
                    self.awaited.unwrap_or(false),
                ),
                self.setup.names.as_slice().len() <= number as usize,
                name,
                &self.lines[number as usize].said,
                message,
            ),
            None => false,
        }
    }

    /// The message was got from this number, in order or not.
    pub fn add_got(&mut self, number: u32, message: Message) -> Result<(), WantOfMemory>
        requires { number < all_of self.old.setup self.old.past.memory.tools }
        ensures ok { OnOk result (self.new ≡ grown (add (Entry.Got number message) self.old.past) self.old) }
        ensures err { OnErr result (self.new ≡ self.old) }
    {
        journals_go_by_entries();
        let orderly = self.comes_in_order(number, &message);
        let coordinated = self.lines[number as usize].said.coordinated;
        let tally = self.tally.after_got(number, &message);
        let limit = limit_after(
            &self.setup,
            orderly,
            number,
            coordinated,
            &message,
            self.limit,
        );
        let first = first_in(orderly, self.awaited, &message);
        let required = find_needed(self.alloc, &self.setup, first)?;
        self.entries.reserve(1)?;
        // what a service's number is
        let _content = message.content();
        hear(
            self.alloc,
            &mut self.lines,
            &mut self.index,
            number,
            orderly,
            &message,
        )?;
        self.awaited = require(&mut self.view, required).or(self.awaited);
        see(&mut self.view, &self.setup, orderly, number, &message);
        self.entries.push(Entry::Got(number, message)).unwrap();
        self.tally = tally;
        self.limit = limit;
        Ok(())
    }
}

/// The name of a participant or a tool.
fn name_of<'a>(names: &'a Names, tools: &'a Names, number: u32) -> Option<&'a Name>
    ensures { option_copied result ≡ slice_get (names.now ++ tools.now) number }
{
    let names = names.as_slice();
    let place = number as usize;
    if place < names.len() {
        names.get(place)
    } else {
        tools.as_slice().get(place - names.len())
    }
}

/// Whether this is the number of a peer.
fn is_peer(setup: &Setup, number: u32) -> bool
    ensures { result ≡ is_peer setup.now number }
{
    (number as usize) < setup.names.as_slice().len() && number != setup.number
}

/// The names that the message is the first to require.
fn first_in(orderly: bool, awaited: Option<bool>, message: &Message) -> Option<&Names>
    ensures { option_copied result ≡ first_in orderly awaited message.now }
{
    if orderly && awaited.is_none() {
        workflow_in(message)
    } else {
        None
    }
}

/// The names in a Workflow.
fn workflow_in(message: &Message) -> Option<&Names>
    ensures { option_copied result ≡ workflow_in message.now }
{
    match message.content() {
        Content::Workflow { required } => Some(required),
        Content::Hello { .. }
        | Content::Leave
        | Content::NextStep { .. }
        | Content::ServiceAdd { .. }
        | Content::ServicesEnd
        | Content::Status { .. }
        | Content::Abort
        | Content::Can { .. }
        | Content::Eth { .. }
        | Content::Lin { .. }
        | Content::LinResponse { .. }
        | Content::Publish { .. }
        | Content::Call { .. }
        | Content::Reply { .. }
        | Content::Refuse { .. } => None,
    }
}

/// The limit of steps from now on.
fn limit_after(
    setup: &Setup,
    orderly: bool,
    number: u32,
    coordinated: bool,
    message: &Message,
    limit: u64,
) -> u64
    ensures { result ≡ limit_after setup.now orderly number coordinated message.now limit }
{
    match message.content() {
        Content::Status { until, .. } => {
            let until = until.ns();
            if orderly && setup.coordinated && is_peer(setup, number) && coordinated && until != 0 {
                limit.min(until)
            } else {
                limit
            }
        }
        Content::Hello { .. }
        | Content::Leave
        | Content::NextStep { .. }
        | Content::ServiceAdd { .. }
        | Content::ServicesEnd
        | Content::Workflow { .. }
        | Content::Abort
        | Content::Can { .. }
        | Content::Eth { .. }
        | Content::Lin { .. }
        | Content::LinResponse { .. }
        | Content::Publish { .. }
        | Content::Call { .. }
        | Content::Reply { .. }
        | Content::Refuse { .. } => limit,
    }
}

/// The state that a peer tells in order is known from now on.
fn see(view: &mut SystemView, setup: &Setup, orderly: bool, number: u32, message: &Message)
    requires { length view.old.known ≡ length setup.now.names }
    ensures { view.new ≡ with_state setup.now orderly number message.now view.old }
{
    match message.content() {
        Content::Status { state, .. } => {
            if orderly && is_peer(setup, number) {
                view.note(number, *state);
            }
        }
        Content::Hello { .. }
        | Content::Leave
        | Content::NextStep { .. }
        | Content::ServiceAdd { .. }
        | Content::ServicesEnd
        | Content::Workflow { .. }
        | Content::Abort
        | Content::Can { .. }
        | Content::Eth { .. }
        | Content::Lin { .. }
        | Content::LinResponse { .. }
        | Content::Publish { .. }
        | Content::Call { .. }
        | Content::Reply { .. }
        | Content::Refuse { .. } => {}
    }
}
