//! The list, and where a new item goes.

ghost use Rattle.std.specs.Prelude.{◌≡◌, ◌≤◌, List, [], ◌∷◌, ◌++◌, length, filter, true, false, ltb, IfOk, OnOk, OnErr};
ghost use Rattle.std.specs.List.{filter_map};
ghost use Rattle.std.specs.List.Sorted.{IsNonDecreasingBy, IsPartitionPoint};
ghost use Rattle.sk_law.specs.Visible.{comes_before, insert, shown, sort, is_between};
ghost use Rattle.sk_law.specs.declared.made.Heard.{Heard};
ghost use Rattle.sk_law.specs.declared.made.Heard.TheVariants as hearings;
ghost use Rattle.sk_law.specs.declared.visible.Visible.{Visible};
ghost use Rattle.sk_visible.specs.Ordered.{IsPlace, by_sender};

use sk_base::{SimTime, WantOfMemory};
use sk_law::Visible;
use sk_msg::Message;
use std::alloc::Global;
use std::marker::Model;

/// Messages that were handed, in the order in which a step sees them. Contracts see the list.
#[derive(Debug, Drop)]
pub struct VisibleList {
    items: Vec<Visible>,
}

impl Model for VisibleList {
    ghost use Rattle.std.specs.Prelude.{List};
    ghost use Rattle.sk_law.specs.declared.visible.Visible.{Visible};
    ghost use Rattle.sk_visible.specs.Ordered.{IsOrdered};

    ghost Value = { List Visible };

    ghost view = { λ list. list.items.items };

    ghost invariant = { λ list. IsOrdered list.items.items };
}

impl VisibleList {
    /// Nothing was handed yet.
    pub fn new(alloc: Global) -> VisibleList
        ensures { result ≡ [] }
    {
        VisibleList {
            items: Vec::new(alloc),
        }
    }

    /// One message more, in its place: before the first that it comes before.
    pub fn add(&mut self, item: Visible) -> Result<(), WantOfMemory>
        ensures ok { OnOk result (self.new ≡ insert item self.old) }
        ensures sorted { (items : List Visible) → self.old ≡ sort items → OnOk result (self.new ≡ sort (items ++ item ∷ [])) }
        ensures err { OnErr result (self.new ≡ self.old) }
    {
        let place = place_of(&self.items, &item);
        self.items.insert(place, item)?;
        Ok(())
    }

    /// A message was handed to a service: where it was sent in a step, it may be seen from now on. If
    /// the list has what was heard so far, it has this behind it.
    pub fn note(
        &mut self,
        alloc: Global,
        peer: u32,
        place: u64,
        service: u32,
        message: &Message,
    ) -> Result<(), WantOfMemory>
        ensures ok { (heard : List Heard) → self.old ≡ sort (filter_map shown heard) → OnOk result (self.new ≡ sort (filter_map shown (heard ++ hearings.Message peer place service message.now ∷ []))) }
        ensures err { OnErr result (self.new ≡ self.old) }
    {
        match shown(alloc, peer, place, service, message)? {
            None => Ok(()),
            Some(item) => self.add(item),
        }
    }

    /// What was sent from one time on and below another, in order.
    pub fn between(&self, from: SimTime, below: SimTime) -> &[Visible]
        ensures { result.now ≡ filter (is_between from below) self.now }
    {
        let start = count_below(&self.items, from);
        let end = count_below(&self.items, below);
        if start < end {
            &self.items[start..end]
        } else {
            &self.items[..0]
        }
    }

    /// All that was handed, in order.
    pub fn as_slice(&self) -> &[Visible]
        ensures { result.now ≡ self.now }
    {
        self.items.as_slice()
    }
}

/// What may be seen of a message that was handed to a service: None where it wasn't sent in a step.
fn shown(
    alloc: Global,
    peer: u32,
    place: u64,
    service: u32,
    message: &Message,
) -> Result<Option<Visible>, WantOfMemory>
    ensures { IfOk result (λ item. item ≡ shown (hearings.Message peer place service message.now)) }
{
    let Some(head) = message.content().head() else {
        return Ok(None);
    };
    if head.mark == 0 {
        return Ok(None);
    }
    let message = message.copy(alloc)?;
    Ok(Some(Visible {
        stamp: head.stamp,
        peer,
        place,
        service,
        message,
    }))
}

/// Whether one comes before the other.
fn comes_before(one: &Visible, other: &Visible) -> bool
    ensures { result ≡ comes_before one.now other.now }
{
    let (at, other_at) = (one.stamp.ns(), other.stamp.ns());
    at < other_at || (at == other_at && comes_before_at_once(one, other))
}

/// Whether one comes before the other, where both were sent at the same time.
fn comes_before_at_once(one: &Visible, other: &Visible) -> bool
    ensures { result ≡ by_sender one.now other.now }
{
    one.peer < other.peer
        || (one.peer == other.peer
            && (one.place < other.place
                || (one.place == other.place && one.service < other.service)))
}

/// The place of an item among these, looked for from the end.
fn place_of(items: &[Visible], item: &Visible) -> usize
    ensures within { result ≤ length items.now }
    ensures place { IsPlace item.now items.now result }
{
    let mut place = items.len();
    while place > 0 && comes_before(item, &items[place - 1]) {
        place -= 1;
    }
    place
}

/// How many of these were sent before this time.
fn count_below(items: &[Visible], time: SimTime) -> usize
    requires { IsNonDecreasingBy (λ item. item.stamp) items.now }
    ensures within { result ≤ length items.now }
    ensures point { IsPartitionPoint (λ item. ltb item.stamp time ≡ true) (λ item. ltb item.stamp time ≡ false) items.now result }
{
    let ns = time.ns();
    items.partition_point(|item| item.stamp.ns() < ns)
}
