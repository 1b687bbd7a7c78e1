//! The types of fields, each read and beside it written. A reader answers the first fault at the
//! field; after want of memory the buffer of a writer may have a part of it.

ghost use Rattle.sk_wire.specs.Reading.{Gives};
ghost use Rattle.sk_wire.specs.Kinds as kinds;
ghost use Rattle.sk_wire.specs.Puts.{Puts};

use crate::fault::ReadError;
use crate::numbers::{
    Cursor, bad_field, put_long_bytes, put_short_bytes, put_u8, put_u32, put_u64,
};
use sk_base::{Bytes, BytesFault, Name, SimTime, Text, WantOfMemory};
use sk_msg::Head;
use sk_msg::rules::{is_call, is_lin_id, is_mark, is_service_id, is_step_size};
use std::alloc::Global;

impl<'a> Cursor<'a> {
    /// A name: 1 to 64 bytes of UTF-8 without control characters.
    #[tactic(auto, unfolding(crate::specs::Kinds::name))]
    pub fn name(&mut self, alloc: Global) -> Result<Name, ReadError>
        ensures { Gives (λ name. (name, self.new)) result (kinds.name.at self.old) }
    {
        let left = self.left();
        let bytes = self.short_bytes()?;
        Name::from_utf8(alloc, bytes)?.ok_or(bad_field(left))
    }
}

/// Appends a name, behind its length in one byte.
#[tactic(auto, unfolding(crate::specs::Kinds::name))]
pub fn put_name(to: &mut Vec<u8>, name: &Name) -> Result<(), WantOfMemory>
    ensures { Puts result to.old.items to.new.items (kinds.name.spelling name.now) }
{
    put_short_bytes(to, name.as_str().as_bytes())
}

impl<'a> Cursor<'a> {
    /// A text: 0 to 64 bytes of UTF-8 without control characters.
    #[tactic(auto, unfolding(crate::specs::Kinds::text))]
    pub fn text(&mut self, alloc: Global) -> Result<Text, ReadError>
        ensures { Gives (λ text. (text, self.new)) result (kinds.text.at self.old) }
    {
        let left = self.left();
        let bytes = self.short_bytes()?;
        Text::from_utf8(alloc, bytes)?.ok_or(bad_field(left))
    }
}

/// Appends a text, behind its length in one byte.
#[tactic(auto, unfolding(crate::specs::Kinds::text))]
pub fn put_text(to: &mut Vec<u8>, text: &Text) -> Result<(), WantOfMemory>
    ensures { Puts result to.old.items to.new.items (kinds.text.spelling text.now) }
{
    put_short_bytes(to, text.as_str().as_bytes())
}

impl<'a> Cursor<'a> {
    /// A virtual time: at most 2^62 ns.
    #[tactic(auto, unfolding(crate::specs::Kinds::time))]
    pub fn time(&mut self) -> Result<SimTime, ReadError>
        ensures { Gives (λ time. (time, self.new)) result (kinds.time.at self.old) }
    {
        let left = self.left();
        let ns = self.u64()?;
        SimTime::new(ns).ok_or(bad_field(left))
    }
}

/// Appends a virtual time, in ns.
#[tactic(auto, unfolding(crate::specs::Kinds::time))]
pub fn put_time(to: &mut Vec<u8>, time: SimTime) -> Result<(), WantOfMemory>
    ensures { Puts result to.old.items to.new.items (kinds.time.spelling time) }
{
    put_u64(to, time.ns())
}

impl<'a> Cursor<'a> {
    /// The size of a step: 1 to 2^60 ns of virtual time.
    #[tactic(auto, unfolding(crate::specs::Kinds::step_size))]
    pub fn step_size(&mut self) -> Result<u64, ReadError>
        ensures { Gives (λ ns. (ns, self.new)) result (kinds.step_size.at self.old) }
    {
        let left = self.left();
        let ns = self.u64()?;
        is_step_size(ns).then_some(ns).ok_or(bad_field(left))
    }
}

/// Appends the size of a step, in ns of virtual time.
#[tactic(auto, unfolding(crate::specs::Kinds::step_size))]
pub fn put_step_size(to: &mut Vec<u8>, ns: u64) -> Result<(), WantOfMemory>
    ensures { Puts result to.old.items to.new.items (kinds.step_size.spelling ns) }
{
    put_u64(to, ns)
}

impl<'a> Cursor<'a> {
    /// The number of an announced service: at most 63.
    #[tactic(auto, unfolding(crate::specs::Kinds::service_id))]
    pub fn service_id(&mut self) -> Result<u32, ReadError>
        ensures { Gives (λ n. (n, self.new)) result (kinds.service_id.at self.old) }
    {
        let left = self.left();
        let id = self.u32()?;
        is_service_id(id).then_some(id).ok_or(bad_field(left))
    }
}

/// Appends the number of an announced service.
#[tactic(auto, unfolding(crate::specs::Kinds::service_id))]
pub fn put_service_id(to: &mut Vec<u8>, id: u32) -> Result<(), WantOfMemory>
    ensures { Puts result to.old.items to.new.items (kinds.service_id.spelling id) }
{
    put_u32(to, id)
}

impl<'a> Cursor<'a> {
    /// Any number of four bytes. What it may be is judged where it is used.
    #[tactic(auto, using(crate::proofs::PutLaws::in_range), unfolding(crate::specs::Kinds::any32))]
    pub fn any32(&mut self) -> Result<u32, ReadError>
        ensures { Gives (λ n. (n, self.new)) result (kinds.any32.at self.old) }
    {
        self.u32()
    }
}

/// Appends any number of four bytes.
#[tactic(auto, unfolding(crate::specs::Kinds::any32))]
pub fn put_any32(to: &mut Vec<u8>, n: u32) -> Result<(), WantOfMemory>
    ensures { Puts result to.old.items to.new.items (kinds.any32.spelling n) }
{
    put_u32(to, n)
}

impl<'a> Cursor<'a> {
    /// A mark: at most 2^63.
    #[tactic(auto, unfolding(crate::specs::Kinds::mark))]
    pub fn mark(&mut self) -> Result<u64, ReadError>
        ensures { Gives (λ n. (n, self.new)) result (kinds.mark.at self.old) }
    {
        let left = self.left();
        let number = self.u64()?;
        is_mark(number).then_some(number).ok_or(bad_field(left))
    }
}

/// Appends a mark.
#[tactic(auto, unfolding(crate::specs::Kinds::mark))]
pub fn put_mark(to: &mut Vec<u8>, mark: u64) -> Result<(), WantOfMemory>
    ensures { Puts result to.old.items to.new.items (kinds.mark.spelling mark) }
{
    put_u64(to, mark)
}

impl<'a> Cursor<'a> {
    /// What stands in front of all that goes from service to service.
    #[tactic(auto, unfolding(crate::specs::Kinds::head))]
    pub fn head(&mut self) -> Result<Head, ReadError>
        ensures { Gives (λ head. (head, self.new)) result (kinds.head.at self.old) }
    {
        let service = self.any32()?;
        let stamp = self.time()?;
        let mark = self.mark()?;
        Ok(Head {
            service,
            stamp,
            mark,
        })
    }
}

/// Appends what stands in front of all that goes from service to service.
#[tactic(auto, using(crate::proofs::PutLaws::puts), unfolding(crate::specs::Kinds::head))]
pub fn put_head(to: &mut Vec<u8>, head: Head) -> Result<(), WantOfMemory>
    ensures { Puts result to.old.items to.new.items (kinds.head.spelling head) }
{
    put_any32(to, head.service)?;
    put_time(to, head.stamp)?;
    put_mark(to, head.mark)
}

impl<'a> Cursor<'a> {
    /// Bytes that a message carries: 0 to 4,096.
    #[tactic(auto, unfolding(crate::specs::Kinds::payload))]
    pub fn payload(&mut self, alloc: Global) -> Result<Bytes, ReadError>
        ensures { Gives (λ bytes. (bytes, self.new)) result (kinds.payload.at self.old) }
    {
        let left = self.left();
        let bytes = self.long_bytes()?;
        match Bytes::new(alloc, bytes) {
            Ok(bytes) => Ok(bytes),
            Err(BytesFault::WantOfMemory) => Err(ReadError::WantOfMemory),
            Err(BytesFault::TooLong(_)) => Err(bad_field(left)),
        }
    }
}

/// Appends bytes that a message carries, behind their number in two bytes.
#[tactic(auto, unfolding(crate::specs::Kinds::payload))]
pub fn put_payload(to: &mut Vec<u8>, bytes: &Bytes) -> Result<(), WantOfMemory>
    ensures { Puts result to.old.items to.new.items (kinds.payload.spelling bytes.now) }
{
    put_long_bytes(to, bytes.as_slice())
}

impl<'a> Cursor<'a> {
    /// The identifier of a LIN frame: at most 63.
    #[tactic(auto, unfolding(crate::specs::Kinds::lin_id))]
    pub fn lin_id(&mut self) -> Result<u8, ReadError>
        ensures { Gives (λ n. (n, self.new)) result (kinds.lin_id.at self.old) }
    {
        let left = self.left();
        let number = self.u8()?;
        is_lin_id(number).then_some(number).ok_or(bad_field(left))
    }
}

/// Appends the identifier of a LIN frame.
#[tactic(auto, unfolding(crate::specs::Kinds::lin_id))]
pub fn put_lin_id(to: &mut Vec<u8>, id: u8) -> Result<(), WantOfMemory>
    ensures { Puts result to.old.items to.new.items (kinds.lin_id.spelling id) }
{
    put_u8(to, id)
}

impl<'a> Cursor<'a> {
    /// The number of a call: 1 to 2^63.
    #[tactic(auto, unfolding(crate::specs::Kinds::call))]
    pub fn call(&mut self) -> Result<u64, ReadError>
        ensures { Gives (λ n. (n, self.new)) result (kinds.call.at self.old) }
    {
        let left = self.left();
        let number = self.u64()?;
        is_call(number).then_some(number).ok_or(bad_field(left))
    }
}

/// Appends the number of a call.
#[tactic(auto, unfolding(crate::specs::Kinds::call))]
pub fn put_call(to: &mut Vec<u8>, call: u64) -> Result<(), WantOfMemory>
    ensures { Puts result to.old.items to.new.items (kinds.call.spelling call) }
{
    put_u64(to, call)
}
