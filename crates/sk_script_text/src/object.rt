//! Objects as they are written.

ghost use Rattle.std.specs.Prelude.{◌≡◌, IfOk, OnOk, IsTrue};
ghost use Rattle.serde_json.specs.Data.{put, object, no_members};
ghost use Rattle.serde_json.specs.View.{view, items_view, members_view};
ghost use Rattle.sk_script_text.specs.Objects as spec;
ghost use Rattle.sk_script_text.specs.Objects.{put_some};
ghost use Rattle.sk_script_text.specs.Fitting.{are_bytes};

use serde_json::{Map, Value};
use sk_base::WantOfMemory;
use std::alloc::Global;

/// An object that is being written: it keeps its keys in byte order.
#[derive(Drop)]
pub struct Object {
    pub(crate) members: Map<String, Value>,
}

impl Object {
    /// An object without keys.
    pub fn new(alloc: Global) -> Object
        ensures { members_view result.members.entries ≡ no_members }
    {
        Object {
            members: Map::new(alloc),
        }
    }

    /// Puts a value at a key.
    #[tactic(auto, using(crate::proofs::WriteLaws::puts))]
    pub fn put(&mut self, alloc: Global, key: &str, value: Value) -> Result<(), WantOfMemory>
        ensures { OnOk result (members_view self.new.members.entries ≡ put key.now (view value) (members_view self.old.members.entries)) }
    {
        self.members.insert(String::from_str(alloc, key)?, value)?;
        Ok(())
    }

    /// Puts a text.
    #[tactic(auto, unfolding(crate::specs::Objects::put_some))]
    pub fn put_text(&mut self, alloc: Global, key: &str, text: &str) -> Result<(), WantOfMemory>
        ensures { OnOk result (members_view self.new.members.entries ≡ put_some key.now (spec.text text.now) (members_view self.old.members.entries)) }
    {
        let value = Value::String(String::from_str(alloc, text)?);
        self.put(alloc, key, value)
    }

    /// Puts a text, unless it is empty.
    #[tactic(auto, unfolding(crate::specs::Objects::put_some))]
    pub fn put_some_text(
        &mut self,
        alloc: Global,
        key: &str,
        text: &str,
    ) -> Result<(), WantOfMemory>
        ensures { OnOk result (members_view self.new.members.entries ≡ put_some key.now (spec.some_text text.now) (members_view self.old.members.entries)) }
    {
        if text.is_empty() {
            return Ok(());
        }
        self.put_text(alloc, key, text)
    }

    /// Puts a number.
    #[tactic(auto, unfolding(crate::specs::Objects::put_some))]
    pub fn put_number(&mut self, alloc: Global, key: &str, number: u64) -> Result<(), WantOfMemory>
        ensures { OnOk result (members_view self.new.members.entries ≡ put_some key.now (spec.whole number) (members_view self.old.members.entries)) }
    {
        self.put(alloc, key, Value::from(number))
    }

    /// Puts a number, unless it is 0.
    #[tactic(auto, unfolding(crate::specs::Objects::put_some))]
    pub fn put_some_number(
        &mut self,
        alloc: Global,
        key: &str,
        number: u64,
    ) -> Result<(), WantOfMemory>
        ensures { OnOk result (members_view self.new.members.entries ≡ put_some key.now (spec.some_whole number) (members_view self.old.members.entries)) }
    {
        if number == 0 {
            return Ok(());
        }
        self.put_number(alloc, key, number)
    }

    /// Puts true, or nothing.
    #[tactic(auto, unfolding(crate::specs::Objects::put_some))]
    pub fn put_flag(&mut self, alloc: Global, key: &str, flag: bool) -> Result<(), WantOfMemory>
        ensures { OnOk result (members_view self.new.members.entries ≡ put_some key.now (spec.flag flag) (members_view self.old.members.entries)) }
    {
        if flag {
            self.put(alloc, key, Value::Bool(true))
        } else {
            Ok(())
        }
    }

    /// Puts bytes as hexadecimal digits, unless there are none.
    #[tactic(auto, unfolding(crate::specs::Objects::put_some))]
    pub fn put_hex(&mut self, alloc: Global, key: &str, bytes: &[u8]) -> Result<(), WantOfMemory>
        ensures value { OnOk result (members_view self.new.members.entries ≡ put_some key.now (spec.hex bytes.now) (members_view self.old.members.entries)) }
        ensures bytes { IsTrue (are_bytes bytes.now) }
    {
        if bytes.is_empty() {
            return Ok(());
        }
        let text = hex::encode(alloc, bytes)?;
        self.put(alloc, key, Value::String(text))
    }

    /// Puts a list, unless it is empty.
    #[tactic(auto, unfolding(crate::specs::Objects::put_some))]
    pub fn put_list(
        &mut self,
        alloc: Global,
        key: &str,
        values: Vec<Value>,
    ) -> Result<(), WantOfMemory>
        ensures { OnOk result (members_view self.new.members.entries ≡ put_some key.now (spec.list (items_view values.items)) (members_view self.old.members.entries)) }
    {
        if values.as_slice().is_empty() {
            return Ok(());
        }
        self.put(alloc, key, Value::Array(values))
    }

    /// The whole object.
    pub fn into_value(self) -> Value
        ensures { view result ≡ object (members_view self.members.entries) }
    {
        Value::Object(self.members)
    }
}
