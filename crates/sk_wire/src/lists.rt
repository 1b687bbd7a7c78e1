//! Lists: a count of one byte and so many items, each read and beside it written.

ghost use Rattle.std.specs.Prelude.{◌≤◌, [], length, IfOk, IsTrue};
ghost use Rattle.std.specs.List.{flat_map};
ghost use Rattle.sk_msg.specs.Each.{each_after};
ghost use Rattle.sk_msg.specs.Specs.{is_newly_keyed, are_labels};
ghost use Rattle.sk_wire.specs.Reading.{Gives};
ghost use Rattle.sk_wire.specs.Fields.{items_at};
ghost use Rattle.sk_wire.specs.Kinds as kinds;
ghost use Rattle.sk_wire.specs.Puts.{Puts};

use crate::choices::put_label_kind;
use crate::fault::ReadError;
use crate::fields::{put_name, put_text};
use crate::numbers::{Cursor, bad_field, put_u8};
use sk_base::{Name, WantOfMemory};
use sk_msg::rules::{is_label_count, is_new_key, is_new_name, is_required_count};
use sk_msg::{Label, Names};
use std::alloc::Global;

impl<'a> Cursor<'a> {
    /// A label whose key stands in none of these.
    fn new_label(&mut self, alloc: Global, labels: &[Label]) -> Result<Label, ReadError>
        ensures read { Gives (λ label. (label, self.new)) result ((kinds.new_label labels.now).at self.old) }
        ensures new { IfOk result (λ label. IsTrue (is_newly_keyed labels.now label)) }
    {
        let left = self.left();
        let key = self.name(alloc)?;
        if !is_new_key(labels, &key) {
            return Err(bad_field(left));
        }
        let value = self.text(alloc)?;
        let kind = self.label_kind()?;
        Ok(Label { key, value, kind })
    }

    /// So many labels of distinct keys.
    fn new_labels(&mut self, alloc: Global, count: u8) -> Result<Vec<Label>, ReadError>
        ensures read { Gives (λ labels. (labels.items, self.new)) result (items_at kinds.new_label count [] self.old) }
        ensures few { IfOk result (λ labels. length labels.items ≤ count) }
        ensures distinct { IfOk result (λ labels. IsTrue (each_after is_newly_keyed [] labels.items)) }
    {
        let mut labels = Vec::new(alloc);
        for _ in 0..count {
            let label = self.new_label(alloc, &labels)?;
            labels.push(label)?;
        }
        Ok(labels)
    }

    /// The labels of a service: at most 16, of distinct keys.
    #[tactic(auto, using(crate::proofs::PutLaws::in_range), unfolding(crate::specs::Kinds::labels))]
    pub fn labels(&mut self, alloc: Global) -> Result<Vec<Label>, ReadError>
        ensures read { Gives (λ labels. (labels.items, self.new)) result (kinds.labels.at self.old) }
        ensures rules { IfOk result (λ labels. IsTrue (are_labels labels.items)) }
    {
        let left = self.left();
        let count = self.u8()?;
        if !is_label_count(count) {
            return Err(bad_field(left));
        }
        self.new_labels(alloc, count)
    }
}

/// Appends a label: its key, its value and its kind.
#[tactic(auto, using(crate::proofs::PutLaws::puts))]
fn put_label(to: &mut Vec<u8>, label: &Label) -> Result<(), WantOfMemory>
    ensures { Puts result to.old.items to.new.items ((kinds.new_label []).spelling label.now) }
{
    put_name(to, &label.key)?;
    put_text(to, &label.value)?;
    put_label_kind(to, label.kind)
}

/// Appends labels one behind another, without their count.
#[tactic(auto, using(crate::proofs::PutLaws::puts))]
fn put_each_label(to: &mut Vec<u8>, labels: &[Label]) -> Result<(), WantOfMemory>
    ensures { Puts result to.old.items to.new.items (flat_map (kinds.new_label []).spelling labels.now) }
{
    for label in labels {
        put_label(to, label)?;
    }
    Ok(())
}

/// Appends the labels of a service, at most 16, behind their count.
#[tactic(auto, using(crate::proofs::PutLaws::puts), unfolding(crate::specs::Kinds::labels))]
pub fn put_labels(to: &mut Vec<u8>, labels: &[Label]) -> Result<(), WantOfMemory>
    requires { length labels.now ≤ 16 }
    ensures { Puts result to.old.items to.new.items (kinds.labels.spelling labels.now) }
{
    put_u8(to, labels.len() as u8)?;
    put_each_label(to, labels)
}

impl<'a> Cursor<'a> {
    /// A name that stands among none of these.
    fn new_name(&mut self, alloc: Global, names: &[Name]) -> Result<Name, ReadError>
        ensures { Gives (λ name. (name, self.new)) result ((kinds.new_name names.now).at self.old) }
    {
        let left = self.left();
        let name = self.name(alloc)?;
        if is_new_name(names, &name) {
            Ok(name)
        } else {
            Err(bad_field(left))
        }
    }

    /// So many distinct names.
    fn new_names(&mut self, alloc: Global, count: u8) -> Result<Vec<Name>, ReadError>
        ensures { Gives (λ names. (names.items, self.new)) result (items_at kinds.new_name count [] self.old) }
    {
        let mut names = Vec::new(alloc);
        for _ in 0..count {
            let name = self.new_name(alloc, &names)?;
            names.push(name)?;
        }
        Ok(names)
    }

    /// The required names of a workflow: 1 to 32, distinct.
    #[tactic(auto, unfolding(crate::specs::Kinds::required_names))]
    pub fn required_names(&mut self, alloc: Global) -> Result<Names, ReadError>
        ensures { Gives (λ names. (names, self.new)) result (kinds.required_names.at self.old) }
    {
        let left = self.left();
        let count = self.u8()?;
        if !is_required_count(count) {
            return Err(bad_field(left));
        }
        let names = self.new_names(alloc, count)?;
        Ok(Names::new(names))
    }
}

/// Appends names one behind another, without their count.
#[tactic(auto, using(crate::proofs::PutLaws::puts))]
fn put_names(to: &mut Vec<u8>, names: &[Name]) -> Result<(), WantOfMemory>
    ensures { Puts result to.old.items to.new.items (flat_map kinds.name.spelling names.now) }
{
    for name in names {
        put_name(to, name)?;
    }
    Ok(())
}

/// Appends the required names of a workflow, at most 32, behind their count.
#[tactic(auto, using(crate::proofs::PutLaws::puts), unfolding(crate::specs::Kinds::required_names))]
pub fn put_required_names(to: &mut Vec<u8>, names: &Names) -> Result<(), WantOfMemory>
    requires { length names.now ≤ 32 }
    ensures { Puts result to.old.items to.new.items (kinds.required_names.spelling names.now) }
{
    let names = names.as_slice();
    put_u8(to, names.len() as u8)?;
    put_names(to, names)
}
