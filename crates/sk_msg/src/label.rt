//! Labels, by which publishers and subscribers of one topic are told apart.

ghost use Rattle.std.specs.Prelude.{◌≡◌, IfOk};

use sk_base::{Name, Text, WantOfMemory};
use std::alloc::Global;

/// Whether the other side needs the label.
#[derive(Clone, Copy, Debug, PartialEq, Eq)]
pub enum LabelKind {
    /// Where the other side has the key, it has this value.
    Optional,
    /// The other side has the key with this value.
    Mandatory,
}

/// A key with a value.
#[derive(Debug, Drop)]
pub struct Label {
    /// What the label is about. The labels of one service have distinct keys.
    pub key: Name,
    /// What it says of it.
    pub value: Text,
    /// Whether the other side needs it.
    pub kind: LabelKind,
}

impl Label {
    /// The same label again.
    pub fn copy(&self, alloc: Global) -> Result<Label, WantOfMemory>
        ensures { IfOk result (λ copy. copy ≡ self.now) }
    {
        Ok(Label {
            key: self.key.copy(alloc)?,
            value: self.value.copy(alloc)?,
            kind: self.kind,
        })
    }
}

/// The same labels again.
pub fn copy_labels(alloc: Global, labels: &[Label]) -> Result<Vec<Label>, WantOfMemory>
    ensures { IfOk result (λ copies. copies.items ≡ labels.now) }
{
    let mut copies = Vec::new(alloc);
    for label in labels {
        copies.push(label.copy(alloc)?)?;
    }
    Ok(copies)
}
