//! What a service speaks of: its topic, its media type and its labels.

ghost use Rattle.std.specs.Prelude.{◌≡◌, [], Some, None, IsTrue, IfOk, MatchResult};
ghost use Rattle.sk_msg.specs.Specs.{are_labels, double_key, spec_fault};

use crate::label::{Label, copy_labels};
use crate::rules::is_new_key;
use sk_base::limits::MOST_LABELS;
use sk_base::{Name, Text, WantOfMemory};
use std::alloc::Global;
use std::marker::Model;

/// A topic, a media type and at most 16 labels of distinct keys. The specification of a bus
/// controller has its network as topic, an empty media type and no labels.
#[derive(Debug, Drop)]
pub struct Spec {
    topic: Name,
    media: Text,
    labels: Vec<Label>,
}

impl Model for Spec {
    ghost use Rattle.std.specs.Prelude.{IsTrue};
    ghost use Rattle.sk_msg.specs.Specs.{SpecValue, are_labels};

    ghost Value = { SpecValue };

    ghost view = { λ s. record { topic = s.topic; media = s.media; labels = s.labels.items } };

    ghost invariant = { λ s. IsTrue (are_labels s.labels.items) };
}

/// Why labels are those of no [`Spec`].
#[derive(Clone, Copy, Debug, PartialEq, Eq)]
pub enum SpecFault {
    /// Over 16; with how many there are.
    TooMany(usize),
    /// A key stands twice; with the index of the later label, the first such one.
    DoubleKey(usize),
}

impl Spec {
    /// The specification, or the first reason against its labels: too many, then a double key.
    pub fn new(topic: Name, media: Text, labels: Vec<Label>) -> Result<Spec, SpecFault>
        ensures { MatchResult result
            (λ spec. (spec ≡ record { topic = topic; media = media; labels = labels.items }) × (spec_fault labels.items ≡ None))
            (λ fault. spec_fault labels.items ≡ Some fault) }
    {
        if let Some(fault) = fault_of(&labels) {
            return Err(fault);
        }
        Ok(Spec {
            topic,
            media,
            labels,
        })
    }

    /// The specification with labels that are known to be in order.
    pub fn with_labels(topic: Name, media: Text, labels: Vec<Label>) -> Spec
        requires { IsTrue (are_labels labels.items) }
        ensures { result ≡ record { topic = topic; media = media; labels = labels.items } }
    {
        Spec {
            topic,
            media,
            labels,
        }
    }

    /// The topic, or the network of a bus controller.
    pub fn topic(&self) -> &Name
        ensures { result.now ≡ self.now.topic }
    {
        &self.topic
    }

    /// The media type; empty with a bus controller.
    pub fn media(&self) -> &Text
        ensures { result.now ≡ self.now.media }
    {
        &self.media
    }

    /// The labels in order: at most 16, of distinct keys.
    pub fn labels(&self) -> &[Label]
        ensures value { result.now ≡ self.now.labels }
        ensures rules { IsTrue (are_labels self.now.labels) }
    {
        self.labels.as_slice()
    }

    /// The same specification again.
    pub fn copy(&self, alloc: Global) -> Result<Spec, WantOfMemory>
        ensures { IfOk result (λ copy. copy ≡ self.now) }
    {
        Ok(Spec {
            topic: self.topic.copy(alloc)?,
            media: self.media.copy(alloc)?,
            labels: copy_labels(alloc, &self.labels)?,
        })
    }
}

/// The first reason against these labels.
#[tactic(auto, using(crate::proofs::LabelLaws::judged))]
fn fault_of(labels: &[Label]) -> Option<SpecFault>
    ensures value { result ≡ spec_fault labels.now }
    ensures fine { result ≡ None → IsTrue (are_labels labels.now) }
{
    if labels.len() > MOST_LABELS {
        return Some(SpecFault::TooMany(labels.len()));
    }
    match first_double(labels) {
        Some(at) => Some(SpecFault::DoubleKey(at)),
        None => None,
    }
}

/// The index of the first label whose key stands in an earlier one.
fn first_double(labels: &[Label]) -> Option<usize>
    ensures { result ≡ double_key [] 0 labels.now }
{
    for at in 0..labels.len() {
        let (before, from) = labels.split_at(at);
        if let Some(label) = from.first() {
            if !is_new_key(before, &label.key) {
                return Some(at);
            }
        }
    }
    None
}
