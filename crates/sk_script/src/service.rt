//! Reading services: from JSON to what a participant offers and wants, or the first fault.

ghost use Rattle.std.specs.Prelude.{◌≡◌, ◌≤◌, ◌<◌, ℕ, [], List, Option, Ok, not, length, unwrap_or, IfOk, IsTrue};
ghost use Rattle.std.specs.List.{list_any};
ghost use Rattle.std.specs.Str.{bytes_eq};
ghost use Rattle.serde_json.specs.View.{view, items_view};
ghost use Rattle.sk_base.specs.Ranges.{is_name};
ghost use Rattle.sk_msg.specs.Specs.{is_new_key, are_labels as are_spec_labels};
ghost use Rattle.sk_rules.specs.Outcome.{Answers, AnswersAs};
ghost use Rattle.sk_script.specs.Services as spec;

use crate::keys::{
    HISTORY, KEY, KIND, LABELS, MEDIA, NAME, NETWORK, Object, VALUE, has_history, is_bus, target,
};
use serde_json::Value;
use sk_base::limits::MOST_LABELS;
use sk_base::{Name, Text, WantOfMemory};
use sk_config::Path;
use sk_msg::rules::is_new_key;
use sk_msg::{Label, LabelKind, Service, ServiceKind, Spec};
use sk_rules::{ReadItem, Rule, ScenarioFault, Word, field, read_items};
use std::alloc::Global;

/// A reader of labels.
#[derive(Drop)]
struct LabelReader;

impl ReadItem for LabelReader {
    type Item = Label;

    ghost meaning = { λ _. spec.label_read };

    fn read(
        &self,
        alloc: Global,
        at: &Path,
        earlier: &[Label],
        value: &Value,
    ) -> Result<Label, ScenarioFault> {
        read_label(alloc, at, earlier, value)
    }
}

/// The label that this value is, behind these.
#[tactic(auto, unfolding(crate::specs::Services::label_read))]
fn read_label(
    alloc: Global,
    at: &Path,
    earlier: &[Label],
    value: &Value,
) -> Result<Label, ScenarioFault>
    ensures { Answers (spec.label_read at.now earlier.now (view value.now)) result }
{
    field::enter(alloc, &Object::Label, at, value)?;
    let key = field::needed_name(alloc, at, KEY, value)?;
    if !is_new_key(earlier, &key) {
        return Err(field::refused(alloc, at, KEY, Rule::NameTaken));
    }
    let said = field::needed_text(alloc, at, VALUE, value)?;
    let kind = field::needed_word::<LabelKind>(alloc, at, KIND, value)?;
    Ok(Label {
        key,
        value: said,
        kind,
    })
}

/// The labels of a service.
#[tactic(auto, unfolding(crate::specs::Services::labels_read))]
fn read_labels(alloc: Global, at: &Path, object: &Value) -> Result<Vec<Label>, ScenarioFault>
    ensures { AnswersAs (λ labels. labels.items) (spec.labels_read at.now (view object.now)) result }
{
    let Some(items) = field::list_at(alloc, at, LABELS, object, 0, MOST_LABELS)? else {
        return Ok(Vec::new(alloc));
    };
    let path = at.key(alloc, LABELS)?;
    read_items(alloc, &LabelReader, &path, items)
}

/// The services that these values are.
#[tactic(auto, unfolding(crate::specs::Services::services_in))]
pub fn read_services(
    alloc: Global,
    at: &Path,
    items: &[Value],
) -> Result<Vec<Service>, ScenarioFault>
    requires few { length items.now ≤ 64 }
    ensures { AnswersAs (λ services. services.items) (spec.services_in at.now (items_view items.now)) result }
{
    let mut services = Vec::new(alloc);
    for (index, item) in items.iter().enumerate() {
        let place = at.index(alloc, index)?;
        let service = read_service(alloc, &place, &services, item)?;
        services.push(service)?;
    }
    Ok(services)
}

/// The service that this value is, behind these.
#[tactic(auto, unfolding(crate::specs::Services::service_read))]
fn read_service(
    alloc: Global,
    at: &Path,
    earlier: &[Service],
    value: &Value,
) -> Result<Service, ScenarioFault>
    requires few { length earlier.now < 64 }
    ensures { Answers (spec.service_read at.now earlier.now (view value.now)) result }
{
    field::enter(alloc, &object_of(kind_in(value)), at, value)?;
    let kind = field::needed_word::<ServiceKind>(alloc, at, KIND, value)?;
    let name = read_name(alloc, at, earlier, value)?;
    let spec = read_spec(alloc, at, kind, &name, value)?;
    let history = read_history(alloc, at, kind, value)?;
    Ok(Service {
        id: earlier.len() as u32,
        kind,
        name,
        spec,
        history,
    })
}

/// The kind that a service says, if it says one.
#[tactic(auto, unfolding(crate::specs::Services::kind_in))]
fn kind_in(object: &Value) -> Option<ServiceKind>
    ensures { result ≡ spec.kind_in (view object.now) }
{
    let value = object.get(KIND)?;
    let word = value.as_str()?;
    ServiceKind::from_word(word)
}

/// Which keys a service may have: those of its kind, or where it says none those of all kinds.
fn object_of(kind: Option<ServiceKind>) -> Object
    ensures { result ≡ spec.object_of kind }
{
    match kind {
        Some(kind) => Object::Service(kind),
        None => Object::AnyService,
    }
}

/// The name of a service, which none of these has.
#[tactic(auto, unfolding(crate::specs::Services::new_name_read))]
fn read_name(
    alloc: Global,
    at: &Path,
    earlier: &[Service],
    object: &Value,
) -> Result<Name, ScenarioFault>
    ensures { Answers (spec.new_name_read earlier.now at.now (view object.now)) result }
{
    let name = field::needed_name(alloc, at, NAME, object)?;
    if has_name(earlier, &name) {
        return Err(field::refused(alloc, at, NAME, Rule::NameTaken));
    }
    Ok(name)
}

/// Whether one of these has the name.
fn has_name(services: &[Service], name: &Name) -> bool
    ensures { result ≡ list_any (λ other. bytes_eq other.name name.now) services.now }
{
    services.iter().any(|other| other.name.is(name))
}

/// What a service of this kind and name speaks of.
fn read_spec(
    alloc: Global,
    at: &Path,
    kind: ServiceKind,
    name: &Name,
    object: &Value,
) -> Result<Spec, ScenarioFault>
    ensures { Answers (spec.spec_read kind name.now at.now (view object.now)) result }
{
    if is_bus(kind) {
        read_bus_spec(alloc, at, name, object)
    } else {
        read_full_spec(alloc, at, kind, object)
    }
}

/// The network of a controller of this name.
#[tactic(auto, unfolding(crate::specs::Services::bus_spec_read))]
fn read_bus_spec(
    alloc: Global,
    at: &Path,
    name: &Name,
    object: &Value,
) -> Result<Spec, ScenarioFault>
    ensures { Answers (spec.bus_spec_read name.now at.now (view object.now)) result }
{
    let network = read_network(alloc, at, name, object)?;
    let media = no_text(alloc)?;
    Ok(Spec::with_labels(network, media, Vec::new(alloc)))
}

/// The network of a controller, by default its name.
#[tactic(auto, unfolding(crate::specs::Services::network_read))]
fn read_network(
    alloc: Global,
    at: &Path,
    name: &Name,
    object: &Value,
) -> Result<Name, ScenarioFault>
    ensures { Answers (spec.network_read name.now at.now (view object.now)) result }
{
    match field::name_at(alloc, at, NETWORK, object)? {
        Some(network) => Ok(network),
        None => Ok(name.copy(alloc)?),
    }
}

/// What a service that is no controller speaks of.
#[tactic(auto, unfolding(crate::specs::Services::full_spec_read))]
fn read_full_spec(
    alloc: Global,
    at: &Path,
    kind: ServiceKind,
    object: &Value,
) -> Result<Spec, ScenarioFault>
    ensures { Answers (spec.full_spec_read kind at.now (view object.now)) result }
{
    let topic = field::needed_name(alloc, at, target(kind), object)?;
    let media = read_media(alloc, at, object)?;
    let labels = read_labels(alloc, at, object)?;
    Ok(Spec::with_labels(topic, media, labels))
}

/// The media type, empty by default.
#[tactic(auto, unfolding(crate::specs::Services::media_read))]
fn read_media(alloc: Global, at: &Path, object: &Value) -> Result<Text, ScenarioFault>
    ensures { Answers (spec.media_read at.now (view object.now)) result }
{
    match field::text_at(alloc, at, MEDIA, object)? {
        Some(media) => Ok(media),
        None => Ok(no_text(alloc)?),
    }
}

/// The empty text.
pub(crate) fn no_text(alloc: Global) -> Result<Text, WantOfMemory>
    ensures { IfOk result (λ text. text ≡ []) }
{
    match Text::from_utf8(alloc, "".as_bytes())? {
        Some(text) => Ok(text),
        None => unreachable!(),
    }
}

/// Whether a service of this kind keeps its last publication.
fn read_history(
    alloc: Global,
    at: &Path,
    kind: ServiceKind,
    object: &Value,
) -> Result<bool, ScenarioFault>
    ensures { Answers (spec.history_read kind at.now (view object.now)) result }
{
    if has_history(kind) {
        read_history_of_publisher(alloc, at, object)
    } else {
        Ok(false)
    }
}

/// Whether a publisher keeps its last publication: by default it doesn't.
#[tactic(auto, unfolding(crate::specs::Services::history_given))]
fn read_history_of_publisher(
    alloc: Global,
    at: &Path,
    object: &Value,
) -> Result<bool, ScenarioFault>
    ensures { Answers (spec.history_given at.now (view object.now)) result }
{
    let given = field::number_at(alloc, at, HISTORY, object, 0, 1)?;
    Ok(given.unwrap_or(0) == 1)
}
