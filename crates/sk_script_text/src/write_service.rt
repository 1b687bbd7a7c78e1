//! Writing services and variables.

ghost use Rattle.std.specs.Prelude.{◌≡◌, map, IfOk, OnOk, IsTrue};
ghost use Rattle.serde_json.specs.View.{view, items_view, members_view};
ghost use Rattle.sk_script.specs.Keys.{target_key, history_key, vars_key};
ghost use Rattle.sk_script_text.specs.Services as spec;
ghost use Rattle.sk_script_text.specs.Services.{label_data, service_data, var_field};
ghost use Rattle.sk_script_text.specs.Objects.{put_all, put_some, items};

use crate::object::Object;
use crate::word::{kind_word, label_word};
use serde_json::Value;
use sk_base::WantOfMemory;
use sk_msg::{Label, Service};
use sk_rules::Var;
use sk_script::keys::{HISTORY, KEY, KIND, LABELS, MEDIA, NAME, VALUE, VARS, is_bus, target};
use std::alloc::Global;

/// What is written of services.
pub fn service_values(alloc: Global, services: &[Service]) -> Result<Vec<Value>, WantOfMemory>
    ensures { IfOk result (λ values. items_view values.items ≡ items service_data services.now) }
{
    let mut values = Vec::with_capacity(alloc, services.len())?;
    for service in services {
        values.push(service_value(alloc, service)?)?;
    }
    Ok(values)
}

/// What is written of a service.
#[tactic(auto, unfolding(crate::specs::Services::service_data, crate::specs::Objects::with_fields))]
fn service_value(alloc: Global, service: &Service) -> Result<Value, WantOfMemory>
    ensures { IfOk result (λ value. view value ≡ service_data service.now) }
{
    let mut object = Object::new(alloc);
    object.put_text(alloc, KIND, kind_word(service.kind))?;
    object.put_text(alloc, NAME, service.name.as_str())?;
    put_target(alloc, &mut object, service)?;
    object.put_some_text(alloc, MEDIA, service.spec.media().as_str())?;
    object.put_list(alloc, LABELS, label_values(alloc, service.spec.labels())?)?;
    put_history(alloc, &mut object, service.history)?;
    Ok(object.into_value())
}

/// Puts what a service speaks of, unless it is a network that has the controller's name.
#[tactic(auto, unfolding(crate::specs::Objects::put_some))]
fn put_target(alloc: Global, object: &mut Object, service: &Service) -> Result<(), WantOfMemory>
    ensures { OnOk result (members_view object.new.members.entries ≡ put_some (target_key service.now.kind) (spec.target_data service.now) (members_view object.old.members.entries)) }
{
    let topic = service.spec.topic();
    if is_bus(service.kind) && topic.is(&service.name) {
        return Ok(());
    }
    object.put_text(alloc, target(service.kind), topic.as_str())
}

/// Puts that a publisher keeps its last publication, where it does.
#[tactic(auto, unfolding(crate::specs::Objects::put_some))]
fn put_history(alloc: Global, object: &mut Object, history: bool) -> Result<(), WantOfMemory>
    ensures { OnOk result (members_view object.new.members.entries ≡ put_some history_key (spec.history_data history) (members_view object.old.members.entries)) }
{
    if history {
        object.put_number(alloc, HISTORY, 1)
    } else {
        Ok(())
    }
}

/// What is written of labels.
fn label_values(alloc: Global, labels: &[Label]) -> Result<Vec<Value>, WantOfMemory>
    ensures { IfOk result (λ values. items_view values.items ≡ items label_data labels.now) }
{
    let mut values = Vec::with_capacity(alloc, labels.len())?;
    for label in labels {
        values.push(label_value(alloc, label)?)?;
    }
    Ok(values)
}

/// What is written of a label.
#[tactic(auto, unfolding(crate::specs::Services::label_data, crate::specs::Objects::with_fields))]
fn label_value(alloc: Global, label: &Label) -> Result<Value, WantOfMemory>
    ensures { IfOk result (λ value. view value ≡ label_data label.now) }
{
    let mut object = Object::new(alloc);
    object.put_text(alloc, KEY, label.key.as_str())?;
    object.put_text(alloc, KIND, label_word(label.kind))?;
    object.put_text(alloc, VALUE, label.value.as_str())?;
    Ok(object.into_value())
}

/// Puts variables, unless there are none.
#[tactic(auto, unfolding(crate::specs::Objects::put_some, crate::specs::Objects::with_fields))]
pub fn put_vars(alloc: Global, object: &mut Object, vars: &[Var]) -> Result<(), WantOfMemory>
    ensures { OnOk result (members_view object.new.members.entries ≡ put_some vars_key (spec.vars_data vars.now) (members_view object.old.members.entries)) }
{
    if vars.is_empty() {
        return Ok(());
    }
    let mut members = Object::new(alloc);
    put_each(alloc, &mut members, vars)?;
    object.put(alloc, VARS, members.into_value())
}

/// Puts each of these variables.
fn put_each(alloc: Global, object: &mut Object, vars: &[Var]) -> Result<(), WantOfMemory>
    ensures { OnOk result (members_view object.new.members.entries ≡ put_all (map var_field vars.now) (members_view object.old.members.entries)) }
{
    for var in vars {
        object.put_number(alloc, var.name.as_str(), var.value)?;
    }
    Ok(())
}
