//! Rules by their services.

ghost use Rattle.std.specs.Prelude.{◌≡◌, [], slice_index_or, IfOk, IsTrue};
ghost use Rattle.std.specs.List.{list_all};
ghost use Rattle.sk_machine.specs.Index as spec;
ghost use Rattle.sk_machine.specs.Sound.{is_sound};

use crate::cause::is_of;
use crate::copies::copy_rule;
use sk_base::WantOfMemory;
use sk_rules::{Rules, ScriptRule};
use std::alloc::Global;

/// The rules of each of so many services, by their numbers.
pub(crate) fn by_service(
    alloc: Global,
    count: usize,
    rules: &[ScriptRule],
) -> Result<Vec<Rules>, WantOfMemory>
    ensures { IfOk result (λ on. on.items ≡ spec.by_service count rules.now) }
{
    let mut on = Vec::new(alloc);
    for service in 0..count {
        on.push(Rules::new(rules_of(alloc, rules, service)?))?;
    }
    Ok(on)
}

/// The rules of this service, in order.
fn rules_of(
    alloc: Global,
    rules: &[ScriptRule],
    service: usize,
) -> Result<Vec<ScriptRule>, WantOfMemory>
    ensures { IfOk result (λ own. own.items ≡ spec.rules_of rules.now service) }
{
    let mut own = Vec::new(alloc);
    for rule in rules {
        if is_of(service, rule.when) {
            own.push(copy_rule(alloc, rule)?)?;
        }
    }
    Ok(own)
}

/// The rules of the service of this number. Where there is no such service there are none.
pub(crate) fn rules_at(on: &[Rules], service: u32) -> &[ScriptRule]
    requires sound { IsTrue (list_all (λ own. list_all is_sound own) on.now) }
    ensures value { result.now ≡ slice_index_or on.now service [] }
    ensures sound { IsTrue (list_all is_sound result.now) }
{
    match on.get(service as usize) {
        Some(rules) => rules.as_slice(),
        None => &[],
    }
}
