//! Copies of what a machine keeps of a participant. The bytes in them are shared.

ghost use Rattle.std.specs.Prelude.{◌≡◌, map, IfOk};
ghost use Rattle.sk_machine.specs.Machines.{kinds_of, first_values};

use sk_base::WantOfMemory;
use sk_msg::{Service, ServiceKind};
use sk_rules::{Actions, ScriptAction, ScriptRule, Var};
use std::alloc::Global;

/// The kinds of these services, in order.
pub(crate) fn kinds_of(
    alloc: Global,
    services: &[Service],
) -> Result<Vec<ServiceKind>, WantOfMemory>
    ensures { IfOk result (λ kinds. kinds.items ≡ kinds_of services.now) }
{
    let mut kinds = Vec::new(alloc);
    for service in services {
        kinds.push(service.kind)?;
    }
    Ok(kinds)
}

/// The values of these variables at first, in order.
pub(crate) fn first_values(alloc: Global, vars: &[Var]) -> Result<Vec<u64>, WantOfMemory>
    ensures { IfOk result (λ values. values.items ≡ first_values vars.now) }
{
    let mut values = Vec::new(alloc);
    for var in vars {
        values.push(var.value)?;
    }
    Ok(values)
}

/// The same rules again.
pub(crate) fn copy_rules(
    alloc: Global,
    rules: &[ScriptRule],
) -> Result<Vec<ScriptRule>, WantOfMemory>
    ensures { IfOk result (λ copies. copies.items ≡ rules.now) }
{
    let mut copies = Vec::new(alloc);
    for rule in rules {
        copies.push(copy_rule(alloc, rule)?)?;
    }
    Ok(copies)
}

/// The same rule again.
pub(crate) fn copy_rule(alloc: Global, rule: &ScriptRule) -> Result<ScriptRule, WantOfMemory>
    ensures { IfOk result (λ copy. copy ≡ rule.now) }
{
    let actions = copy_actions(alloc, rule.actions.as_slice())?;
    Ok(ScriptRule {
        when: rule.when,
        actions: Actions::new(actions),
    })
}

/// The same actions again.
pub(crate) fn copy_actions(
    alloc: Global,
    actions: &[ScriptAction],
) -> Result<Vec<ScriptAction>, WantOfMemory>
    ensures { IfOk result (λ copies. copies.items ≡ actions.now) }
{
    let mut copies = Vec::new(alloc);
    for action in actions {
        copies.push(copy_action(alloc, action)?)?;
    }
    Ok(copies)
}

/// The same action again.
fn copy_action(alloc: Global, action: &ScriptAction) -> Result<ScriptAction, WantOfMemory>
    ensures { IfOk result (λ copy. copy ≡ action.now) }
{
    Ok(match action {
        ScriptAction::Fixed(action) => ScriptAction::Fixed(action.copy(alloc)?),
        ScriptAction::Append(action, variable) => {
            ScriptAction::Append(action.copy(alloc)?, *variable)
        }
        ScriptAction::Reply {
            service,
            payload,
            append,
        } => ScriptAction::Reply {
            service: *service,
            payload: payload.copy(alloc)?,
            append: *append,
        },
        ScriptAction::Set(variable, value) => ScriptAction::Set(*variable, *value),
        ScriptAction::Add(variable, value) => ScriptAction::Add(*variable, *value),
        ScriptAction::Take(variable) => ScriptAction::Take(*variable),
    })
}
