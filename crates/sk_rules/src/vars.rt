//! The variables of a participant.

ghost use Rattle.std.specs.Prelude.{◌≡◌, [], ◌∷◌, IfOk, IsTrue, position, List};
ghost use Rattle.std.specs.Str.{bytes_eq};
ghost use Rattle.serde_json.specs.View.{view, members_view};
ghost use Rattle.sk_rules.specs.Outcome.{Answers, AnswersAs};
ghost use Rattle.sk_rules.specs.Vars as spec;
ghost use Rattle.sk_rules.specs.Vars.{are_vars, vars_read, vars_in, var_read};

use crate::fault::{Rule, ScenarioFault};
use crate::field;
use serde_json::{Map, Value};
use sk_base::{Name, WantOfMemory};
use sk_config::Path;
use std::alloc::Global;
use std::marker::Model;

/// The most variables of one participant: each is looked up among them by its name. More are a fault
/// of the file.
pub const MOST_VARIABLES: usize = 64;

/// A variable: 64 bits that the actions of a script set and add to.
#[derive(Debug, Drop)]
pub struct Var {
    /// Its name. No other variable of the participant has it.
    pub name: Name,
    /// Its value at first.
    pub value: u64,
}

/// The variables of a participant: at most 64, in the byte order of their names. Contracts see the
/// list.
#[derive(Debug, Drop)]
pub struct Vars {
    vars: Vec<Var>,
}

impl Model for Vars {
    ghost use Rattle.std.specs.Prelude.{IsTrue, List};
    ghost use Rattle.sk_rules.specs.Vars.{are_vars, vars_read, vars_in, var_read};
    ghost use Rattle.sk_rules.specs.declared.vars.Var.{Var};

    ghost Value = { List Var };

    ghost view = { λ vars. vars.vars.items };

    ghost invariant = { λ vars. IsTrue (are_vars vars.vars.items) };
}

impl Vars {
    /// No variables.
    pub fn none(alloc: Global) -> Vars
        ensures { result ≡ [] }
    {
        Vars {
            vars: Vec::new(alloc),
        }
    }

    /// One variable.
    #[tactic(auto, unfolding(crate::specs::Vars::are_vars, crate::specs::Vars::is_var))]
    pub fn one(alloc: Global, var: Var) -> Result<Vars, WantOfMemory>
        ensures { IfOk result (λ vars. vars ≡ var ∷ []) }
    {
        let _ = var.name.as_str();
        let mut vars = Vec::new(alloc);
        vars.push(var)?;
        Ok(Vars { vars })
    }

    /// The variables in order.
    pub fn as_slice(&self) -> &[Var]
        ensures value { result.now ≡ self.now }
        ensures rules { IsTrue (are_vars self.now) }
    {
        self.vars.as_slice()
    }

    /// The place of the variable of this name.
    pub fn position(&self, name: &str) -> Option<u32>
        ensures { result ≡ position (λ var. bytes_eq var.name name.now) self.now }
    {
        let place = position_of(&self.vars, name)?;
        Some(place as u32)
    }
}

/// The place of the variable of this name.
fn position_of(vars: &[Var], name: &str) -> Option<usize>
    ensures { result ≡ position (λ var. bytes_eq var.name name.now) vars.now }
{
    vars.iter().position(|var| var.name.as_str() == name)
}

/// Reads the variables that this value is: an object from names to numbers.
#[tactic(auto, unfolding(crate::specs::Vars::vars_read))]
pub fn read_vars(alloc: Global, at: &Path, value: &Value) -> Result<Vars, ScenarioFault>
    ensures value { Answers (vars_read at.now (view value.now)) result }
    ensures rules { IfOk result (λ vars. IsTrue (are_vars vars)) }
{
    let Some(members) = value.as_object() else {
        return Err(field::refused_at(alloc, at, Rule::WrongType));
    };
    if members.len() > MOST_VARIABLES {
        return Err(field::refused_at(alloc, at, Rule::OutOfRange));
    }
    let vars = read_members(alloc, at, members)?;
    Ok(Vars { vars })
}

/// The variables that these members are.
fn read_members(
    alloc: Global,
    at: &Path,
    members: &Map<String, Value>,
) -> Result<Vec<Var>, ScenarioFault>
    ensures { AnswersAs (λ vars. vars.items) (vars_in at.now [] (members_view members.now.entries)) result }
{
    let mut vars = Vec::new(alloc);
    for (key, value) in members {
        vars.push(read_var(alloc, at, key.as_str(), value)?)?;
    }
    Ok(vars)
}

/// The variable that a member of this key and value is.
fn read_var(alloc: Global, at: &Path, key: &str, value: &Value) -> Result<Var, ScenarioFault>
    ensures { Answers (var_read at.now key.now (view value.now)) result }
{
    let Some(name) = Name::from_utf8(alloc, key.as_bytes())? else {
        return Err(field::refused(alloc, at, key, Rule::BadText));
    };
    let Some(value) = value.as_u64() else {
        return Err(field::refused(alloc, at, key, Rule::WrongType));
    };
    Ok(Var { name, value })
}
