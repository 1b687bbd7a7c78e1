//! What several participants must keep together.

ghost use Rattle.std.specs.Prelude.{◌≡◌, [], ◌≤◌, length, IfOk, IfSome, IsTrue};
ghost use Rattle.sk_msg.specs.Each.{each_after};
ghost use Rattle.sk_msg.specs.Rules.{is_new_name};
ghost use Rattle.sk_rules.specs.Orders.{are_sorted};
ghost use Rattle.sk_rules.specs.Outcome.{Answers};
ghost use Rattle.sk_script.specs.Scenarios as spec;
ghost use Rattle.sk_script.specs.Scenarios.{are_required, names_of};
ghost use Rattle.sk_script.specs.Reading.{names_differ, all_coordinated, required_of};

use crate::keys::NAME;
use crate::scenario::{Part, PartRead};
use sk_base::{Name, WantOfMemory};
use sk_config::Path;
use sk_msg::Names;
use sk_rules::{Rule, ScenarioFault};
use std::alloc::Global;

/// Whether no two of the participants at this path have one name.
pub fn are_distinct(alloc: Global, at: &Path, reads: &[PartRead]) -> Result<(), ScenarioFault>
    ensures { Answers (names_differ at.now [] 0 reads.now) result }
{
    for (index, one) in reads.iter().enumerate() {
        if has_name(&reads[..index], &one.part.name) {
            let path = at.index(alloc, index)?.key(alloc, NAME)?;
            return Err(ScenarioFault::Refused(path, Rule::NameTaken));
        }
    }
    Ok(())
}

/// Whether one of these participants has the name.
#[tactic(auto, unfolding(crate::specs::Scenarios::has_name))]
fn has_name(reads: &[PartRead], name: &Name) -> bool
    ensures { result ≡ spec.has_name reads.now name.now }
{
    reads.iter().any(|read| read.part.name.is(name))
}

/// The required names: those at this path, each of which has to be that of a coordinated
/// participant, or else those of all coordinated participants.
pub fn required_names(
    alloc: Global,
    at: &Path,
    parts: &[Part],
    given: Option<Names>,
) -> Result<Names, ScenarioFault>
    ensures { Answers (required_of at.now parts.now given) result }
{
    match given {
        Some(names) => {
            are_coordinated(alloc, at, parts, names.as_slice())?;
            Ok(names)
        }
        None => Ok(Names::new(coordinated_names(alloc, parts)?)),
    }
}

/// Whether each of the names at this path is that of a coordinated participant.
fn are_coordinated(
    alloc: Global,
    at: &Path,
    parts: &[Part],
    names: &[Name],
) -> Result<(), ScenarioFault>
    ensures { Answers (all_coordinated at.now parts.now 0 names.now) result }
{
    for (index, name) in names.iter().enumerate() {
        if !is_coordinated_in(parts, name) {
            let path = at.index(alloc, index)?;
            return Err(ScenarioFault::Refused(path, Rule::NoSuchParticipant));
        }
    }
    Ok(())
}

/// Whether one of these participants has the name and is coordinated.
#[tactic(auto, unfolding(crate::specs::Scenarios::is_coordinated_in))]
fn is_coordinated_in(parts: &[Part], name: &Name) -> bool
    ensures { result ≡ spec.is_coordinated_in parts.now name.now }
{
    parts
        .iter()
        .any(|part| part.coordinated && part.name.is(name))
}

/// The names of those of these participants that are coordinated.
pub fn coordinated_names(alloc: Global, parts: &[Part]) -> Result<Vec<Name>, WantOfMemory>
    ensures { IfOk result (λ names. names.items ≡ spec.coordinated_names parts.now) }
{
    let mut names = Vec::new(alloc);
    for part in parts {
        if part.coordinated {
            names.push(part.name.copy(alloc)?)?;
        }
    }
    Ok(names)
}
