//! Whom the simulation needs, by their numbers.

ghost use Rattle.std.specs.Prelude.{◌≡◌, ◌≤◌, ◌<◌, ◌^◌, ◌++◌, IfOk, IfSome, length, position, option_copied};
ghost use Rattle.std.specs.List.{list_any};
ghost use Rattle.std.specs.Option.{option_map};
ghost use Rattle.std.specs.Str.{bytes_eq};
ghost use Rattle.sk_law.specs.Links.{own_name};
ghost use Rattle.sk_law.specs.Tied.{numbered, with_required, needed_of};

use crate::Setup;
use sk_base::{Name, WantOfMemory};
use sk_msg::Names;
use sk_system::SystemView;
use std::alloc::Global;
use std::marker::Model;

/// Whom the simulation needs.
#[derive(Debug, Drop)]
pub(crate) struct Needed {
    /// Their numbers; none of a name that is no participant.
    numbers: Vec<Option<u32>>,
    /// Whether the own name is among them.
    own: bool,
}

impl Model for Needed {
    ghost use Rattle.sk_law.specs.Tied.{Needed};

    ghost Value = { Needed };

    ghost view = { λ needed. record { numbers = needed.numbers.items; own = needed.own } };
}

/// These names are needed, if any are told.
pub(crate) fn find_needed(
    alloc: Global,
    setup: &Setup,
    names: Option<&Names>,
) -> Result<Option<Needed>, WantOfMemory>
    requires own { setup.now.number < length setup.now.names }
    requires few { length setup.now.names ≤ 32 }
    ensures { IfOk result (λ needed. needed ≡ option_map (needed_of setup.now) (option_copied names.entry)) }
{
    match names {
        Some(names) => {
            let numbers = numbered(alloc, &setup.names, names)?;
            let own = is_among(own_name(setup), names);
            Ok(Some(Needed { numbers, own }))
        }
        None => Ok(None),
    }
}

/// They are needed from now on; whether the own name is among them.
pub(crate) fn require(view: &mut SystemView, needed: Option<Needed>) -> Option<bool>
    ensures view { view.new ≡ with_required (option_map (λ n. n.numbers) needed) view.old }
    ensures own { result ≡ option_map (λ n. n.own) needed }
{
    match needed {
        Some(needed) => {
            view.set_required(needed.numbers);
            Some(needed.own)
        }
        None => None,
    }
}

/// The name of the participant.
fn own_name(setup: &Setup) -> &Name
    requires { setup.now.number < length setup.now.names }
    ensures { result.now ≡ own_name setup.now }
{
    &setup.names.as_slice()[setup.number as usize]
}

/// Whether the name is among these.
fn is_among(name: &Name, names: &Names) -> bool
    ensures { result ≡ list_any (bytes_eq name.now) names.now }
{
    names.as_slice().iter().any(|other| name.is(other))
}

/// These names by their numbers.
fn numbered(alloc: Global, all: &Names, names: &Names) -> Result<Vec<Option<u32>>, WantOfMemory>
    requires few { length all.now ≤ 32 }
    ensures { IfOk result (λ numbers. numbers.items ≡ numbered all.now names.now) }
{
    let mut numbers = Vec::new(alloc);
    for name in names.as_slice() {
        numbers.push(number_of(all.as_slice(), name))?;
    }
    Ok(numbers)
}

/// The number of this name, where it is that of a participant.
fn number_of(all: &[Name], name: &Name) -> Option<u32>
    requires { length all.now ≤ 32 }
    ensures { result ≡ position (bytes_eq name.now) all.now }
{
    match place_of(all, name) {
        Some(place) => Some(place as u32),
        None => None,
    }
}

/// The place of this name among all.
fn place_of(all: &[Name], name: &Name) -> Option<usize>
    ensures value { result ≡ position (bytes_eq name.now) all.now }
    ensures small { IfSome result (λ place. place < length all.now) }
{
    all.iter().position(|other| name.is(other))
}
