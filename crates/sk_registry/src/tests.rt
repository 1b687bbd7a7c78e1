//! The table on lists of events, with what each join is told.

use crate::{Directory, JoinRefused, Joined};
use sk_base::{Name, Text};
use sk_msg::Role;
use std::alloc::Global;
use std::process::Abort;
use std::test::Fail;

/// What happens, and what is answered.
#[derive(Clone, Copy, Debug)]
enum Row<'a> {
    /// This name joins, and is told of these.
    Joins(&'a str, &'a [&'a str]),
    IsRefused(&'a str, JoinRefused),
    /// This name leaves, and was joined or not.
    Leaves(&'a str, bool),
}

fn join(
    alloc: Global,
    directory: &mut Directory,
    name: &str,
) -> Result<Result<Vec<Joined>, JoinRefused>, Fail> {
    let name = Name::new(alloc, name)?;
    let address = Text::new(alloc, "silkit://localhost:9000")?;
    Ok(directory.join(name, Role::Tool, address))
}

fn assert_names(rt: &impl Abort, told: &[Joined], names: &[&str]) {
    assert_eq!(rt; told.len(), names.len());
    for (joined, name) in told.iter().zip(names.iter()) {
        assert_eq!(rt; joined.name.as_str(), *name);
    }
}

fn play(
    rt: &(impl Abort + AllocGlobal),
    directory: &mut Directory,
    events: &[Row],
) -> Result<(), Fail> {
    for event in events {
        match *event {
            Row::Joins(name, names) => {
                let told = join(rt.alloc(), directory, name)??;
                assert_names(rt, &told, names);
            }
            Row::IsRefused(name, reason) => match join(rt.alloc(), directory, name)? {
                Err(refused) => assert_eq!(rt; refused, reason, "{name}"),
                Ok(_) => return Err(Fail::new("no refusal")),
            },
            Row::Leaves(name, was_joined) => {
                let gone = Name::new(rt.alloc(), name)?;
                assert_eq!(rt; directory.leave(&gone), was_joined, "{name}");
            }
        }
    }
    Ok(())
}

#[test]
fn a_name_is_taken_until_it_leaves(rt: HostRuntime) -> Result<(), Fail> {
    let mut directory = Directory::new(rt.alloc());
    assert!(rt; directory.is_empty());
    play(
        &rt,
        &mut directory,
        &[
            Row::Joins("A", &[]),
            Row::Joins("B", &["A"]),
            Row::IsRefused("A", JoinRefused::NameTaken),
            Row::Leaves("A", true),
            Row::Joins("A", &["B"]),
        ],
    )?;
    assert!(rt; !directory.is_empty());
    Ok(())
}

#[test]
fn whoever_comes_back_goes_last(rt: HostRuntime) -> Result<(), Fail> {
    let mut directory = Directory::new(rt.alloc());
    play(
        &rt,
        &mut directory,
        &[
            Row::Leaves("A", false),
            Row::Joins("A", &[]),
            Row::Joins("B", &["A"]),
            Row::Joins("C", &["A", "B"]),
            Row::Joins("D", &["A", "B", "C"]),
            Row::Leaves("B", true),
            Row::Leaves("B", false),
            Row::Leaves("E", false),
            Row::Joins("B", &["A", "C", "D"]),
            Row::Leaves("A", true),
            Row::Joins("a", &["C", "D", "B"]),
        ],
    )
}

#[test]
fn the_thirty_seventh_name(rt: HostRuntime) -> Result<(), Fail> {
    let alloc = rt.alloc();
    let mut directory = Directory::new(alloc);
    for number in 0..36usize {
        let name = format!(in alloc; "N{number}")?;
        let told = join(alloc, &mut directory, &name)??;
        assert_eq!(rt; told.len(), number);
    }
    play(
        &rt,
        &mut directory,
        &[
            Row::IsRefused("N36", JoinRefused::Full),
            Row::IsRefused("N35", JoinRefused::NameTaken),
            Row::IsRefused("N0", JoinRefused::NameTaken),
            Row::Leaves("N36", false),
            Row::Leaves("N0", true),
        ],
    )?;
    let told = join(alloc, &mut directory, "N36")??;
    assert_eq!(rt; told.len(), 35);
    play(
        &rt,
        &mut directory,
        &[Row::IsRefused("N0", JoinRefused::Full)],
    )
}

#[test]
fn what_one_told_is_told_of_it(rt: HostRuntime) -> Result<(), Fail> {
    let alloc = rt.alloc();
    let mut directory = Directory::new(alloc);
    let role = Role::Participant {
        coordinated: true,
        synchronised: false,
    };
    let address = Text::new(alloc, "silkit://127.0.0.1:8501")?;
    directory.join(Name::new(alloc, "A")?, role, address)?;
    let told = join(alloc, &mut directory, "B")??;
    assert_eq!(rt; told.len(), 1);
    assert_eq!(rt; told[0].name.as_str(), "A");
    assert_eq!(rt; told[0].role, role);
    assert_eq!(rt; told[0].address.as_str(), "silkit://127.0.0.1:8501");
    Ok(())
}
