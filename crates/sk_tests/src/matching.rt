//! Which specifications and which services match.
//!
//! Another program, scripts/matching_table.py, has made the two tables from the rules alone, and
//! compares them with those here.

use crate::made::{LabelParts, service_of, spec_of};
use sk_msg::{LabelKind, ServiceKind, Spec, matches};
use std::alloc::Global;
use std::process::Abort;
use std::test::Fail;

/// A row per specification that reads, with a digit per specification that writes: 1 where they
/// match. Both in the order of `all_specs`.
const BY_SPEC: &str = "
111000111000111000000000000000000000
110100110100110100000000000000000000
101010101010101010000000000000000000
010100010100010100000000000000000000
001010001010001010000000000000000000
000001000001000001000000000000000000
000000111000000000000000000000000000
000000110100000000000000000000000000
000000101010000000000000000000000000
000000010100000000000000000000000000
000000001010000000000000000000000000
000000000001000000000000000000000000
000000000000111000000000000000000000
000000000000110100000000000000000000
000000000000101010000000000000000000
000000000000010100000000000000000000
000000000000001010000000000000000000
000000000000000001000000000000000000
000000000000000000111000111000111000
000000000000000000110100110100110100
000000000000000000101010101010101010
000000000000000000010100010100010100
000000000000000000001010001010001010
000000000000000000000001000001000001
000000000000000000000000111000000000
000000000000000000000000110100000000
000000000000000000000000101010000000
000000000000000000000000010100000000
000000000000000000000000001010000000
000000000000000000000000000001000000
000000000000000000000000000000111000
000000000000000000000000000000110100
000000000000000000000000000000101010
000000000000000000000000000000010100
000000000000000000000000000000001010
000000000000000000000000000000000001";

/// A row per kind of a service that takes every media type, with a digit per kind of one that has
/// one: 1 where they match. Both in the order of the kinds.
const BY_KIND: &str = "
1000000
0100000
0010000
0000000
0001000
0000000
0000010";

const KINDS: [ServiceKind; 7] = [
    ServiceKind::Can,
    ServiceKind::Ethernet,
    ServiceKind::Lin,
    ServiceKind::Publisher,
    ServiceKind::Subscriber,
    ServiceKind::Server,
    ServiceKind::Client,
];

/// A specification for each topic, media type and label here, the labels changing fastest.
fn all_specs(alloc: Global) -> Result<Vec<Spec>, Fail> {
    let labels: [&[LabelParts]; 6] = [
        &[],
        &[(LabelKind::Optional, "k", "v")],
        &[(LabelKind::Optional, "k", "w")],
        &[(LabelKind::Mandatory, "k", "v")],
        &[(LabelKind::Mandatory, "k", "w")],
        &[(LabelKind::Mandatory, "l", "v")],
    ];
    let mut specs = Vec::new(alloc);
    for topic in ["a", "b"] {
        for media in ["", "x", "y"] {
            for labels in labels {
                specs.push(spec_of(alloc, topic, media, labels)??)?;
            }
        }
    }
    Ok(specs)
}

/// Adds a row: a digit per writer, 1 where the reader takes what it gives.
fn push_answers(table: &mut String, reader: &Spec, writers: &[Spec]) -> Result<(), Fail> {
    table.push('\n')?;
    for writer in writers {
        table.push(if matches(reader, writer) { '1' } else { '0' })?;
    }
    Ok(())
}

#[test]
fn all_pairs_of_specifications(rt: HostRuntime) -> Result<(), Fail> {
    let specs = all_specs(rt.alloc())?;
    let mut table = String::new(rt.alloc());
    for reader in &specs {
        push_answers(&mut table, reader, &specs)?;
    }
    assert_eq!(rt; table.as_str(), BY_SPEC);
    Ok(())
}

/// Whether a service that takes every media type matches one that has one.
fn are_matched(alloc: Global, kind: ServiceKind, other: ServiceKind) -> Result<bool, Fail> {
    let service = service_of(alloc, kind, "a", "")?;
    let other = service_of(alloc, other, "a", "x")?;
    Ok(service.matches(&other))
}

#[test]
fn all_pairs_of_kinds(rt: HostRuntime) -> Result<(), Fail> {
    let mut table = String::new(rt.alloc());
    for kind in KINDS {
        table.push('\n')?;
        for other in KINDS {
            let digit = if are_matched(rt.alloc(), kind, other)? {
                '1'
            } else {
                '0'
            };
            table.push(digit)?;
        }
    }
    assert_eq!(rt; table.as_str(), BY_KIND);
    Ok(())
}
