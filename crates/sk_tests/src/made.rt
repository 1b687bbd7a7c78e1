//! Services and their parts, made for tests.

use sk_base::{Name, Text};
use sk_msg::{Label, LabelKind, Service, ServiceKind, Spec, SpecFault};
use std::alloc::Global;
use std::test::Fail;

/// A label as its kind, its key and its value.
pub type LabelParts<'a> = (LabelKind, &'a str, &'a str);

fn label(alloc: Global, (kind, key, value): LabelParts) -> Result<Label, Fail> {
    let key = Name::new(alloc, key)?;
    let value = Text::new(alloc, value)?;
    Ok(Label { key, value, kind })
}

/// The specification of these parts, or why there is none.
pub fn spec_of(
    alloc: Global,
    topic: &str,
    media: &str,
    parts: &[LabelParts],
) -> Result<Result<Spec, SpecFault>, Fail> {
    let mut labels = Vec::new(alloc);
    for parts in parts {
        labels.push(label(alloc, *parts)?)?;
    }
    let topic = Name::new(alloc, topic)?;
    let media = Text::new(alloc, media)?;
    Ok(Spec::new(topic, media, labels))
}

/// A service number 0 called A, without labels.
pub fn service_of(
    alloc: Global,
    kind: ServiceKind,
    topic: &str,
    media: &str,
) -> Result<Service, Fail> {
    let name = Name::new(alloc, "A")?;
    let spec = spec_of(alloc, topic, media, &[])??;
    Ok(Service {
        id: 0,
        kind,
        name,
        spec,
        history: false,
    })
}
