use crate::made::{LabelParts, spec_of};
use sk_base::{Bytes, Name, SimTime};
use sk_msg::rules::is_mark;
use sk_msg::{
    Action, Content, Entry, Head, LabelKind, Message, Names, Sent, Spec, SpecFault, State,
};
use std::alloc::Global;
use std::mem::size_of;
use std::process::Abort;
use std::test::Fail;

/// So a journal of 500,000 entries takes 32 MB.
const _: () = prove!(size_of::<Entry>() <= 64);

/// A mandatory label of this key.
fn keyed(key: &str) -> LabelParts<'_> {
    (LabelKind::Mandatory, key, "v")
}

#[test]
fn refused_labels(rt: HostRuntime) -> Result<(), Fail> {
    let (k, l, m) = (keyed("k"), keyed("l"), keyed("m"));
    let table: [(&[LabelParts], Option<SpecFault>); 4] = [
        (&[k, k], Some(SpecFault::DoubleKey(1))),
        (&[k, l, m, l, k], Some(SpecFault::DoubleKey(3))),
        (&[k; 17], Some(SpecFault::TooMany(17))),
        (&[], None),
    ];
    for (labels, refusal) in table {
        let made = spec_of(rt.alloc(), "topic", "", labels)?;
        assert!(rt; made.err() == refusal);
    }
    Ok(())
}

/// The second of two labels.
fn expect_second(rt: &impl Abort, spec: &Spec) -> Result<(), Fail> {
    assert_eq!(rt; spec.topic().as_str(), "topic");
    assert_eq!(rt; spec.media().as_str(), "");
    assert_eq!(rt; spec.labels().len(), 2);
    let last = spec.labels().last().ok_or("none")?;
    assert_eq!(rt; last.key.as_str(), "l");
    assert_eq!(rt; last.value.as_str(), "v");
    Ok(())
}

#[test]
fn a_specification_and_its_copy(rt: HostRuntime) -> Result<(), Fail> {
    let spec = spec_of(rt.alloc(), "topic", "", &[keyed("k"), keyed("l")])??;
    expect_second(&rt, &spec)?;
    expect_second(&rt, &spec.copy(rt.alloc())?)
}

#[test]
fn names_and_where_they_stand(rt: HostRuntime) -> Result<(), Fail> {
    let alloc = rt.alloc();
    let mut list = Vec::new(alloc);
    for name in ["A", "B", "B"] {
        list.push(Name::new(alloc, name)?)?;
    }
    let names = Names::new(list).copy(alloc)?;
    assert!(rt; names.position(&Name::new(alloc, "B")?) == Some(1));
    assert!(rt; names.position(&Name::new(alloc, "b")?) == None);
    assert_eq!(rt; names.into_vec().len(), 3);
    Ok(())
}

#[test]
fn what_a_state_is_called(rt: HostRuntime) -> Result<(), Fail> {
    let text = format!(in rt.alloc(); "{} {}", State::ReadyToRun, State::Aborting)?;
    assert_eq!(rt; text.as_str(), "ReadyToRun Aborting");
    Ok(())
}

/// What the third service of a sender published in its fifth step, at 4 ns.
fn published(alloc: Global) -> Result<Message, Fail> {
    let head = Head {
        service: 2,
        stamp: SimTime::new(4).ok_or("no time")?,
        mark: 5,
    };
    if !is_mark(head.mark) {
        return Err(Fail::new("no mark"));
    }
    Ok(Message::publish(head, Bytes::new(alloc, b"abc")?))
}

#[test]
fn a_message_with_a_head(rt: HostRuntime) -> Result<(), Fail> {
    let alloc = rt.alloc();
    let sent = Sent::new(alloc, published(alloc)?.copy(alloc)?)?;
    let head = sent.message().content().head().ok_or("no head")?;
    assert_eq!(rt; (head.service, head.stamp.ns(), head.mark), (2, 4, 5));
    assert!(rt; Message::leave().content().head().is_none());
    let Content::Publish { payload, .. } = sent.message().content() else {
        return Err(Fail::new("another kind"));
    };
    assert_eq!(rt; payload.as_slice(), b"abc".as_slice());
    Ok(())
}

#[test]
fn an_action_and_its_copy(rt: HostRuntime) -> Result<(), Fail> {
    let alloc = rt.alloc();
    let action = Action::Publish(3, Bytes::new(alloc, b"abc")?);
    let Action::Publish(service, payload) = action.copy(alloc)? else {
        return Err(Fail::new("another action"));
    };
    assert_eq!(rt; service, 3);
    assert_eq!(rt; payload.as_slice(), b"abc".as_slice());
    Ok(())
}
