//! Scenarios that are made of a number.

ghost use Rattle.std.specs.Prelude.{◌≡◌, ◌<◌, ◌≤◌, ◌+◌, [], IfOk, IsTrue};
ghost use Rattle.sk_base.specs.Ranges.{is_name};
ghost use Rattle.sk_msg.specs.Rules.{is_step_size};
ghost use Rattle.sk_script.specs.Generated as spec;
ghost use Rattle.sk_script.specs.Generated.{generated};

use crate::scenario::{Part, Scenario};
use crate::service::no_text;
use crate::together::coordinated_names;
use sk_base::{Bytes, BytesFault, Name, WantOfMemory};
use sk_msg::{Action, Names, Service, ServiceKind, Spec};
use sk_rules::{Actions, Rules, Scope, ScriptAction, ScriptRule, Var, Vars, When};
use std::alloc::Global;

/// The size of the shortest steps, and the unit of the duration: a millisecond of virtual time.
const MILLISECOND: u64 = 1_000_000;

/// The scenario of a number: 2 to 32 participants, each of which publishes a count in each of its
/// steps and subscribes to what the next one publishes. Their steps are 1 to 4 milliseconds long,
/// as drawn from the number; the run lasts so many milliseconds, 1 to 2,000. The same number gives
/// the same scenario, which is closed.
#[tactic(auto, unfolding(crate::specs::Generated::generated))]
pub fn generate(
    alloc: Global,
    number: u64,
    participants: u32,
    steps: u32,
) -> Result<Scenario, WantOfMemory>
    requires least { 2 ≤ participants }
    requires most { participants ≤ 32 }
    requires some { 1 ≤ steps }
    requires few { steps ≤ 2000 }
    ensures { IfOk result (λ scenario. scenario ≡ generated number participants steps) }
{
    let participants = all_parts(alloc, number, participants)?;
    let required = Names::new(coordinated_names(alloc, &participants)?);
    Ok(Scenario::new(MILLISECOND * u64::from(steps), required, participants))
}

/// Its participants.
fn all_parts(alloc: Global, number: u64, count: u32) -> Result<Vec<Part>, WantOfMemory>
    requires some { 0 < count }
    requires few { count ≤ 32 }
    ensures { IfOk result (λ parts. parts.items ≡ spec.all_parts number count) }
{
    let mut parts = Vec::new(alloc);
    let mut seed = number % 2_147_483_648;
    for number in 0..count {
        seed = next_seed(seed);
        parts.push(part(alloc, count, number, step_size(seed))?)?;
    }
    Ok(parts)
}

/// What is drawn from behind this.
#[tactic(auto, unfolding(crate::specs::Generated::next_seed))]
fn next_seed(seed: u64) -> u64
    requires { seed < 2147483648 }
    ensures value { result ≡ spec.next_seed seed }
    ensures small { result < 2147483648 }
{
    (1_103_515_245 * seed + 12_345) % 2_147_483_648
}

/// The size of steps by what is drawn.
#[tactic(auto, unfolding(crate::specs::Generated::step_size, sk_msg::specs::Rules::is_step_size))]
fn step_size(seed: u64) -> u64
    ensures value { result ≡ spec.step_size seed }
    ensures rules { IsTrue (is_step_size result) }
{
    MILLISECOND * (1 + seed / 65_536 % 4)
}

/// The participant of this number, of as many, whose steps have this size.
fn part(alloc: Global, count: u32, number: u32, size: u64) -> Result<Part, WantOfMemory>
    requires number { number < count }
    requires few { count ≤ 32 }
    requires size { IsTrue (is_step_size size) }
    ensures { IfOk result (λ part. part ≡ spec.part count number size) }
{
    let name = numbered(alloc, b'N', number)?;
    let services = services(alloc, count, number)?;
    let vars = vars(alloc)?;
    let script = script(alloc, size)?;
    let scope = Scope { services, vars };
    let ready = Actions::new(Vec::new(alloc));
    Ok(Part::new(name, true, Some(size), scope, ready, script))
}

/// Its publisher and its subscriber.
fn services(alloc: Global, count: u32, number: u32) -> Result<Vec<Service>, WantOfMemory>
    requires number { number < count }
    requires few { count ≤ 32 }
    ensures { IfOk result (λ services. services.items ≡ spec.services count number) }
{
    let publisher = Service {
        id: 0,
        kind: ServiceKind::Publisher,
        name: name_of(alloc, "P".as_bytes())?,
        spec: topic(alloc, number)?,
        history: false,
    };
    let subscriber = Service {
        id: 1,
        kind: ServiceKind::Subscriber,
        name: name_of(alloc, "S".as_bytes())?,
        spec: topic(alloc, (number + 1) % count)?,
        history: false,
    };
    let mut services = Vec::new(alloc);
    services.push(publisher)?;
    services.push(subscriber)?;
    Ok(services)
}

/// What a service of a participant speaks of: the topic of the participant of this number.
fn topic(alloc: Global, number: u32) -> Result<Spec, WantOfMemory>
    requires { number < 100 }
    ensures { IfOk result (λ made. made ≡ record { topic = spec.topic number; media = []; labels = [] }) }
{
    let topic = numbered(alloc, b'T', number)?;
    let media = no_text(alloc)?;
    Ok(Spec::with_labels(topic, media, Vec::new(alloc)))
}

/// Its variable.
fn vars(alloc: Global) -> Result<Vars, WantOfMemory>
    ensures { IfOk result (λ vars. vars ≡ spec.vars) }
{
    let name = name_of(alloc, "x".as_bytes())?;
    Vars::one(alloc, Var { name, value: 0 })
}

/// Its rule.
fn script(alloc: Global, size: u64) -> Result<Rules, WantOfMemory>
    ensures { IfOk result (λ rules. rules ≡ spec.script size) }
{
    let publish = Action::Publish(0, no_bytes(alloc)?);
    let mut actions = Vec::new(alloc);
    actions.push(ScriptAction::Append(publish, 0))?;
    actions.push(ScriptAction::Add(0, 1))?;
    let mut rules = Vec::new(alloc);
    rules.push(ScriptRule {
        when: When::Every { size, from: 0 },
        actions: Actions::new(actions),
    })?;
    Ok(Rules::new(rules))
}

/// A letter and a number in two decimal digits.
fn numbered(alloc: Global, letter: u8, number: u32) -> Result<Name, WantOfMemory>
    requires letter { (65 ≤ letter) × (letter ≤ 90) }
    requires number { number < 100 }
    ensures { IfOk result (λ name. name ≡ spec.numbered letter number) }
{
    let bytes = [letter, digit(number / 10), digit(number % 10)];
    name_of(alloc, &bytes)
}

/// A decimal digit.
fn digit(value: u32) -> u8
    requires { value < 10 }
    ensures { result ≡ 48 + value }
{
    b'0' + value as u8
}

/// The name that these bytes are.
fn name_of(alloc: Global, bytes: &[u8]) -> Result<Name, WantOfMemory>
    requires { IsTrue (is_name bytes.now) }
    ensures { IfOk result (λ name. name ≡ bytes.now) }
{
    match Name::from_utf8(alloc, bytes)? {
        Some(name) => Ok(name),
        None => unreachable!(),
    }
}

/// No bytes.
fn no_bytes(alloc: Global) -> Result<Bytes, WantOfMemory>
    ensures { IfOk result (λ bytes. bytes ≡ []) }
{
    match Bytes::new(alloc, &[]) {
        Ok(bytes) => Ok(bytes),
        Err(BytesFault::WantOfMemory) => Err(WantOfMemory),
        Err(BytesFault::TooLong(_)) => unreachable!(),
    }
}
