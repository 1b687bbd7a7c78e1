//! Calls of the app, and the answers to what it asks for.

ghost use Rattle.std.specs.Prelude.{◌≡◌, ◌≤◌, ◌^◌, Some, OnOk, OnErr};
ghost use Rattle.sk_law.specs.declared.made.Call.TheVariants as calls;
ghost use Rattle.sk_law.specs.Told.{message_at};
ghost use Rattle.sk_node.specs.Calls.{Calls, CallsCut, CallsAll, CallsAllCut, handings};

use crate::actions::answer_all;
use crate::app::App;
use sk_base::{SimTime, WantOfMemory};
use sk_law::{Journal, Outbox, blocks_only_add, journals_go_by_entries};
use sk_msg::{Entry, Message};

/// The ready handler, and the answers to what it asks for.
pub fn ready<A: App>(journal: &mut Journal, app: &mut A) -> Result<(), WantOfMemory>
    ensures ok { OnOk result (Calls journal.old journal.new calls.Ready (A.lists app.old) (A.lists app.new)) }
    ensures err { OnErr result (CallsCut journal.old journal.new calls.Ready (A.lists app.old) (A.lists app.new)) }
    ensures origin { A.origin app.new ≡ A.origin app.old }
{
    blocks_only_add();
    let mut out = Outbox::new(journal.alloc())?;
    journal.set_called();
    app.on_ready(&mut out)?;
    let _filled = out.actions();
    answer_all(journal, app, &out)?;
    Ok(())
}

/// A step begins: its handler, and the answers to what it asks for.
pub fn begin<A: App>(
    journal: &mut Journal,
    app: &mut A,
    number: u64,
    at: SimTime,
) -> Result<(), WantOfMemory>
    requires early { at ≤ 2 ^ 61 }
    requires small { number ≤ 2 ^ 63 }
    ensures ok { OnOk result (Calls journal.old journal.new (calls.Step number at) (A.lists app.old) (A.lists app.new)) }
    ensures err { OnErr result (CallsCut journal.old journal.new (calls.Step number at) (A.lists app.old) (A.lists app.new)) }
    ensures origin { A.origin app.new ≡ A.origin app.old }
{
    journals_go_by_entries();
    blocks_only_add();
    let mut out = Outbox::new(journal.alloc())?;
    journal.add_begin(number, at)?;
    app.on_step(number, at, &mut out)?;
    let _filled = out.actions();
    answer_all(journal, app, &out)?;
    Ok(())
}

/// A message is handed to an own service, which takes it in: the handler is called, and what it asks
/// for is answered.
fn hand<A: App>(
    journal: &mut Journal,
    app: &mut A,
    peer: u32,
    place: u64,
    service: u32,
    message: &Message,
) -> Result<(), WantOfMemory>
    requires there { message_at journal.old.past.journal peer place ≡ Some message.now }
    ensures ok { OnOk result (Calls journal.old journal.new (calls.Message peer place service message.now) (A.lists app.old) (A.lists app.new)) }
    ensures err { OnErr result (CallsCut journal.old journal.new (calls.Message peer place service message.now) (A.lists app.old) (A.lists app.new)) }
    ensures origin { A.origin app.new ≡ A.origin app.old }
{
    journals_go_by_entries();
    blocks_only_add();
    let mut out = Outbox::new(journal.alloc())?;
    journal.add_plain(Entry::Hand {
        peer,
        place,
        service,
    })?;
    journal.receive(peer, service, message)?;
    app.on_message(peer, place, service, message, &mut out)?;
    let _filled = out.actions();
    answer_all(journal, app, &out)?;
    Ok(())
}

/// A message is handed to each of these own services, one after another.
pub fn hand_all<A: App>(
    journal: &mut Journal,
    app: &mut A,
    peer: u32,
    place: u64,
    services: &[u32],
    message: &Message,
) -> Result<(), WantOfMemory>
    requires there { message_at journal.old.past.journal peer place ≡ Some message.now }
    ensures ok { OnOk result (CallsAll journal.old journal.new (handings peer place message.now services.now) (A.lists app.old) (A.lists app.new)) }
    ensures err { OnErr result (CallsAllCut journal.old journal.new (handings peer place message.now services.now) (A.lists app.old) (A.lists app.new)) }
    ensures origin { A.origin app.new ≡ A.origin app.old }
{
    blocks_only_add();
    for service in services {
        hand(journal, app, peer, place, *service, message)?;
    }
    Ok(())
}
