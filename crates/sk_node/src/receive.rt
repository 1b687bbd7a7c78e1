//! What a message leads to.

ghost use Rattle.std.specs.Prelude.{◌≡◌, ◌≢◌, IsTrue, true, false, [], Some, length, OnOk, OnErr};
ghost use Rattle.sk_law.specs.Blocks.{get};
ghost use Rattle.sk_law.specs.Kept.{grown, AddsNothing};
ghost use Rattle.sk_law.specs.Links.{comes_in_order, is_open};
ghost use Rattle.sk_law.specs.Readings.{got};
ghost use Rattle.sk_law.specs.Told.{message_at};
ghost use Rattle.sk_msg.specs.Rules.{is_message};
ghost use Rattle.sk_node.specs.declared.receive.Purpose.TheVariants as purposes;
ghost use Rattle.sk_node.specs.Calls.{handings};
ghost use Rattle.sk_node.specs.Lists.{Whole, Part};
ghost use Rattle.sk_node.specs.Purposes.{noted_of, purpose_of};
ghost use Rattle.sk_node.specs.Takes.{Gets, GetsCut, Heeds, HeedsCut};

use crate::app::App;
use crate::calls::hand_all;
use crate::losses::lose;
use crate::puts::judge;
use crate::states::enter_where;
use sk_base::WantOfMemory;
use sk_law::{Journal, blocks_only_add, journals_go_by_entries};
use sk_msg::{Content, Message, State};

/// Gets a message of a peer or tool that is linked: in order it is heeded, else the link is lost.
pub fn get<A: App>(
    journal: &mut Journal,
    app: &mut A,
    number: u32,
    message: Message,
) -> Result<(), WantOfMemory>
    requires linked { IsTrue (is_open journal.old.setup journal.old.past number) }
    ensures ok { OnOk result (Gets journal.old journal.new number message (A.lists app.old) (A.lists app.new)) }
    ensures err { OnErr result (GetsCut journal.old journal.new number message (A.lists app.old) (A.lists app.new)) }
    ensures origin { A.origin app.new ≡ A.origin app.old }
{
    get_copy(journal, app, number, &message)?;
    Ok(())
}

/// The same; the journal keeps a copy of the message.
fn get_copy<A: App>(
    journal: &mut Journal,
    app: &mut A,
    number: u32,
    message: &Message,
) -> Result<(), WantOfMemory>
    requires linked { IsTrue (is_open journal.old.setup journal.old.past number) }
    ensures ok { OnOk result (Gets journal.old journal.new number message.now (A.lists app.old) (A.lists app.new)) }
    ensures err { OnErr result (GetsCut journal.old journal.new number message.now (A.lists app.old) (A.lists app.new)) }
    ensures origin { A.origin app.new ≡ A.origin app.old }
{
    let is_in_order = journal.comes_in_order(number, message);
    if is_in_order {
        get_in_order(journal, app, number, message)?;
        return Ok(());
    }
    get_out_of_order(journal, app, number, message)?;
    Ok(())
}

/// It came out of order: it has no other effect than that its sender is gone.
fn get_out_of_order<A: App>(
    journal: &mut Journal,
    app: &mut A,
    number: u32,
    message: &Message,
) -> Result<(), WantOfMemory>
    requires linked { IsTrue (is_open journal.old.setup journal.old.past number) }
    requires order { comes_in_order journal.old.setup journal.old.past number message.now ≡ false }
    ensures ok { OnOk result (Whole journal.old journal.new (get journal.old.setup number message.now [] journal.old.past) (A.lists app.old) (A.lists app.new)) }
    ensures err { OnErr result (Part journal.old journal.new (get journal.old.setup number message.now [] journal.old.past) (A.lists app.old) (A.lists app.new)) }
    ensures origin { A.origin app.new ≡ A.origin app.old }
{
    journals_go_by_entries();
    blocks_only_add();
    let kept = message.copy(journal.alloc())?;
    journal.add_got(number, kept)?;
    lose(journal, app, number, 8)?;
    Ok(())
}

/// It came in order. To whom it is handed is judged before it is got.
fn get_in_order<A: App>(
    journal: &mut Journal,
    app: &mut A,
    number: u32,
    message: &Message,
) -> Result<(), WantOfMemory>
    requires linked { IsTrue (is_open journal.old.setup journal.old.past number) }
    requires order { comes_in_order journal.old.setup journal.old.past number message.now ≡ true }
    ensures ok { OnOk result (Gets journal.old journal.new number message.now (A.lists app.old) (A.lists app.new)) }
    ensures err { OnErr result (GetsCut journal.old journal.new number message.now (A.lists app.old) (A.lists app.new)) }
    ensures origin { A.origin app.new ≡ A.origin app.old }
{
    journals_go_by_entries();
    blocks_only_add();
    let receivers = journal.receivers(number, message)?;
    let kept = message.copy(journal.alloc())?;
    journal.add_got(number, kept)?;
    heed(journal, app, number, &receivers, message)?;
    Ok(())
}

/// Heeds a message that came in order and was got last.
fn heed<A: App>(
    journal: &mut Journal,
    app: &mut A,
    number: u32,
    receivers: &[u32],
    message: &Message,
) -> Result<(), WantOfMemory>
    requires there { message_at journal.old.past.journal number (length (got journal.old.past.journal number)) ≡ Some message.now }
    requires nobody { purpose_of message.now ≢ purposes.Handed → receivers.now ≡ [] }
    ensures ok { OnOk result (Heeds journal.old journal.new number message.now (handings number (length (got journal.old.past.journal number)) message.now receivers.now) (A.lists app.old) (A.lists app.new)) }
    ensures err { OnErr result (HeedsCut journal.old journal.new number message.now (handings number (length (got journal.old.past.journal number)) message.now receivers.now) (A.lists app.old) (A.lists app.new)) }
    ensures origin { A.origin app.new ≡ A.origin app.old }
{
    let content = message.content();
    match purpose_of(content) {
        Purpose::System => {
            judge(journal)?;
            Ok(())
        }
        Purpose::Abort => {
            enter_where(journal, app, State::Aborting)?;
            Ok(())
        }
        Purpose::Noted => {
            note(journal, number, content)?;
            Ok(())
        }
        Purpose::Handed => {
            let place = journal.count_of_got(number);
            hand_all(journal, app, number, place, receivers, message)?;
            Ok(())
        }
    }
}

/// The LIN controllers of a network note how a peer's service answers from now on.
fn note(journal: &mut Journal, number: u32, content: &Content) -> Result<(), WantOfMemory>
    requires { IsTrue (is_message content.now) }
    ensures ok { OnOk result (journal.new ≡ grown (noted_of journal.old.setup number content.now journal.old.past) journal.old) }
    ensures err { OnErr result (AddsNothing journal.old journal.new) }
{
    match content {
        Content::LinResponse { head, response } => {
            journal.note(number, head.service, response)?;
            Ok(())
        }
        Content::Hello { .. }
        | Content::Leave
        | Content::NextStep { .. }
        | Content::ServiceAdd { .. }
        | Content::ServicesEnd
        | Content::Status { .. }
        | Content::Workflow { .. }
        | Content::Abort
        | Content::Can { .. }
        | Content::Eth { .. }
        | Content::Lin { .. }
        | Content::Publish { .. }
        | Content::Call { .. }
        | Content::Reply { .. }
        | Content::Refuse { .. } => Ok(()),
    }
}

/// What a message that came in order is for.
#[derive(Clone, Copy, Debug, PartialEq, Eq)]
enum Purpose {
    /// It may change the system state.
    System,
    /// The participant is to abort.
    Abort,
    /// LIN controllers note it.
    Noted,
    /// It is handed to its receivers, of which there may be none.
    Handed,
}

/// What a message is for, by its kind.
fn purpose_of(content: &Content) -> Purpose
    ensures { result ≡ purpose_of content.now }
{
    match content {
        Content::Status { .. } => Purpose::System,
        Content::Workflow { .. } => Purpose::System,
        Content::Abort => Purpose::Abort,
        Content::LinResponse { .. } => Purpose::Noted,
        Content::Hello { .. }
        | Content::Leave
        | Content::NextStep { .. }
        | Content::ServiceAdd { .. }
        | Content::ServicesEnd
        | Content::Can { .. }
        | Content::Eth { .. }
        | Content::Lin { .. }
        | Content::Publish { .. }
        | Content::Call { .. }
        | Content::Reply { .. }
        | Content::Refuse { .. } => Purpose::Handed,
    }
}
