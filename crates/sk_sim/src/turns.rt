//! One turn of a participant that is wired to its rings.

ghost use Rattle.std.specs.Prelude.{◌≡◌, ◌||◌, IfOk, OnOk};
ghost use Rattle.sk_mesh.specs.Places.{place};
ghost use Rattle.sk_sim.specs.Wiring.{IsTied, IsBounded};
ghost use Rattle.sk_sim.specs.Answers.{Acts, Turns, answer_of, has_none};

use crate::pushing::push_all;
use crate::taking::take_each;
use crate::wired::Wired;
use sk_base::WantOfMemory;
use sk_law::what_is_put_is_bounded;
use sk_law_world::states_walk;
use sk_msg::Message;
use sk_node::{App, Turned};

/// Pushes what waits, takes at most one message of each open peer, has the participant take its
/// turn, and pushes again.
pub fn turn<A: App>(wired: &mut Wired, app: &mut A) -> Result<Turned, WantOfMemory>
    requires tied { IsTied wired.old }
    requires bounded { IsBounded wired.old.node.kept }
    ensures place { place wired.new.ends ≡ place wired.old.ends }
    ensures bounded { OnOk result (IsBounded wired.new.node.kept) }
    ensures ok { IfOk result (λ turned. Turns turned wired.old wired.new (A.lists app.old) (A.lists app.new)) }
    ensures origin { A.origin app.new ≡ A.origin app.old }
{
    what_is_put_is_bounded();
    states_walk();
    let before = wired.node.journal().len();
    let pushed = push_all(wired);
    let taken = take_each(wired, app)?;
    let did = act(wired, app)?;
    let empty = is_empty(&wired.held);
    let again = push_all(wired);
    let added = wired.node.journal().len() - before;
    let moved = any(pushed, taken, again);
    Ok(answer(did, moved, added, empty))
}

/// The participant takes its turn.
fn act<A: App>(wired: &mut Wired, app: &mut A) -> Result<Turned, WantOfMemory>
    requires tied { IsTied wired.old }
    ensures place { place wired.new.ends ≡ place wired.old.ends }
    ensures ok { IfOk result (λ turned. Acts turned wired.old wired.new (A.lists app.old) (A.lists app.new)) }
    ensures origin { A.origin app.new ≡ A.origin app.old }
{
    what_is_put_is_bounded();
    let turned = wired.node.turn(app)?;
    let _ = wired.node.journal();
    Ok(turned)
}

/// Whether one of these is so.
fn any(first: bool, second: bool, third: bool) -> bool
    ensures { result ≡ (first || (second || third)) }
{
    first || (second || third)
}

/// What a turn answers, in which the participant did this, a message was moved or not, so many
/// entries came, and behind the participant's turn no message was held back or one was.
fn answer(did: Turned, moved: bool, added: usize, empty: bool) -> Turned
    ensures { result ≡ answer_of did moved added empty }
{
    if moved {
        return Turned::Entries(added);
    }
    match did {
        Turned::Entries(_) => Turned::Entries(added),
        Turned::Counted => Turned::Counted,
        Turned::Quiet => Turned::Quiet,
        Turned::Finished => {
            if empty {
                Turned::Finished
            } else {
                Turned::Quiet
            }
        }
    }
}

/// Whether no ring has handed back a message.
fn is_empty(held: &[Option<Message>]) -> bool
    ensures { result ≡ has_none held.now }
{
    held.iter().all(|message| message.is_none())
}
