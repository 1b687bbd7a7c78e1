//! A run from its Hello to its end.

ghost use Rattle.std.specs.Prelude.{◌≡◌, ◌++◌, true, List};
ghost use Rattle.sk_base.specs.Talk.{Said};
ghost use Rattle.sk_pipe.specs.Run.{IsPipe, CountsFaults};

use crate::ending::PipeEnding;
use crate::plan::Plan;
use crate::session::Session;
use sk_base::Link;
use std::alloc::Global;

/// The link is asked for so many bytes at a time.
const PIECE: usize = 16384;

/// The step protocol with one peer on the link, by this plan. It makes finitely many calls of the
/// link, and returns if they do.
pub fn run_pipe<L: Link>(alloc: Global, plan: Plan, link: &mut L) -> PipeEnding
    ensures faults { CountsFaults result (L.faults link.old) (L.faults link.new) }
    ensures talk { L.tells link.old ≡ true →
        (talk : List Said) × (L.talk link.new ≡ L.talk link.old ++ talk) × IsPipe plan.name plan.step plan.duration talk result }
{
    let Ok(mut session) = Session::new(alloc, plan) else {
        return PipeEnding::Memory;
    };
    let mut buf = [0u8; PIECE];
    'turns: loop {
        if let Some(ending) = session.turn(link, &mut buf) {
            return ending;
        }
    }
}
