//! What a participant calls.

ghost use Rattle.std.specs.Prelude.{◌≡◌, ◌⊎◌, [], ◌∷◌, ◌++◌, false, OnOk, OnErr};
ghost use Rattle.sk_law.specs.declared.made.Call.TheVariants as calls;
ghost use Rattle.sk_law.specs.declared.made.Heard.TheVariants as hearings;
ghost use Rattle.sk_law.specs.declared.made.Notice.TheVariants as notices;
ghost use Rattle.sk_node.specs.Calls.{item};
ghost use Rattle.sk_node.specs.Lists.{Lists};

use sk_base::{SimTime, WantOfMemory};
use sk_law::Outbox;
use sk_msg::{Message, State};

/// What a participant calls.
///
/// An app keeps what it was called with: what it heard, the calls that may ask for actions, and
/// what it was notified of. Where it answers want of memory, it has kept all of that call or nothing.
pub trait App {
    /// What an app is made of and never changes.
    ghost Origin: { Type 0 };

    /// What it was called with so far.
    ghost lists: { Self → Lists };

    /// What it is made of.
    ghost origin: { Self → Origin };

    /// Communication is ready.
    fn on_ready(&mut self, out: &mut Outbox) -> Result<(), WantOfMemory>
        requires empty { out.old.actions ≡ [] }
        requires fits { out.old.over ≡ false }
        ensures ok { OnOk result (lists self.new ≡ record (lists self.old) { made = (lists self.old).made ++ item calls.Ready out.new ∷ [] }) }
        ensures err { OnErr result ((lists self.new ≡ record (lists self.old) { made = (lists self.old).made ++ item calls.Ready out.new ∷ [] }) ⊎ (lists self.new ≡ lists self.old)) }
        ensures origin { origin self.new ≡ origin self.old };

    /// A step begins. Its number counts from 1, its time is in ns of virtual time.
    fn on_step(&mut self, number: u64, at: SimTime, out: &mut Outbox) -> Result<(), WantOfMemory>
        requires empty { out.old.actions ≡ [] }
        requires fits { out.old.over ≡ false }
        ensures ok { OnOk result (lists self.new ≡ record (lists self.old) { made = (lists self.old).made ++ item (calls.Step number at) out.new ∷ [] }) }
        ensures err { OnErr result ((lists self.new ≡ record (lists self.old) { made = (lists self.old).made ++ item (calls.Step number at) out.new ∷ [] }) ⊎ (lists self.new ≡ lists self.old)) }
        ensures origin { origin self.new ≡ origin self.old };

    /// A message of a peer is handed to an own service. Its place counts from 1 among all that were
    /// got from the peer.
    fn on_message(
        &mut self,
        peer: u32,
        place: u64,
        service: u32,
        message: &Message,
        out: &mut Outbox,
    ) -> Result<(), WantOfMemory>
        requires empty { out.old.actions ≡ [] }
        requires fits { out.old.over ≡ false }
        ensures ok { OnOk result (lists self.new ≡ record (lists self.old) { heard = (lists self.old).heard ++ hearings.Message peer place service message.now ∷ []; made = (lists self.old).made ++ item (calls.Message peer place service message.now) out.new ∷ [] }) }
        ensures err { OnErr result ((lists self.new ≡ record (lists self.old) { heard = (lists self.old).heard ++ hearings.Message peer place service message.now ∷ []; made = (lists self.old).made ++ item (calls.Message peer place service message.now) out.new ∷ [] }) ⊎ (lists self.new ≡ lists self.old)) }
        ensures origin { origin self.new ≡ origin self.old };

    /// An action on an own service is answered: 0 done, 1 refused by the state or role, 2 bad frame,
    /// 3 no server, 4 unknown call.
    fn on_answer(&mut self, service: u32, code: u8) -> Result<(), WantOfMemory>
        ensures ok { OnOk result (lists self.new ≡ record (lists self.old) { heard = (lists self.old).heard ++ hearings.Answer service code ∷ [] }) }
        ensures err { OnErr result ((lists self.new ≡ record (lists self.old) { heard = (lists self.old).heard ++ hearings.Answer service code ∷ [] }) ⊎ (lists self.new ≡ lists self.old)) }
        ensures origin { origin self.new ≡ origin self.old };

    /// A state was entered.
    fn on_state(&mut self, state: State) -> Result<(), WantOfMemory>
        ensures ok { OnOk result (lists self.new ≡ record (lists self.old) { notified = (lists self.old).notified ++ notices.State state ∷ [] }) }
        ensures err { OnErr result ((lists self.new ≡ record (lists self.old) { notified = (lists self.old).notified ++ notices.State state ∷ [] }) ⊎ (lists self.new ≡ lists self.old)) }
        ensures origin { origin self.new ≡ origin self.old };

    /// The participant has stopped; the state is told behind this.
    fn on_stop(&mut self) -> Result<(), WantOfMemory>
        ensures ok { OnOk result (lists self.new ≡ record (lists self.old) { notified = (lists self.old).notified ++ notices.Stop ∷ [] }) }
        ensures err { OnErr result ((lists self.new ≡ record (lists self.old) { notified = (lists self.old).notified ++ notices.Stop ∷ [] }) ⊎ (lists self.new ≡ lists self.old)) }
        ensures origin { origin self.new ≡ origin self.old };

    /// It shuts down; the state is told behind this.
    fn on_shutdown(&mut self) -> Result<(), WantOfMemory>
        ensures ok { OnOk result (lists self.new ≡ record (lists self.old) { notified = (lists self.old).notified ++ notices.Shutdown ∷ [] }) }
        ensures err { OnErr result ((lists self.new ≡ record (lists self.old) { notified = (lists self.old).notified ++ notices.Shutdown ∷ [] }) ⊎ (lists self.new ≡ lists self.old)) }
        ensures origin { origin self.new ≡ origin self.old };

    /// It was aborted; the state is told behind this.
    fn on_abort(&mut self) -> Result<(), WantOfMemory>
        ensures ok { OnOk result (lists self.new ≡ record (lists self.old) { notified = (lists self.old).notified ++ notices.Abort ∷ [] }) }
        ensures err { OnErr result ((lists self.new ≡ record (lists self.old) { notified = (lists self.old).notified ++ notices.Abort ∷ [] }) ⊎ (lists self.new ≡ lists self.old)) }
        ensures origin { origin self.new ≡ origin self.old };
}
