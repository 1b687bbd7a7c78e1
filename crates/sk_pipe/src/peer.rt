//! What was heard of the peer.

ghost use Rattle.std.specs.Prelude.{◌≡◌, ◌≤◌, ◌+◌, ◌*◌, ◌/◌, ◌^◌, true, min, ℕ, List, [], ◌∷◌, Option, None, IsTrue};
ghost use Rattle.sk_msg.specs.Rules.{is_step_size};
ghost use Rattle.sk_pipe.specs.Frames.{all_steps, due_after};

use sk_base::SimTime;
use sk_msg::{Content, Message, Role};

/// What ended the peer's messages.
#[derive(Clone, Copy, Debug, PartialEq, Eq)]
pub enum PeerEnding {
    /// Its Leave, in order.
    Left,
    /// Bytes that are no message, or a message out of order.
    Broken,
}

/// What is known of a peer that hasn't left.
#[derive(Clone, Copy, Debug, PartialEq, Eq)]
pub enum PeerSync {
    /// No Hello yet.
    Unknown,
    /// Not synchronised.
    Unsynchronised,
    /// Synchronised, with the time in nanoseconds that it announced last.
    Synchronised(Option<u64>),
}

/// What was heard of the peer, and how many steps of our own it lets begin.
#[derive(Drop)]
pub struct Peer {
    /// Our step size, in nanoseconds.
    pub step: u64,
    /// The run's duration, in nanoseconds.
    pub duration: u64,
    /// How many steps the run has.
    pub total: u64,
    /// How many of them may begin by what was heard.
    pub begun: u64,
    /// What is known of the peer, up to its last message in order.
    pub sync: PeerSync,
    /// What ended its messages, if anything did.
    pub ending: Option<PeerEnding>,
    ghost step_fits: { IsTrue (is_step_size step) },
    ghost duration_fits: { duration ≤ 2 ^ 61 },
    ghost counted: { total ≡ all_steps step duration },
    ghost few: { total ≤ 2 ^ 61 },
    ghost within: { begun ≤ total },
}

impl Peer {
    ghost use Rattle.sk_msg.specs.declared.content.Content.{Content};
    ghost use Rattle.sk_msg.specs.declared.content.Content.TheVariants.{Hello, Leave, NextStep};
    ghost use Rattle.sk_pipe.specs.Hearing.{Hears, IsHeardAs, HearsPiece, KeepsPlan};
    ghost use Rattle.sk_pipe.specs.declared.peer.PeerEnding.{PeerEnding};
    ghost use Rattle.sk_pipe.specs.Pipe.{or_fault};

    /// Nothing was heard yet. The step size is 1 to 2^60, the duration at most 2^61 nanoseconds.
    #[tactic(auto, using(crate::proofs::CountLaws::step_sizes))]
    pub fn new(step: u64, duration: u64) -> Peer
        requires step { IsTrue (is_step_size step) }
        requires duration { duration ≤ 2 ^ 61 }
        ensures plan { (result.step ≡ step) × (result.duration ≡ duration) }
        ensures hears { Hears [] None result }
    {
        Peer {
            step,
            duration,
            total: (duration + (step - 1)) / step,
            begun: 0,
            sync: PeerSync::Unknown,
            ending: None,
        }
    }

    /// The time of the step of this index, in nanoseconds.
    #[tactic(auto, using(crate::proofs::CountLaws::step_sizes))]
    pub fn time_of(&self, index: u64) -> u64
        requires { index ≤ self.now.total }
        ensures value { result ≡ index * self.now.step }
        ensures range { result ≤ 2 ^ 62 }
    {
        index * self.step
    }

    /// How many messages are due to the peer.
    pub fn due(&self) -> u64
        ensures { result ≡ due_after self.now.begun self.now.total }
    {
        if self.begun < self.total {
            self.begun + 2
        } else {
            self.begun + 3
        }
    }

    /// Hears the messages of a piece, and whether bytes behind them are no message.
    pub fn hear_piece(&mut self, found: &[Message], is_bad: bool)
        requires { self.old.ending ≡ None }
        ensures plan { KeepsPlan self.old self.new }
        ensures hears { (before : List Content) → Hears before None self.old → HearsPiece before found.now is_bad self.new }
    {
        self.hear(found);
        if is_bad {
            self.note_bad_bytes();
        }
    }

    /// Hears the messages, up to the one that ends them.
    fn hear(&mut self, found: &[Message])
        requires { self.old.ending ≡ None }
        ensures plan { KeepsPlan self.old self.new }
        ensures hears { (before : List Content) → Hears before None self.old → IsHeardAs before found.now self.new }
    {
        for message in found {
            self.note(message.content());
            if self.ending.is_some() {
                return;
            }
        }
    }

    /// Hears that bytes are no message.
    fn note_bad_bytes(&mut self)
        ensures plan { KeepsPlan self.old self.new }
        ensures hears { (ms : List Content) (ending : Option PeerEnding) → Hears ms ending self.old → Hears ms (or_fault ending true) self.new }
    {
        if self.ending.is_none() {
            self.ending = Some(PeerEnding::Broken);
        }
    }

    /// Hears one more message.
    fn note(&mut self, content: &Content)
        requires { self.old.ending ≡ None }
        ensures plan { KeepsPlan self.old self.new }
        ensures hears { (before : List Content) → Hears before None self.old → IsHeardAs before (content.now ∷ []) self.new }
    {
        match content {
            Content::Hello { role, .. } => self.note_hello(*role),
            Content::Leave => self.note_leave(),
            Content::NextStep { at, .. } => self.note_step(*at),
            // The other kinds are passed over.
            Content::ServiceAdd { .. }
            | Content::ServicesEnd
            | Content::Status { .. }
            | Content::Workflow { .. }
            | Content::Abort
            | Content::Can { .. }
            | Content::Eth { .. }
            | Content::Lin { .. }
            | Content::LinResponse { .. }
            | Content::Publish { .. }
            | Content::Call { .. }
            | Content::Reply { .. }
            | Content::Refuse { .. } => {}
        }
    }

    fn note_hello(&mut self, role: Role)
        requires { self.old.ending ≡ None }
        ensures plan { KeepsPlan self.old self.new }
        ensures hears { (before : List Content) (name address : List ℕ) → Hears before None self.old → IsHeardAs before (Hello name role address ∷ []) self.new }
    {
        match self.sync {
            PeerSync::Unknown => {
                if role.is_synchronised() {
                    self.sync = PeerSync::Synchronised(None);
                } else {
                    self.sync = PeerSync::Unsynchronised;
                    self.begun = self.total;
                }
            }
            PeerSync::Unsynchronised => self.ending = Some(PeerEnding::Broken),
            PeerSync::Synchronised(_) => self.ending = Some(PeerEnding::Broken),
        }
    }

    fn note_step(&mut self, at: SimTime)
        requires { self.old.ending ≡ None }
        ensures plan { KeepsPlan self.old self.new }
        ensures hears { (before : List Content) (duration : ℕ) → Hears before None self.old → IsHeardAs before (NextStep at duration ∷ []) self.new }
    {
        let time = at.ns();
        match self.sync {
            PeerSync::Synchronised(last) => match last {
                None => self.announce(time),
                Some(earlier) => {
                    if earlier < time {
                        self.announce(time);
                    } else {
                        self.ending = Some(PeerEnding::Broken);
                    }
                }
            },
            PeerSync::Unknown => self.ending = Some(PeerEnding::Broken),
            PeerSync::Unsynchronised => self.ending = Some(PeerEnding::Broken),
        }
    }

    /// The peer announced this time, later than any before.
    #[tactic(auto, using(crate::proofs::CountLaws::step_sizes))]
    fn announce(&mut self, at: u64)
        ensures plan { KeepsPlan self.old self.new }
        ensures sync { self.new.sync ≡ PeerSync.Synchronised (Some at) }
        ensures ending { self.new.ending ≡ self.old.ending }
        ensures begun { self.new.begun ≡ min self.old.total (at / self.old.step + 1) }
    {
        self.sync = PeerSync::Synchronised(Some(at));
        self.begun = if at / self.step < self.total {
            at / self.step + 1
        } else {
            self.total
        };
    }

    fn note_leave(&mut self)
        requires { self.old.ending ≡ None }
        ensures plan { KeepsPlan self.old self.new }
        ensures hears { (before : List Content) → Hears before None self.old → IsHeardAs before (Leave ∷ []) self.new }
    {
        match self.sync {
            PeerSync::Unknown => self.ending = Some(PeerEnding::Broken),
            PeerSync::Unsynchronised => {
                self.ending = Some(PeerEnding::Left);
                self.begun = self.total;
            }
            PeerSync::Synchronised(_) => {
                self.ending = Some(PeerEnding::Left);
                self.begun = self.total;
            }
        }
    }
}
