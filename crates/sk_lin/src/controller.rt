//! The controller.

ghost use Rattle.std.specs.Prelude.{◌≡◌, ◌≢◌, ◌⊎◌, None, Some, Err, IsTrue, IfOk, IfErr, OnOk, OnErr};
ghost use Rattle.sk_msg.specs.Rules.{is_lin_id};
ghost use Rattle.sk_lin.specs.declared.kept.Source.TheVariants.{Own, Noted};
ghost use Rattle.sk_lin.specs.declared.state.LinState.TheVariants.{Operational, Sleep};
ghost use Rattle.sk_lin.specs.Lin.{new_lin, with_kept, header_frame, sleep_frame, wakeup_frame, init_refusal, set_refusal, master_refusal, header_refusal, frame_refusal, wakeup_refusal, admits_lin, received_lin, is_lin_response, is_lin_frame, is_wakeup, AnswersReason, IsReason};

use crate::frames;
use crate::kept::{Kept, Source};
use crate::refused::LinRefused;
use crate::state::LinState;
use crate::table::ResponseTable;
use sk_base::WantOfMemory;
use sk_msg::rules::{is_lin_id, is_lin_payload, is_sent};
use sk_msg::{LinFrame, LinResponse, LinRole, LinStatus};
use std::alloc::Global;
use std::marker::Model;

/// A LIN controller: the state that it is in, its role, and the responses that it keeps.
///
/// - Calls of the controller's owner: `init`, `set_response`, `send_header`, `send_frame`,
///   `go_to_sleep`, `wakeup`. The frame that one answers is the caller's to send; of a response
///   that was set the caller tells the others.
/// - What others do: `note` what they told of, `admits` before a frame is handed on, `received`
///   right after.
///
/// Contracts see all of it.
#[derive(Debug, Drop)]
pub struct LinController {
    alloc: Global,
    state: LinState,
    role: LinRole,
    kept: ResponseTable,
}

impl Model for LinController {
    ghost use Rattle.sk_lin.specs.Lin.{Lin, AreResponses};

    ghost Value = { Lin };

    ghost view = { λ lin. record { state = lin.state; role = lin.role; kept = lin.kept } };

    ghost invariant = { λ lin. AreResponses lin.kept };
}

impl LinController {
    /// A controller in Uninit, which keeps nothing. What it keeps later is kept in this memory, and
    /// the frames that it answers are made in it.
    pub fn new(alloc: Global) -> LinController
        ensures { result ≡ new_lin }
    {
        LinController {
            alloc,
            state: LinState::Uninit,
            role: LinRole::Slave,
            kept: ResponseTable::new(alloc),
        }
    }

    /// Takes it into operation in this role; in Uninit alone.
    pub fn init(&mut self, role: LinRole) -> Result<(), LinRefused>
        ensures ok { OnOk result (self.new ≡ record self.old { state = Operational; role = role }) }
        ensures accepted { OnOk result (init_refusal self.old ≡ None) }
        ensures refused { IfErr result (λ reason. init_refusal self.old ≡ Some reason) }
        ensures same { OnErr result (self.new ≡ self.old) }
    {
        if self.state != LinState::Uninit {
            return Err(LinRefused::State(self.state));
        }
        self.state = LinState::Operational;
        self.role = role;
        Ok(())
    }

    /// Keeps an own response in place of the earlier one of its identifier; in Operational alone.
    #[tactic(auto, unfolding(crate::specs::Lin::is_lin_response))]
    pub fn set_response(&mut self, response: LinResponse) -> Result<(), LinRefused>
        ensures ok { OnOk result (self.new ≡ with_kept Own response self.old) }
        ensures accepted { OnOk result (set_refusal self.old response ≡ None) }

        // A reason against it is the answer, and besides there is want of memory alone.
        ensures refused { AnswersReason (set_refusal self.old response) result }
        ensures only { IfErr result (λ reason. IsReason (set_refusal self.old response) reason) }
        ensures same { OnErr result (self.new ≡ self.old) }
    {
        if self.state != LinState::Operational {
            return Err(LinRefused::State(self.state));
        }
        if !is_valid(&response) {
            return Err(LinRefused::BadFrame);
        }
        match self.keep(Source::Own, response) {
            Ok(()) => Ok(()),
            Err(_) => Err(LinRefused::WantOfMemory),
        }
    }

    /// The frame that a header of this identifier brings, by all that is kept: without bytes where
    /// nobody answers or more than one does. A master's call, in Operational alone.
    #[tactic(auto, using(crate::proofs::ValidLaws::valid_header), unfolding(crate::specs::Lin::header_frame))]
    pub fn send_header(&self, id: u8) -> Result<LinFrame, LinRefused>
        ensures ok { IfOk result (λ frame. frame ≡ header_frame id self.now) }
        ensures valid { IfOk result (λ frame. IsTrue (is_lin_frame frame)) }
        ensures accepted { OnOk result (header_refusal self.now id ≡ None) }

        // A reason against it is the answer, and besides there is want of memory alone.
        ensures refused { AnswersReason (header_refusal self.now id) result }
        ensures only { IfErr result (λ reason. IsReason (header_refusal self.now id) reason) }
    {
        if let Some(reason) = self.master_refusal() {
            return Err(reason);
        }
        if !is_lin_id(id) {
            return Err(LinRefused::BadFrame);
        }
        match frames::header_frame(self.alloc, self.kept.of(id), id) {
            Ok(frame) => Ok(frame),
            Err(_) => Err(LinRefused::WantOfMemory),
        }
    }

    /// Keeps an own response, which has to answer, and answers the frame that a header of its
    /// identifier then brings. A master's call, in Operational alone.
    #[tactic(auto, using(crate::proofs::ValidLaws::valid_header, crate::proofs::ValidLaws::valid_kept, crate::proofs::ValidLaws::valid_id), unfolding(crate::specs::Lin::header_frame))]
    pub fn send_frame(&mut self, response: LinResponse) -> Result<LinFrame, LinRefused>
        ensures ok { IfOk result (λ frame. frame ≡ header_frame response.id (with_kept Own response self.old)) }
        ensures valid { IfOk result (λ frame. IsTrue (is_lin_frame frame)) }
        ensures kept { OnOk result (self.new ≡ with_kept Own response self.old) }
        ensures accepted { OnOk result (frame_refusal self.old response ≡ None) }

        // A reason against it is the answer, and besides there is want of memory alone.
        ensures refused { AnswersReason (frame_refusal self.old response) result }
        ensures only { IfErr result (λ reason. IsReason (frame_refusal self.old response) reason) }
        ensures same { OnErr result (self.new ≡ self.old) }
    {
        if let Some(reason) = self.master_refusal() {
            return Err(reason);
        }
        if !(is_valid(&response) && is_sent(response.mode)) {
            return Err(LinRefused::BadFrame);
        }
        match frames::keep_and_send(self.alloc, &mut self.kept, response) {
            Ok(frame) => Ok(frame),
            Err(_) => Err(LinRefused::WantOfMemory),
        }
    }

    /// Puts the bus to sleep, and answers the frame that says so. A master's call, in Operational
    /// alone.
    #[tactic(auto, using(crate::proofs::ValidLaws::valid_sleep))]
    pub fn go_to_sleep(&mut self) -> Result<LinFrame, LinRefused>
        ensures ok { IfOk result (λ frame. frame ≡ sleep_frame) }
        ensures valid { IfOk result (λ frame. IsTrue (is_lin_frame frame)) }
        ensures asleep { OnOk result (self.new ≡ record self.old { state = Sleep }) }
        ensures accepted { OnOk result (master_refusal self.old ≡ None) }

        // A reason against it is the answer, and besides there is want of memory alone.
        ensures refused { AnswersReason (master_refusal self.old) result }
        ensures only { IfErr result (λ reason. IsReason (master_refusal self.old) reason) }
        ensures same { OnErr result (self.new ≡ self.old) }
    {
        if let Some(reason) = self.master_refusal() {
            return Err(reason);
        }
        match frames::sleep_frame(self.alloc) {
            Ok(frame) => {
                self.state = LinState::Sleep;
                Ok(frame)
            }
            Err(_) => Err(LinRefused::WantOfMemory),
        }
    }

    /// Wakes the bus up, and answers the signal that does so; in Sleep alone.
    #[tactic(auto, using(crate::proofs::ValidLaws::valid_wakeup))]
    pub fn wakeup(&mut self) -> Result<LinFrame, LinRefused>
        ensures ok { IfOk result (λ frame. frame ≡ wakeup_frame) }
        ensures valid { IfOk result (λ frame. IsTrue (is_lin_frame frame)) }
        ensures awake { OnOk result (self.new ≡ record self.old { state = Operational }) }
        ensures accepted { OnOk result (wakeup_refusal self.old ≡ None) }

        // A reason against it is the answer, and besides there is want of memory alone.
        ensures refused { AnswersReason (wakeup_refusal self.old) result }
        ensures only { IfErr result (λ reason. IsReason (wakeup_refusal self.old) reason) }
        ensures same { OnErr result (self.new ≡ self.old) }
    {
        if self.state != LinState::Sleep {
            return Err(LinRefused::State(self.state));
        }
        match frames::frame_without(self.alloc, 0, LinStatus::Wakeup) {
            Ok(frame) => {
                self.state = LinState::Operational;
                Ok(frame)
            }
            Err(_) => Err(LinRefused::WantOfMemory),
        }
    }

    /// Keeps the response that a peer's service told of, in place of the earlier one of this peer,
    /// service and identifier; in every state. A response in a message keeps the rules.
    pub fn note(
        &mut self,
        peer: u32,
        service: u32,
        response: LinResponse,
    ) -> Result<(), WantOfMemory>
        requires { IsTrue (is_lin_response response) }
        ensures ok { OnOk result (self.new ≡ with_kept (Noted peer service) response self.old) }
        ensures same { OnErr result (self.new ≡ self.old) }
    {
        self.keep(Source::Noted(peer, service), response)
    }

    /// Whether it is handed the frame of another: in Operational, and a wake-up in Sleep too.
    #[tactic(auto, unfolding(crate::specs::Lin::admits_lin))]
    pub fn admits(&self, frame: &LinFrame) -> bool
        ensures { result ≡ admits_lin frame.now self.now }
    {
        match self.state {
            LinState::Uninit => false,
            LinState::Operational => true,
            LinState::Sleep => is_wakeup(frame.status),
        }
    }

    /// Takes the frame in that it was handed: the sleep frame puts it to sleep, a wake-up wakes it
    /// up, and another frame, or one that it doesn't admit, changes nothing.
    #[tactic(auto, unfolding(crate::specs::Lin::received_lin))]
    pub fn received(&mut self, frame: &LinFrame)
        ensures { self.new ≡ received_lin frame.now self.old }
    {
        if !self.admits(frame) {
            return;
        }
        if frames::is_sleep_frame(frame) {
            self.state = LinState::Sleep;
        } else if is_wakeup(frame.status) {
            self.state = LinState::Operational;
        }
    }

    /// Why a master's call is refused, whatever it brings.
    fn master_refusal(&self) -> Option<LinRefused>
        ensures { result ≡ master_refusal self.now }
    {
        if self.state != LinState::Operational {
            return Some(LinRefused::State(self.state));
        }
        match self.role {
            LinRole::Master => None,
            LinRole::Slave => Some(LinRefused::Role),
        }
    }

    /// Keeps a response of this source.
    #[tactic(auto, using(crate::proofs::ValidLaws::valid_kept))]
    fn keep(&mut self, source: Source, response: LinResponse) -> Result<(), WantOfMemory>
        requires { IsTrue (is_lin_response response) }
        ensures ok { OnOk result (self.new ≡ with_kept source response self.old) }
        ensures same { OnErr result (self.new ≡ self.old) }
    {
        self.kept.keep(Kept { source, response })
    }
}

/// Whether a response keeps the rules on identifiers and bytes.
#[tactic(auto, unfolding(crate::specs::Lin::is_lin_response))]
fn is_valid(response: &LinResponse) -> bool
    ensures { result ≡ is_lin_response response.now }
{
    is_lin_id(response.id)
        && is_lin_payload(
            is_sent(response.mode),
            response.checksum,
            response.payload.as_slice(),
        )
}

/// Whether a frame of this status is the signal that wakes a bus.
fn is_wakeup(status: LinStatus) -> bool
    ensures { result ≡ is_wakeup status }
{
    match status {
        LinStatus::Wakeup => true,
        LinStatus::RxOk | LinStatus::RxError | LinStatus::RxNoResponse => false,
    }
}
