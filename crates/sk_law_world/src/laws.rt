//! Laws of lawful journals: functions that do nothing, whose contracts are the laws.

ghost use Rattle.sk_law_world.specs.Announced.{AnnouncedAreMultiples, AnnouncedNeverFall, AnnouncedRise, SentAfterAnnounced, StampIsAnnounced};
ghost use Rattle.sk_law_world.specs.Barrier.{AllReadyBeforeRunning, ReadyWereTold};
ghost use Rattle.sk_law_world.specs.Heard.{NoneOutOfOrder, PutsAreInOrder};
ghost use Rattle.sk_law_world.specs.Meets.{LawfulMeets};
ghost use Rattle.sk_law_world.specs.Once.{HandedOnce, StatesWalk};
ghost use Rattle.sk_law_world.specs.Refused.{GoneHasCause};
ghost use Rattle.sk_law_world.specs.Safety.{WorldIsSafe};
ghost use Rattle.sk_law_world.specs.Sent.{DoneIsSent};

/// Each Got, Put, State, System, Begin, Done, End, Ask and Stray meets its rule on what stands
/// before it.
pub fn entries_meet_their_rules()
    ensures { LawfulMeets }
{}

/// Each message that was got was handed once to each of its receivers, as they were judged before
/// it was got, and to no other.
pub fn messages_are_handed_once()
    ensures { HandedOnce }
{}

/// Behind each Did with a message stand the Puts of it: of a Reply one at most, of every other one to
/// each peer that isn't gone.
pub fn what_is_done_is_sent()
    ensures { DoneIsSent }
{}

/// The states go along the edges of the graph.
pub fn states_walk()
    ensures { StatesWalk }
{}

/// Each time that is announced is the step size times the steps begun before, so no later one is
/// below an earlier one, and to one peer each is above the last. What is put in a step behind an
/// announcement isn't stamped below it, and has the stamp of the last one to the same peer.
pub fn announcements()
    ensures multiples { AnnouncedAreMultiples }
    ensures falling { AnnouncedNeverFall }
    ensures rising { AnnouncedRise }
    ensures sent { SentAfterAnnounced }
    ensures stamped { StampIsAnnounced }
{}

/// In a lawful world whoever begins a step at t was handed before, once to each receiver and in
/// order, what each synchronised other one sent in steps before t.
pub fn world_is_safe()
    ensures { WorldIsSafe }
{}

/// Where a coordinated participant goes on from ReadyToRun to Running, every other one that is
/// required, as its setup or a tool says, has told it before a state that has reached ReadyToRun; and
/// in a lawful world that one was at ReadyToRun, or was aborted and is at Shutdown.
pub fn all_ready_before_running()
    ensures told { ReadyWereTold }
    ensures ready { AllReadyBeforeRunning }
{}

/// What a participant puts to a peer comes in the order of a link, and nothing is put to it once it
/// is gone.
pub fn puts_are_in_order()
    ensures { PutsAreInOrder }
{}

/// In a lawful world whose coordinated participants require the same names, or none and have no
/// tools, each message that is got of a participant comes in order.
pub fn none_out_of_order()
    ensures { NoneOutOfOrder }
{}

/// A link that is gone was lost, or its last message was out of order.
pub fn gone_has_a_cause()
    ensures { GoneHasCause }
{}
