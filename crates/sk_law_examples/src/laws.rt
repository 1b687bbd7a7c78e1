//! What journals that are written out are: functions that do nothing, whose contracts say it.

ghost use Rattle.sk_law_examples.specs.Acausal.{NoSuchWorld};
ghost use Rattle.sk_law_examples.specs.Examples.{alone, alone_journal, publisher, publisher_journal, subscriber, subscriber_journal, patient, patient_journal, bereft, bereft_journal};
ghost use Rattle.sk_law_examples.specs.Journals.{pausing, pausing_journal, stopping, stopping_journal, eager, eager_journal, steered, steered_journal, offended, offended_journal, serving, serving_journal, mastering, mastering_journal};
ghost use Rattle.sk_law.specs.Lawful.{IsLawful};
ghost use Rattle.sk_law_examples.specs.Living.{NextStepWaits, WorldLives};
ghost use Rattle.sk_law_examples.specs.Unsafe.{IsUnsafe, late_journal, doubled_journal, unannounced_journal};
ghost use Rattle.sk_law_examples.specs.Wrong.{IsWrong, begun_front, begun_early, announced_early, sent_late, handed_twice, ended_early, refused_pause, stopped_early, kept_back};

use sk_law::blocks_only_add;
use sk_law_world::{
    entries_meet_their_rules, messages_are_handed_once, what_is_done_is_sent, world_is_safe,
};

/// Some journals that are lawful.
pub fn examples_are_lawful()
    ensures alone { IsLawful alone alone_journal }
    ensures publisher { IsLawful publisher publisher_journal }
    ensures subscriber { IsLawful subscriber subscriber_journal }
    ensures patient { IsLawful patient patient_journal }
    ensures bereft { IsLawful bereft bereft_journal }
{}

/// Short ones: commands, a pause count, too many actions, a tool, a message out of order, a call, LIN.
pub fn short_ones_are_lawful()
    ensures pausing { IsLawful pausing pausing_journal }
    ensures stopping { IsLawful stopping stopping_journal }
    ensures eager { IsLawful eager eager_journal }
    ensures steered { IsLawful steered steered_journal }
    ensures offended { IsLawful offended offended_journal }
    ensures serving { IsLawful serving serving_journal }
    ensures mastering { IsLawful mastering mastering_journal }
{}

/// Some that aren't.
pub fn wrong_ones_are_not()
    ensures front { IsLawful subscriber begun_front }
    ensures begun { IsWrong subscriber begun_early }
    ensures announced { IsWrong subscriber announced_early }
    ensures sent { IsWrong publisher sent_late }
    ensures handed { IsWrong subscriber handed_twice }
    ensures ended { IsWrong patient ended_early }
    ensures refused { IsWrong alone refused_pause }
    ensures stopped { IsWrong alone stopped_early }
    ensures kept { IsWrong publisher kept_back }
{
    entries_meet_their_rules();
    messages_are_handed_once();
    what_is_done_is_sent();
}

/// There is a lawful world, so a safe one: a finished one in which a message of a step is handed.
pub fn a_world_lives()
    ensures lives { WorldLives }
    ensures waits { NextStepWaits }
{
    world_is_safe();
}

/// The journals of a world are refused where a message is handed late or twice, and where a step
/// begins unannounced.
pub fn unsafe_ones_are_refused()
    ensures late { IsUnsafe late_journal }
    ensures doubled { IsUnsafe doubled_journal }
    ensures unannounced { IsUnsafe unannounced_journal }
{}

/// Two journals that no order of time allows, though what one got the other put, are the journals of
/// no lawful world.
pub fn no_world_runs_in_a_circle()
    ensures { NoSuchWorld }
{
    blocks_only_add();
    messages_are_handed_once();
}
