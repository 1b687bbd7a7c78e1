//! Laws of the definitions: functions that do nothing, whose contracts are the laws.

ghost use Rattle.sk_law.specs.Bounded.{PutsBounded};
ghost use Rattle.sk_law.specs.Ends.{LimitsHold, TurnsEnd};
ghost use Rattle.sk_law.specs.Growing.{GoesByEntries, BlocksAdd};

/// Each reading of a journal is a step from what it was one entry before: the states, the steps,
/// what was got, put and gone, what was seen and said, and what the app is told.
pub fn journals_go_by_entries()
    ensures { GoesByEntries }
{}

/// Whatever follows something only adds entries behind those that stand.
pub fn blocks_only_add()
    ensures { BlocksAdd }
{}

/// A participant's turns come to an end: whatever happens, a number that its past has doesn't rise,
/// and each row of a turn lowers it.
pub fn turns_come_to_an_end()
    ensures { TurnsEnd }
{}

/// Behind each call a journal whose state has an edge to Error is below both limits.
pub fn limits_hold()
    ensures { LimitsHold }
{}

/// So many messages are put to one number at once, at most, and none once nothing is handed any more,
/// unless the state goes on.
pub fn what_is_put_is_bounded()
    ensures { PutsBounded }
{}
