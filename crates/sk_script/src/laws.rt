//! Laws of the format: functions that do nothing, whose contracts are the laws.

ghost use Rattle.std.specs.Prelude.{◌≡◌, ◌↔◌, ◌≢◌, Err, None, [], IsTrue, ℕ, List};
ghost use Rattle.std.specs.List.Sorted.{IsPermutation};
ghost use Rattle.sk_msg.specs.Each.{each_after};
ghost use Rattle.sk_msg.specs.Rules.{is_new_name};
ghost use Rattle.sk_config.specs.Json.{json_of};
ghost use Rattle.sk_rules.specs.Orders.{are_sorted};
ghost use Rattle.sk_rules.specs.declared.fault.ScenarioFault.TheVariants.{NotJson, WantOfMemory};
ghost use Rattle.sk_script.specs.Closed.{is_closed};
ghost use Rattle.sk_script.specs.Generated.{generated, next_seed};
ghost use Rattle.sk_script.specs.Placing.{in_order};
ghost use Rattle.sk_script.specs.Reading.{reading};
ghost use Rattle.sk_script.specs.Scenarios.{PartReadValue};

/// Participants in order are the same ones.
pub fn same_participants()
    ensures { (reads : List PartReadValue) → IsPermutation reads (in_order reads) }
{}

/// Names in the order of bytes are distinct.
pub fn sorted_names_differ()
    ensures { (names : List (List ℕ)) → IsTrue (are_sorted names) → IsTrue (each_after is_new_name [] names) }
{}

/// Bytes are no JSON exactly where they have no JSON value, and no bytes say that memory ran out.
pub fn not_json_exactly()
    ensures no_json { (bytes : List ℕ) → (reading bytes ≡ Err NotJson) ↔ (json_of bytes ≡ None) }
    ensures no_memory { (bytes : List ℕ) → reading bytes ≢ Err WantOfMemory }
{}

/// The scenario that is made of a number is closed.
pub fn generated_are_closed()
    ensures { (number count steps : ℕ) → IsTrue (is_closed (generated number count steps)) }
{}

/// What is drawn from of number 7, first and then.
pub fn draws_of_seven()
    ensures first { next_seed 7 ≡ 1282168116 }
    ensures second { next_seed 1282168116 ≡ 642666333 }
{}
