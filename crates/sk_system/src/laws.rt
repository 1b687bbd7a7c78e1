//! Laws of views and of the tools: functions that do nothing, whose contracts are the laws.

ghost use Rattle.std.specs.Prelude.{◌≡◌, ◌≤◌, ◌++◌, ◌∷◌, [], ℕ, true, List, Option, Some, None, map, option_map, replicate, count_by, is_some};
ghost use Rattle.std.specs.List.{list_any, list_all};
ghost use Rattle.sk_msg.specs.declared.state.State.{State};
ghost use Rattle.sk_system.specs.Controller.{Controller, new_controller, has_error, has_ended, controller_lines};
ghost use Rattle.sk_system.specs.History.{NamedNotice, first_required, last_told, first_ending, until_end, tells_aborting, fails};
ghost use Rattle.sk_system.specs.History.{monitor_after_all, monitor_lines_all, controller_after_all, controller_lines_all, aborts};
ghost use Rattle.sk_system.specs.Monitor.{Monitor, new_monitor, monitor_system, monitor_lines};
ghost use Rattle.sk_system.specs.Notes.{Note, AreBelow, after_notes, last_note};
ghost use Rattle.sk_system.specs.System.{system_state, all_required_reached};
ghost use Rattle.sk_system.specs.Table.{seen_of};
ghost use Rattle.sk_system.specs.View.{known_of};

/// What is known of a participant is its last note, however many notes there were and in whatever
/// order.
pub fn last_notes_count()
    ensures { (participants : ℕ) (notes : List Note) (number : ℕ) → AreBelow participants notes →
        known_of (after_notes (replicate participants None) notes) (Some number)
        ≡ last_note number notes }
{}

/// The system state, and what all have reached, are the same whether those that are required are
/// known by their names or by numbers that stand for them.
pub fn numbers_stand_for_names()
    ensures system { (number_of : List ℕ → Option ℕ) (known : Option ℕ → Option State)
        (required : Option (List (List ℕ))) →
        system_state (option_map (map number_of) required) known
        ≡ system_state required (λ name. known (number_of name)) }
    ensures reached { (number_of : List ℕ → Option ℕ) (known : Option ℕ → Option State)
        (required : Option (List (List ℕ))) (goal : State) →
        all_required_reached (option_map (map number_of) required) known goal
        ≡ all_required_reached required (λ name. known (number_of name)) goal }
{}

/// One more notice adds its lines, and further notices theirs: so whoever prints the lines of each
/// call in order has printed those of all notices so far.
pub fn notices_add_their_lines()
    ensures monitor { (monitor : Monitor) (notices : List NamedNotice) (next : NamedNotice) →
        monitor_lines_all monitor (notices ++ next ∷ [])
        ≡ monitor_lines_all monitor notices
        ++ monitor_lines (monitor_after_all monitor notices) next.name next.notice }
    ensures monitor_more { (monitor : Monitor) (notices more : List NamedNotice) →
        monitor_lines_all monitor (notices ++ more)
        ≡ monitor_lines_all monitor notices
        ++ monitor_lines_all (monitor_after_all monitor notices) more }
    ensures monitor_kept { (monitor : Monitor) (notices more : List NamedNotice) →
        monitor_after_all monitor (notices ++ more)
        ≡ monitor_after_all (monitor_after_all monitor notices) more }
    ensures controller { (controller : Controller) (notices : List NamedNotice) (next : NamedNotice) →
        controller_lines_all controller (notices ++ next ∷ [])
        ≡ controller_lines_all controller notices
        ++ controller_lines (controller_after_all controller notices) next.name next.notice }
    ensures controller_more { (controller : Controller) (notices more : List NamedNotice) →
        controller_lines_all controller (notices ++ more)
        ≡ controller_lines_all controller notices
        ++ controller_lines_all (controller_after_all controller notices) more }
    ensures controller_kept { (controller : Controller) (notices more : List NamedNotice) →
        controller_after_all controller (notices ++ more)
        ≡ controller_after_all (controller_after_all controller notices) more }
{}

/// Whatever a monitor is told, and in whatever order, it keeps what the first Workflow requires; of
/// each name the last state told, and which of its Leave and the loss of its link came first; and
/// what its system lines said last is the system state over these.
pub fn monitors_keep_what_counts()
    ensures required { (notices : List NamedNotice) →
        (monitor_after_all new_monitor notices).required ≡ first_required notices }
    ensures state { (notices : List NamedNotice) (name : List ℕ) →
        (seen_of (monitor_after_all new_monitor notices).table name).state
        ≡ last_told name notices }
    ensures ending { (notices : List NamedNotice) (name : List ℕ) →
        (seen_of (monitor_after_all new_monitor notices).table name).ending
        ≡ first_ending name notices }
    ensures printed { (notices : List NamedNotice) →
        (monitor_after_all new_monitor notices).printed
        ≡ monitor_system (monitor_after_all new_monitor notices) }
{}

/// A controller asks for an abort at most once.
pub fn controllers_abort_once()
    ensures { (controller : Controller) (notices : List NamedNotice) →
        count_by (λ asked. asked) (aborts controller notices) ≤ 1 }
{}

/// No participant that is required is in Error, or lost, without an abort having been asked for.
pub fn errors_abort()
    ensures { (required : List (List ℕ)) (notices : List NamedNotice) →
        has_error (controller_after_all (new_controller required) notices) ≡ true →
        (controller_after_all (new_controller required) notices).aborted ≡ true }
{}

/// Once a controller has ended nothing changes any more.
pub fn ends_stay()
    ensures { (controller : Controller) (notices : List NamedNotice) →
        has_ended controller ≡ true → controller_after_all controller notices ≡ controller }
{}

/// What decides on the end of a controller, in terms of what it was told up to there: it has ended
/// once each that is required has left or is lost; and it ends with Aborted where one told that it
/// is Aborting, or one that is required told Error or lost its link before its Leave.
pub fn aborts_have_their_causes()
    ensures ended { (required : List (List ℕ)) (notices : List NamedNotice) →
        let told = until_end (new_controller required) notices in
        has_ended (controller_after_all (new_controller required) notices)
        ≡ list_all (λ name. is_some (first_ending name told)) required }
    ensures aborting { (required : List (List ℕ)) (notices : List NamedNotice) →
        (controller_after_all (new_controller required) notices).aborting
        ≡ tells_aborting (until_end (new_controller required) notices) }
    ensures aborted { (required : List (List ℕ)) (notices : List NamedNotice) →
        (controller_after_all (new_controller required) notices).aborted
        ≡ list_any (fails (until_end (new_controller required) notices)) required }
{}
