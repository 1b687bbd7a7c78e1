//! Laws of the graph and of lifecycles: functions that do nothing, whose contracts are the laws.

ghost use Rattle.std.specs.Prelude.{◌≡◌, ◌↔◌, ◌&&◌, ◌∷◌, ℕ, Bool, List, Some};
ghost use Rattle.sk_msg.specs.declared.command.Command.{Command};
ghost use Rattle.sk_msg.specs.declared.state.State.{State};
ghost use Rattle.sk_msg.specs.declared.state.State.TheVariants.{ServicesCreated};
ghost use Rattle.sk_msg.specs.States.{state_number, state_of};
ghost use Rattle.sk_msg.specs.Edges.{has_edge, has_edge_of, IsWalk};
ghost use Rattle.sk_lifecycle.specs.Course.{Call, start, after_calls, passed, last_of, asks_for};

/// Whatever is called on a lifecycle, in whatever order, the states that it passes are a walk of
/// the graph from its start to the state that it is in.
pub fn states_are_a_walk()
    ensures walk { (coordinated : Bool) (calls : List Call) →
        IsWalk (ServicesCreated ∷ passed (start coordinated) calls) }
    ensures end { (coordinated : Bool) (calls : List Call) →
        last_of ServicesCreated (passed (start coordinated) calls)
        ≡ (after_calls (start coordinated) calls).state }
{}

/// A number is that of a state exactly where the state is that of the number.
pub fn numbers_name_states()
    ensures { (number : ℕ) (state : State) →
        (state_of number ≡ Some state) ↔ (state_number state ≡ number) }
{}

/// The edges of a command are those that its words say.
pub fn commands_have_their_edges()
    ensures { (command : Command) (from to : State) →
        has_edge_of command from to ≡ (has_edge from to && asks_for command from to) }
{}
