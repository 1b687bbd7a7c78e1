//! Laws of what a run writes: functions that do nothing, whose contracts are the laws.

ghost use Rattle.std.specs.Prelude.{◌≡◌, ℕ, List, [], ◌∷◌};
ghost use Rattle.sk_pipe.specs.Pipe.{pipe_out};
ghost use Rattle.sk_pipe.specs.Run.{IsInStep};
ghost use Rattle.sk_pipe.specs.Laws.{MoreIsMore, IsNoRun, early_talk, late_talk, one_earlier_talk, longer_talk};
ghost use Rattle.sk_pipe.specs.Examples as examples;

/// More bytes taken only add to what is written.
pub fn grows()
    ensures { MoreIsMore }
{
    sk_wire::laws::growing();
}

/// A run in which nothing was said is in step.
pub fn silence()
    ensures { (name : List ℕ) (step duration : ℕ) → IsInStep name step duration [] }
{}

/// Talks that break the protocol are those of no run, whatever a body does.
pub fn refuses()
    ensures early { IsNoRun early_talk }
    ensures late { IsNoRun late_talk }
    ensures one_earlier { IsNoRun one_earlier_talk }
    ensures longer { IsNoRun longer_talk }
{
    sk_wire::laws::one_reading();
}

/// What participant A writes by the definition, on inputs worked by hand: 104, 76, 54 and 38 bytes.
pub fn works()
    ensures ahead { pipe_out (65 ∷ []) 1000000 3000000 examples.taken_ahead ≡ examples.given_ahead }
    ensures ended { pipe_out (65 ∷ []) 1000000 3000000 examples.taken_ended ≡ examples.given_ended }
    ensures below { pipe_out (65 ∷ []) 1000000 3000000 examples.taken_below ≡ examples.given_below }
    ensures at_once { pipe_out (65 ∷ []) 1 0 [] ≡ examples.given_at_once }
{
    sk_wire::laws::one_reading();
}
