//! Laws of what words read as: functions that do nothing, whose contracts are the laws.

ghost use Rattle.std.specs.Prelude.{◌≡◌, [], ◌∷◌, Some, None, codes};
ghost use Rattle.sk_tools.specs.Words.{plan_of, file_to_check};

/// What words read as that are written out: behind `--` each word is a value, before it a word that
/// begins with a hyphen is none, but for the hyphen alone; help, a word too few and one too many
/// have no reading.
pub fn reads_words()
    ensures behind { file_to_check (codes "check" ∷ codes "--" ∷ codes "-x" ∷ []) ≡ Some (codes "-x") }
    ensures before { file_to_check (codes "check" ∷ codes "-x" ∷ []) ≡ None }
    ensures alone { file_to_check (codes "check" ∷ codes "-" ∷ []) ≡ Some (codes "-") }
    ensures help { file_to_check (codes "check" ∷ codes "--help" ∷ []) ≡ None }
    ensures few { file_to_check (codes "check" ∷ []) ≡ None }
    ensures many { file_to_check (codes "check" ∷ codes "f" ∷ codes "g" ∷ []) ≡ None }
    ensures other { file_to_check (codes "Check" ∷ codes "f" ∷ []) ≡ None }
    ensures pipe_help { plan_of (codes "pipe" ∷ codes "--help" ∷ []) ≡ None }
    ensures pipe_few { plan_of (codes "pipe" ∷ codes "A" ∷ codes "1" ∷ []) ≡ None }
    ensures pipe_option { plan_of (codes "pipe" ∷ codes "A" ∷ codes "1" ∷ codes "5" ∷ codes "--x" ∷ []) ≡ None }
{}
