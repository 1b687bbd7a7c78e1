//! Laws of the format: functions that do nothing, whose contracts are the laws.

ghost use Rattle.std.specs.Prelude.{◌≡◌, ℕ, ◌++◌, List, [], ◌↔◌, Err};
ghost use mathlib.Core.List.{IsPrefix};
ghost use Rattle.sk_msg.specs.declared.content.Content.{Content};
ghost use Rattle.sk_wire.specs.declared.fault.WireFault.{WireFault};
ghost use Rattle.sk_wire.specs.declared.fault.BodyFault.{BodyFault};
ghost use Rattle.sk_wire.specs.Grammar.{Spells, body_at};
ghost use Rattle.sk_wire.specs.Faults.{BodyFaults, FrameFaults};
ghost use Rattle.sk_wire.specs.Stream.{AreBytes, Parts, HasParts};
ghost use Rattle.sk_wire.specs.Parts.{front, parts, messages, Broken};
ghost use Rattle.sk_wire.specs.Cutting.{after_pieces, joined};

/// Each message has one spelling, no two messages share one, and none is a proper prefix of
/// another.
pub fn one_spelling()
    ensures { (m n : Content) (x y r s : List ℕ) → Spells m x → Spells n y → x ++ r ≡ y ++ s → (m ≡ n) × (x ≡ y) }
{}

/// A stream of bytes is read in one way, and the functions on streams answer it.
pub fn one_reading()
    ensures one { (from : ℕ) (bytes : List ℕ) (p : Parts) → HasParts from bytes p → p ≡ parts from bytes }
    ensures some { (from : ℕ) (bytes : List ℕ) → AreBytes bytes → HasParts from bytes (parts from bytes) }
{}

/// More bytes only add messages.
pub fn growing()
    ensures { (bytes more : List ℕ) → IsPrefix (messages bytes) (messages (bytes ++ more)) }
{}

/// The parts of a stream are those of its pieces, however it was cut.
pub fn cutting()
    ensures { (pieces : List (List ℕ)) → after_pieces 0 (parts 0 []) pieces ≡ parts 0 (joined pieces) }
{}

/// The fault that reading a body meets is the one that the table names.
pub fn one_body_fault()
    ensures { (bytes : List ℕ) (fault : BodyFault) → AreBytes bytes → (body_at bytes ≡ Err fault) ↔ BodyFaults bytes fault }
{}

/// The same of a frame, with its offset.
pub fn one_frame_fault()
    ensures { (bytes : List ℕ) (fault : WireFault) → AreBytes bytes → (front bytes ≡ Broken fault) ↔ FrameFaults bytes fault }
{}
