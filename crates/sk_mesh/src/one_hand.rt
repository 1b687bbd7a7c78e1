//! Pushing and popping where both ends of a ring are in one hand: there the answers are exact.
//!
//! An end on its own can't tell whether what a look at the ring shows it is so; [`Ends::beside`]
//! tells it. So whoever has both ends knows afterwards that the answer was exact.

ghost use Rattle.std.specs.Prelude.{◌≡◌, ◌↔◌, ◌++◌, ◌∷◌, [], IsErr, OnOk, IfErr, IsNone, IfSome, IfNone};
ghost use Rattle.sk_mesh.specs.Places.{place, AreOfOneMesh};
ghost use Rattle.sk_mesh.specs.Ends.{pushed, popped, IsFull, IsEmpty, PushesAlone, PopsAlone, SameHistory, Knows};

use crate::ends::Ends;
use sk_msg::Message;

/// Pushes a message from one participant to another. It is handed back exactly where the ring is
/// full.
pub fn push_beside(mine: &mut Ends, other: &mut Ends, message: Message) -> Result<(), Message>
    requires { AreOfOneMesh (place mine.old) (place other.old) }
    ensures exact { IsErr result ↔ IsFull mine.old other.old }
    ensures ok { OnOk result
        (pushed mine.new other.old.number ≡ pushed mine.old other.old.number ++ message ∷ []) }
    ensures full { IfErr result (λ back. (back ≡ message)
        × (pushed mine.new other.old.number ≡ pushed mine.old other.old.number)) }
    ensures mine { PushesAlone mine.old mine.new other.old.number }
    ensures other { SameHistory other.old other.new }
    ensures knows { Knows mine.new other.new × Knows other.new mine.new }
{
    mine.beside(other);
    let answer = mine.push(other.number(), message);
    mine.beside(other);
    answer
}

/// Pops a message that one participant has of another. There is none exactly where the ring is
/// empty.
pub fn pop_beside(mine: &mut Ends, other: &mut Ends) -> Option<Message>
    requires { AreOfOneMesh (place mine.old) (place other.old) }
    ensures exact { IsNone result ↔ IsEmpty other.old mine.old }
    ensures some { IfSome result (λ message.
        popped mine.new other.old.number ≡ popped mine.old other.old.number ++ message ∷ []) }
    ensures none { IfNone result
        (popped mine.new other.old.number ≡ popped mine.old other.old.number) }
    ensures mine { PopsAlone mine.old mine.new other.old.number }
    ensures other { SameHistory other.old other.new }
    ensures knows { Knows mine.new other.new × Knows other.new mine.new }
{
    mine.beside(other);
    let answer = mine.pop(other.number());
    mine.beside(other);
    answer
}
