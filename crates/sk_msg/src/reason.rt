//! Why a Hello is refused, by the registry or by a participant.

/// The reason that a Refuse tells, in the order of the numbers.
#[derive(Clone, Copy, Debug, PartialEq, Eq)]
pub enum RefuseReason {
    /// The registry says so: another participant has the name.
    NameTaken,
    /// There is no room: at the registry for one more, or at a participant for one more tool.
    Full,
    /// A participant says so: the name is none of its scenario, or its own, or that of a peer which
    /// it knows already.
    Late,
}
