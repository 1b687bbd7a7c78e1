//! What a participant is to its peers.

ghost use Rattle.std.specs.Prelude.{◌≡◌};
ghost use Rattle.sk_msg.specs.Roles.{is_coordinated_role, is_synchronised_role, is_tool_role};

/// The role that a Hello tells.
#[derive(Clone, Copy, Debug, PartialEq, Eq)]
pub enum Role {
    /// A participant of the simulation.
    Participant {
        /// Whether it starts and stops with the others.
        coordinated: bool,
        /// Whether it takes steps in virtual time, and announces each.
        synchronised: bool,
    },
    /// A system controller or a monitor: linked to participants, and no peer of theirs.
    Tool,
}

impl Role {
    /// Whether it is that of a participant that starts and stops with the others.
    pub fn is_coordinated(self) -> bool
        ensures { result ≡ is_coordinated_role self }
    {
        match self {
            Role::Participant { coordinated, .. } => coordinated,
            Role::Tool => false,
        }
    }

    /// Whether it is that of a participant that takes steps in virtual time, and announces each.
    pub fn is_synchronised(self) -> bool
        ensures { result ≡ is_synchronised_role self }
    {
        match self {
            Role::Participant { synchronised, .. } => synchronised,
            Role::Tool => false,
        }
    }

    /// Whether it is that of a tool.
    pub fn is_tool(self) -> bool
        ensures { result ≡ is_tool_role self }
    {
        match self {
            Role::Participant { .. } => false,
            Role::Tool => true,
        }
    }
}
