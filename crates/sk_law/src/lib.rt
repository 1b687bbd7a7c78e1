//! What a participant's journal may say: the law of one journal, and of the journals of a world. And a
//! journal that is kept, with all that the law reads off it at hand.
#![tactic(auto)]

mod actions;
mod journal;
mod laws;
mod line;
mod made;
mod memory;
mod order;
mod outbox;
mod said;
mod services;
mod setup;
mod tally;
mod visible;

pub use actions::Actions;
pub use journal::Journal;
pub use laws::{
    blocks_only_add, journals_go_by_entries, limits_hold, turns_come_to_an_end,
    what_is_put_is_bounded,
};
pub use made::{Call, Heard, Made, Notice};
pub use memory::{Begun, Memory, ServiceState, ServiceStates};
pub use outbox::Outbox;
pub use said::Said;
pub use services::Services;
pub use setup::Setup;
pub use visible::Visible;
