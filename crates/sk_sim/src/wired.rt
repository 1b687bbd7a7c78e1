//! A participant wired to its rings.

use sk_mesh::Ends;
use sk_msg::Message;
use sk_node::Node;

/// A participant, its ends of the rings, and for each number the message that the ring to it handed
/// back. Such a message goes before all that waits in the participant.
#[derive(Drop)]
pub struct Wired {
    pub(crate) node: Node,
    pub(crate) ends: Ends,
    pub(crate) held: Vec<Option<Message>>,
}
