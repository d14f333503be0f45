//! A message that is being gone through.

use crate::rest::Rest;
use pst_ndb::Node;

/// A message whose properties, recipients and attachment table have no fault, and of whose rows some are left.
#[derive(Drop)]
pub(crate) struct Frame<'a> {
    /// The attachment that embeds it, where one does: it waits for the message, only to be remembered.
    pub(crate) holder: Option<Node<'a>>,
    pub(crate) node: Node<'a>,
    /// The identifier of the block of its attachment table's data.
    pub(crate) bid: u64,
    /// The rows of its attachment table that are left.
    pub(crate) rest: Rest<'a>,
    /// How many lists of subnodes may nest below it.
    pub(crate) limit: u32,
}
