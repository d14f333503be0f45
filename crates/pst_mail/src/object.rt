//! What an attachment embeds ([MS-PST] 2.4.6.2).

ghost use Rattle.std.specs.Prelude.{◌≡◌};
ghost use Rattle.pst_ndb.specs.Views.{table_of_node, roots_of};
ghost use Rattle.pst_pc.specs.View.{node_of_pc};
ghost use Rattle.pst_mail.specs.Values.{embedded_of};

use pst_pc::Pc;
use pst_value::{as_object, as_u32};

/// The property that says how an attachment is kept (PidTagAttachMethod), its type, and the method of an embedded message.
pub(crate) const METHOD: u16 = 0x3705;

pub(crate) const METHOD_TYPE: u16 = 0x0003;

pub(crate) const EMBEDDED: u32 = 5;

/// The property that names what is kept (PidTagAttachDataObject), and its type.
pub(crate) const CONTENT: u16 = 0x3701;

pub(crate) const CONTENT_TYPE: u16 = 0x000d;

/// The message that an attachment embeds.
#[derive(Clone, Copy, Debug, PartialEq, Eq)]
pub struct Object {
    /// The identifier of the subnode.
    pub nid: u32,
    /// Where the value lies that names it.
    pub at: u64,
}

/// The message that an attachment with these properties embeds, if it does.
#[tactic(auto, unfolding(crate::specs::Values::embedded_of))]
pub fn embedded(pc: &Pc) -> Option<Object>
    ensures { let node = node_of_pc pc.now in
        result ≡ embedded_of (table_of_node node) (roots_of node) }
{
    let method = pc.get(METHOD)?;
    if method.kind.0 != METHOD_TYPE || as_u32(&method.value) != Some(EMBEDDED) {
        return None;
    }
    let content = pc.get(CONTENT)?;
    if content.kind.0 != CONTENT_TYPE {
        return None;
    }
    let (nid, _) = as_object(&content.value)?;
    Some(Object {
        nid,
        at: content.at,
    })
}
