//! What an identifier of a node says ([MS-PST] 2.2.2.1): its low 5 bits are the type of the node.

ghost use Rattle.std.specs.Prelude.{◌≡◌, ◌<◌, ◌+◌, IsTrue, ◌↔◌};
ghost use Rattle.pst_mail.specs.Nid.{type_of, is_type, with_type, named};

use pst_fault::{Fault, Kind, Place};

/// The node of the store itself.
pub const STORE: u32 = 0x21;
/// The root folder.
pub const ROOT: u32 = 0x122;

/// The subnode of a message that has its recipient table ([MS-PST] 2.4.5.3).
pub const RECIPIENTS: u32 = 0x692;

/// The subnode of a message that has its attachment table ([MS-PST] 2.4.6.1).
pub const ATTACHMENTS: u32 = 0x671;

/// The type of a folder.
pub const FOLDER: u32 = 0x02;

/// The type of a search folder.
pub const SEARCH_FOLDER: u32 = 0x03;

/// The type of a message.
pub const MESSAGE: u32 = 0x04;

/// The type of an attachment, a subnode of a message.
pub const ATTACHMENT: u32 = 0x05;

/// The type of an associated message, which belongs to its folder itself.
pub const ASSOCIATED: u32 = 0x08;

pub(crate) const HIERARCHY: u32 = 0x0d;

pub(crate) const CONTENTS: u32 = 0x0e;

pub(crate) const ASSOCIATED_CONTENTS: u32 = 0x0f;

/// Whether a node is of a type.
pub fn is_type(kind: u32, nid: u32) -> bool
    ensures { result ≡ is_type kind nid }
{
    nid % 32 == kind
}

/// The node of another type with the same index.
pub(crate) fn with_type(nid: u32, kind: u32) -> u32
    requires { kind < 32 }
    ensures { result ≡ with_type nid kind }
{
    32 * (nid / 32) + kind
}

/// The fault of what names a node, at that name: NodeMissing where there is no node with the identifier `nid`, NodeKind where it is
/// of a type that does not belong there. `at` is the offset in the file, in bytes from its start, of the row or the value that
/// names it, and `bid` the block identifier of the data of the context that this is in; both are 0 where the format itself names
/// the node.
pub fn named(kind: Kind, at: u64, bid: u64, nid: u32) -> Fault
    ensures { result ≡ named kind at bid nid }
{
    Fault {
        kind,
        place: Place { at, bid, nid },
    }
}
