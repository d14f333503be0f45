//! What the tables of a folder list ([MS-PST] 2.4.4.4 to 2.4.4.6).

ghost use Rattle.std.specs.Prelude.{◌≡◌, ◌<◌};
ghost use Rattle.pst_mail.specs.Nid.{with_type};
ghost use Rattle.pst_mail.specs.Values.{type_of_items, may_list};

use crate::kinds::is_folder;
use crate::nid::{
    ASSOCIATED, ASSOCIATED_CONTENTS, CONTENTS, HIERARCHY, MESSAGE, is_type, with_type,
};

/// What a table of a folder lists.
#[derive(Clone, Copy, Debug, PartialEq, Eq)]
pub enum Items {
    /// Folders and search folders.
    Subfolders,
    /// Messages.
    Messages,
    /// Messages that belong to the folder itself.
    Associated,
}

// The type of the table that lists these.
fn type_of_items(items: Items) -> u32
    ensures is { result ≡ type_of_items items }
    ensures small { result < 32 }
{
    match items {
        Items::Subfolders => HIERARCHY,
        Items::Messages => CONTENTS,
        Items::Associated => ASSOCIATED_CONTENTS,
    }
}

/// The identifier of the node that has the table of a folder, the node `nid`, which lists these: it is of the table's type, and
/// has the folder's index. A file need not have that node.
pub fn listing_nid(nid: u32, items: Items) -> u32
    ensures { result ≡ with_type nid (type_of_items items) }
{
    with_type(nid, type_of_items(items))
}

/// Whether a table that lists these may list a node, by the type that its identifier says.
pub fn may_list(items: Items, nid: u32) -> bool
    ensures { result ≡ may_list items nid }
{
    match items {
        Items::Subfolders => is_folder(nid),
        Items::Messages => is_type(MESSAGE, nid),
        Items::Associated => is_type(ASSOCIATED, nid),
    }
}
