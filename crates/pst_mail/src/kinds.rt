//! Nodes by what they are.

ghost use Rattle.std.specs.Prelude.{◌≡◌};
ghost use Rattle.pst_mail.specs.Values.{is_message, is_folder};

use crate::nid::{ASSOCIATED, FOLDER, MESSAGE, SEARCH_FOLDER, is_type};

/// Whether a node is a folder or a search folder, by its type ([MS-PST] 2.2.2.1).
pub fn is_folder(nid: u32) -> bool
    ensures { result ≡ is_folder nid }
{
    is_type(FOLDER, nid) || is_type(SEARCH_FOLDER, nid)
}

/// Whether a node is a message, or an associated one, by its type ([MS-PST] 2.2.2.1).
pub fn is_message(nid: u32) -> bool
    ensures { result ≡ is_message nid }
{
    is_type(MESSAGE, nid) || is_type(ASSOCIATED, nid)
}
