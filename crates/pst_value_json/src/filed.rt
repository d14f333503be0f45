//! Which values of properties have files of their own.

ghost use Rattle.std.specs.Prelude.{◌≡◌, IfOk, option_map, string_bytes};
ghost use Rattle.pst_value_json.specs.Filed.{attachment_file as file_of_attachment, file_told as told, in_folder, message_file as file_of_message};

use pst_text::nid_text;
use pst_value::PropType;
use std::alloc::{AllocError, Global};

/// The headers of a message as it came (PidTagTransportMessageHeaders).
pub const HEADERS: u16 = 0x007D;

/// The body of a message as a text (PidTagBody).
pub const BODY: u16 = 0x1000;

/// The body of a message as HTML (PidTagHtml).
pub const HTML: u16 = 0x1013;

/// The body of a message as compressed RTF (PidTagRtfCompressed).
pub const RTF: u16 = 0x1009;

/// The content of an attachment (PidTagAttachDataBinary).
pub const CONTENT: u16 = 0x3701;

// The types of texts of 16-bit units (PtypString) and of bytes (PtypBinary).
const TEXT: u16 = 0x001F;

const BINARY: u16 = 0x0102;

/// Of which properties a document tells files in place of values.
#[derive(Clone, Copy, Debug, PartialEq, Eq)]
pub enum Filed {
    /// Of none.
    Nothing,
    /// Of those that are the headers and the bodies of a message.
    Message,
    /// Of the one that is the content of an attachment: its file lies in the folder that is called as this node, where one is named.
    Attachment(Option<u32>),
}

/// The file of a message that has the value of a property with this identifier and this type, where one has.
#[tactic(auto, unfolding(crate::specs::Filed::message_file))]
pub fn message_file(id: u16, kind: PropType) -> Option<&'static str>
    ensures { option_map (λ name. name.now) result ≡ file_of_message id kind.0 }
{
    let is_text = kind.0 == TEXT;
    let is_binary = kind.0 == BINARY;
    if id == HEADERS && is_text {
        Some("headers.txt")
    } else if id == BODY && is_text {
        Some("body.txt")
    } else if id == HTML && (is_text || is_binary) {
        Some("body.html")
    } else if id == RTF && is_binary {
        Some("body.rtf.lzfu")
    } else {
        None
    }
}

/// The file of an attachment that has the value of a property with this identifier and this type, where one has.
#[tactic(auto, unfolding(crate::specs::Filed::attachment_file))]
pub fn attachment_file(id: u16, kind: PropType) -> Option<&'static str>
    ensures { option_map (λ name. name.now) result ≡ file_of_attachment id kind.0 }
{
    if id == CONTENT && kind.0 == BINARY {
        Some("data")
    } else {
        None
    }
}

// A file in a folder that is called as a node, where one is named.
fn folder_name(alloc: Global, folder: Option<u32>, name: &str) -> Result<String, AllocError>
    ensures { IfOk result (λ s. string_bytes s ≡ in_folder folder name.now) }
{
    match folder {
        Some(nid) => {
            let mut path = nid_text(alloc, nid)?;
            path.push_str("/")?;
            path.push_str(name)?;
            Ok(path)
        }
        None => String::from_str(alloc, name),
    }
}

/// The file that a document tells in place of the value of a property with this identifier and this type, where it tells one.
pub(crate) fn file_told(
    alloc: Global,
    filed: Filed,
    id: u16,
    kind: PropType,
) -> Result<Option<String>, AllocError>
    ensures { IfOk result (λ file. option_map string_bytes file ≡ told filed id kind.0) }
{
    match filed {
        Filed::Nothing => Ok(None),
        Filed::Message => match message_file(id, kind) {
            Some(name) => Ok(Some(String::from_str(alloc, name)?)),
            None => Ok(None),
        },
        Filed::Attachment(folder) => match attachment_file(id, kind) {
            Some(name) => Ok(Some(folder_name(alloc, folder, name)?)),
            None => Ok(None),
        },
    }
}
