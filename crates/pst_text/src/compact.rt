//! The text of a document.

ghost use Rattle.std.specs.Prelude.{◌≡◌, IfOk, false};
ghost use Rattle.serde_json.specs.View.{view};
ghost use Rattle.serde_json.specs.Written.{has_float};
ghost use Rattle.pst_text.specs.Line.{data_line};

use serde_json::Value as Doc;
use std::alloc::{AllocError, Global};

/// A document's compact text, and a line feed. Nothing is said of a document with a floating-point number.
#[tactic(auto, unfolding(crate::specs::Line::data_line))]
pub fn text(alloc: Global, doc: &Doc) -> Result<Vec<u8>, AllocError>
    ensures { IfOk result (λ t.
        has_float (view doc.now) ≡ false → t.items ≡ data_line (view doc.now)) }
{
    let mut text = doc.to_vec(alloc)?;
    text.push(b'\n')?;
    Ok(text)
}

/// The line that shows a document, which has no floating-point number.
pub fn line_text(alloc: Global, doc: &Doc) -> Result<Vec<u8>, AllocError>
    requires { has_float (view doc.now) ≡ false }
    ensures { IfOk result (λ t. t.items ≡ data_line (view doc.now)) }
{
    text(alloc, doc)
}
