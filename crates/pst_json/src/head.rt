//! The header as a document.

ghost use Rattle.std.specs.Prelude.{◌≡◌, IfOk};
ghost use Rattle.serde_json.specs.View.{view};
ghost use Rattle.pst_json.specs.Head.{bref_data, head_data, head_line as line_of_head};

use pst_header::{Bref, Header};
use pst_value_json::line_text;
use serde_json::{Value as Doc, json};
use std::alloc::{AllocError, Global};

fn bref_doc(alloc: Global, bref: &Bref) -> Result<Doc, AllocError>
    ensures { IfOk result (λ d. view d ≡ bref_data bref.now) }
{
    let bid = bref.bid;
    let ib = bref.ib;
    json!(in alloc; {"bid": bid, "ib": ib})
}

/// The fields of a header as a JSON object, whose keys stand in the order of their bytes. All values are numbers, but
/// for the two BREFs, which are objects.
#[tactic(auto, unfolding(crate::specs::Head::head_data))]
pub fn head_doc(alloc: Global, header: &Header) -> Result<Doc, AllocError>
    ensures { IfOk result (λ d. view d ≡ head_data header.now) }
{
    let bbt = bref_doc(alloc, &header.bbt)?;
    let nbt = bref_doc(alloc, &header.nbt)?;
    let eof = header.eof;
    let free = header.free;
    let last_amap = header.last_amap;
    let maps_valid = header.maps_valid;
    let next_block = header.next_block;
    let next_page = header.next_page;
    let version = header.version;
    json!(in alloc; {
        "bbt": bbt,
        "eof": eof,
        "free": free,
        "last_amap": last_amap,
        "maps_valid": maps_valid,
        "nbt": nbt,
        "next_block": next_block,
        "next_page": next_page,
        "version": version,
    })
}

/// The line that shows a header: the compact text of its document, and a line feed.
#[tactic(auto, using(crate::proofs::HeadLemmas::head_has_none))]
pub fn head_line(alloc: Global, header: &Header) -> Result<Vec<u8>, AllocError>
    ensures { IfOk result (λ t. t.items ≡ line_of_head header.now) }
{
    let doc = head_doc(alloc, header)?;
    line_text(alloc, &doc)
}
