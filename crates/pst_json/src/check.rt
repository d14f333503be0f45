//! The report of a check as a document.

ghost use Rattle.std.specs.Prelude.{◌≡◌, IfOk, OnOk};
ghost use Rattle.serde_json.specs.Data.{string};
ghost use Rattle.serde_json.specs.View.{view};
ghost use Rattle.pst_json.specs.Check.{lost_data, report_parts, order_data, check_data, check_line as line_of_check};
ghost use Rattle.pst_value_json.specs.pst_text.Parts.{list_data};

use pst_amap::BitOrder;
use pst_bytes::Span;
use pst_value_json::{Leaf, Pen, end_line, only, write_digest_member};
use pst_verify::Report;
use serde_json::Value as Doc;
use std::alloc::{AllocError, Global};

// Writes a lost run, as an object.
#[tactic(auto, unfolding(crate::specs::Check::lost_data))]
fn write_lost<P: Pen>(alloc: Global, run: Span, pen: &mut P) -> Result<(), AllocError>
    ensures put { OnOk result (P.Puts pen.old pen.new (lost_data run)) }
    ensures kept { (base : P) → P.Keeps base pen.old → P.Keeps base pen.new }
{
    pen.first(alloc, "at", b"{\"at\":")?;
    pen.leaf(alloc, &Leaf::Natural(run.at))?;
    pen.next(alloc, "len", b",\"len\":")?;
    pen.leaf(alloc, &Leaf::Natural(run.len))?;
    pen.close(alloc)
}

// Writes lost runs, as a list.
fn write_runs<P: Pen>(alloc: Global, runs: &[Span], pen: &mut P) -> Result<(), AllocError>
    ensures put { OnOk result (P.Puts pen.old pen.new (list_data lost_data runs.now)) }
    ensures kept { (base : P) → P.Keeps base pen.old → P.Keeps base pen.new }
{
    pen.open_list(alloc)?;
    let mut later = false;
    for lost in runs {
        pen.comma(later)?;
        write_lost(alloc, *lost, pen)?;
        pen.item(alloc)?;
        later = true;
    }
    pen.close_list(later)
}

// The name of an order of bits.
fn order_word(order: BitOrder) -> &'static str
    ensures { string result.now ≡ order_data order }
{
    match order {
        BitOrder::High => "high",
        BitOrder::Low => "low",
    }
}

// Writes the document.
#[tactic(auto, unfolding(crate::specs::Check::check_data))]
fn write_report<P: Pen>(
    alloc: Global,
    report: &Report,
    digest: Option<[u8; 32]>,
    pen: &mut P,
) -> Result<(), AllocError>
    ensures put { OnOk result
        (P.Puts pen.old pen.new (check_data (report_parts report.now) digest)) }
    ensures kept { (base : P) → P.Keeps base pen.old → P.Keeps base pen.new }
{
    pen.first(alloc, "blocks", b"{\"blocks\":")?;
    pen.leaf(alloc, &Leaf::Natural(report.blocks))?;
    pen.next(alloc, "folders", b",\"folders\":")?;
    pen.leaf(alloc, &Leaf::Natural(report.folders))?;
    pen.next(alloc, "lost", b",\"lost\":")?;
    write_runs(alloc, &report.lost, pen)?;
    pen.next(alloc, "messages", b",\"messages\":")?;
    pen.leaf(alloc, &Leaf::Natural(report.messages))?;
    pen.next(alloc, "nodes", b",\"nodes\":")?;
    pen.leaf(alloc, &Leaf::Natural(report.nodes))?;
    pen.next(alloc, "order", b",\"order\":")?;
    pen.leaf(alloc, &Leaf::Word(order_word(report.order)))?;
    pen.next(alloc, "pages", b",\"pages\":")?;
    pen.leaf(alloc, &Leaf::Natural(report.pages))?;
    write_digest_member(alloc, digest, pen)?;
    pen.next(alloc, "verdict", b",\"verdict\":")?;
    pen.leaf(alloc, &Leaf::Word("yes"))?;
    pen.close(alloc)
}

/// The report of a check as a JSON object, whose keys stand in the order of their bytes: how many blocks, folders,
/// messages, nodes and pages there are, the lost runs, the order of the bits of the allocation maps, the SHA-256 of the
/// file, where it is to be told, and the verdict, which is `yes`.
pub fn check_doc(
    alloc: Global,
    report: &Report,
    digest: Option<[u8; 32]>,
) -> Result<Doc, AllocError>
    ensures { IfOk result (λ d. view d ≡ check_data (report_parts report.now) digest) }
{
    let mut docs = Vec::new(alloc);
    write_report(alloc, report, digest, &mut docs)?;
    Ok(only(docs))
}

/// The line that shows the report of a check: the compact text of its document, and a line feed. No memory is taken beside the text.
#[tactic(auto, unfolding(crate::specs::Check::check_line, pst_text::specs::Line::data_line))]
pub fn check_line(
    alloc: Global,
    report: &Report,
    digest: Option<[u8; 32]>,
) -> Result<Vec<u8>, AllocError>
    ensures { IfOk result (λ t. t.items ≡ line_of_check (report_parts report.now) digest) }
{
    let mut text = Vec::new(alloc);
    write_report(alloc, report, digest, &mut text)?;
    end_line(text)
}
