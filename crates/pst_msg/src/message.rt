//! The check of a message, and of all that it holds. Messages nest in one another: one is gone on with, and those that wait for it
//! stand on a stack in memory.

ghost use Rattle.std.specs.Prelude.{◌≡◌, [], Option, None, OnOk, IfOk, IfErr, IfSome, IfNone};
ghost use Rattle.pst_fault.specs.declared.fault.Fault.{Fault as SpecFault};
ghost use Rattle.pst_fault.specs.Fault.{no_memory};
ghost use Rattle.pst_fault.specs.First.{IsFirst, Tells};
ghost use Rattle.pst_ndb.specs.Views.{table_of_node, roots_of};
ghost use Rattle.pst_msg.specs.Counts.{HasMessage};
ghost use Rattle.pst_subnode.specs.declared.check.TheConstants.{LISTS};
ghost use Rattle.pst_mail.specs.Fault.{held_fault, below_message, message_at, message_fault};
ghost use Rattle.pst_msg.specs.Frames.{IsFrame, HasHolder, HolderIn, AreBrokenBy, WaitFor, IsWentOn, with_rest};
ghost use Rattle.pst_msg.specs.Growth.{Grows};
ghost use Rattle.pst_msg.specs.Known.{WholeIn, IsTrueOf};
ghost use Rattle.pst_msg.specs.Rest.{IsNextRow, AreNoRows, rows_of_table_left, table_of_rest};

use crate::frame::Frame;
use crate::known::KnownParts;
use crate::open::{open_message, open_row};
use crate::remember::{remember_attachment, remember_broken, remember_held};
use pst_fault::Fault;
use pst_ndb::Node;
use pst_remembered::RowName;
use pst_subnode::LISTS;

// A message of which no row is left, and the attachment that embeds it, are remembered.
fn finish(frame: &Frame, known: &mut KnownParts) -> Result<(), Fault>
    requires known { IsTrueOf (table_of_node frame.now.node) known.old }
    requires frame { IsFrame (table_of_node frame.now.node) known.old None None frame.now }
    requires holder { HasHolder (table_of_node frame.now.node) known.old frame.now }
    requires done { rows_of_table_left frame.now.rest ≡ [] }
    ensures known { IsTrueOf (table_of_node frame.now.node) known.new }
    ensures grows { Grows (table_of_node frame.now.node) (λ nodes. Unit {0}) known.old known.new }
    ensures there { OnOk result (WholeIn known.new.messages (roots_of frame.now.node)) }
    ensures holder { OnOk result (HolderIn known.new frame.now) }
    ensures memory { IfErr result (λ f. f ≡ no_memory) }
{
    remember_held(frame.node, known)?;
    match frame.holder {
        Some(attachment) => remember_attachment(attachment, known),
        None => Ok(()),
    }
}

// The index of a message's list is made, where many rows are left behind the one that is come to, and one was gone through: so of a
// message with one row neither its rows nor its list are looked at for this.
fn turn_to(frame: &Frame, gone: u32, known: &mut KnownParts) -> Result<(), Fault>
    requires { IsTrueOf (table_of_node frame.now.node) known.old }
    ensures known { IsTrueOf (table_of_node frame.now.node) known.new }
    ensures grows { Grows (table_of_node frame.now.node) (λ nodes. Unit {0}) known.old known.new }
    ensures memory { IfErr result (λ f. f ≡ no_memory) }
{
    if gone != 1 {
        return Ok(());
    }
    known.indexes.turn(known.alloc, frame.node, &frame.rest)
}

// What the next row of a message's attachment table names; or memory is refused.
fn next_row(frame: &mut Frame, known: &mut KnownParts) -> Result<Option<RowName>, Fault>
    requires known { IsTrueOf (table_of_node frame.old.node) known.old }
    requires table { table_of_rest frame.old.rest ≡ table_of_node frame.old.node }
    ensures known { IsTrueOf (table_of_node frame.old.node) known.new }
    ensures grows { Grows (table_of_node frame.old.node) (λ nodes. Unit {0}) known.old known.new }
    ensures only { frame.new ≡ with_rest frame.old frame.new.rest }
    ensures table { table_of_rest frame.new.rest ≡ table_of_node frame.old.node }
    ensures some { IfOk result (λ o. IfSome o (λ name.
        IsNextRow (rows_of_table_left frame.old.rest) name (rows_of_table_left frame.new.rest))) }
    ensures none { IfOk result (λ o. IfNone o
        (AreNoRows (rows_of_table_left frame.old.rest) (rows_of_table_left frame.new.rest))) }
    ensures memory { IfErr result (λ f. f ≡ no_memory) }
{
    frame.rest.next(&known.index, &mut known.row_names)
}

// A fault in what a message holds is that of those which wait for it, too: it is known from then on of each.
fn remember_all(
    node: Node,
    stack: &[Frame],
    fault: Fault,
    known: &mut KnownParts,
) -> Result<(), Fault>
    requires known { IsTrueOf (table_of_node node) known.old }
    requires first { let t = table_of_node node in
        IsFirst (held_fault t (below_message t LISTS) (roots_of node)) fault }
    requires stack { AreBrokenBy (table_of_node node) fault stack.now }
    ensures known { IsTrueOf (table_of_node node.entry) known.new }
    ensures grows { Grows (table_of_node node.entry) (λ nodes. Unit {0}) known.old known.new }
    ensures memory { IfErr result (λ f. f ≡ no_memory) }
{
    remember_broken(node, fault, known)?;
    for frame in stack {
        remember_broken(frame.node, fault, known)?;
    }
    Ok(())
}

// A fault in what a message holds, which is known from then on and handed on. A whole store has none, so this stands apart.
#[cold]
#[inline(never)]
fn refuse_all(node: Node, stack: &[Frame], fault: Fault, known: &mut KnownParts) -> Fault
    requires known { IsTrueOf (table_of_node node) known.old }
    requires first { let t = table_of_node node in
        IsFirst (held_fault t (below_message t LISTS) (roots_of node)) fault }
    requires stack { AreBrokenBy (table_of_node node) fault stack.now }
    ensures known { IsTrueOf (table_of_node node.entry) known.new }
    ensures grows { Grows (table_of_node node.entry) (λ nodes. Unit {0}) known.old known.new }
    ensures same { (first : Option SpecFault) → IsFirst first fault → IsFirst first result }
{
    match remember_all(node, stack, fault, known) {
        Ok(()) => fault,
        Err(refused) => refused,
    }
}

// Goes on with a message: through its rows, up to one whose attachment embeds a message that has to be gone through first, which
// is given; and after the last of them the message is remembered. `before` is 0 where none of its rows was gone through, else 1.
// Where it has a fault, that is known from then on of it and of those which wait for it.
fn go_on<'a>(
    frame: &mut Frame<'a>,
    before: u32,
    stack: &[Frame<'a>],
    known: &mut KnownParts,
) -> Result<Option<Frame<'a>>, Fault>
    requires known { IsTrueOf (table_of_node frame.old.node) known.old }
    requires frame { IsFrame (table_of_node frame.old.node) known.old None None frame.old }
    requires holder { HasHolder (table_of_node frame.old.node) known.old frame.old }
    requires stack { WaitFor (table_of_node frame.old.node) frame.old stack.now }
    ensures known { IsTrueOf (table_of_node frame.old.node) known.new }
    ensures grows { let t = table_of_node frame.old.node in
        Grows t (λ nodes. HasMessage t nodes (roots_of frame.old.node)) known.old known.new }
    ensures refused { let t = table_of_node frame.old.node in
        IfErr result (IsFirst (message_at t frame.old.limit (roots_of frame.old.node))) }
    ensures done { IfOk result (λ o. IfNone o (WholeIn known.new.messages (roots_of frame.old.node)
        × HolderIn known.new frame.old)) }
    ensures open { let t = table_of_node frame.old.node in
        IfOk result (λ o. IfSome o (IsWentOn t known.new frame.old frame.new)) }
{
    let mut gone = before;
    while let Some(row) = next_row(frame, known)? {
        turn_to(frame, gone, known)?;
        gone = gone.saturating_add(1);
        match open_row(frame.node, frame.bid, row, frame.limit, known) {
            Ok(Some(above)) => return Ok(Some(above)),
            Ok(None) => {}
            Err(fault) => return Err(refuse_all(frame.node, stack, fault, known)),
        }
    }
    finish(frame, known)?;
    Ok(None)
}

/// Checks a message of a checked file, and all that it holds. What is found without fault is remembered, and passed over
/// where it is met again; so is a fault of what one of them holds, where it is the same in each that has its list of subnodes.
pub(crate) fn check_message(node: Node, known: &mut KnownParts) -> Result<(), Fault>
    requires { IsTrueOf (table_of_node node) known.old }
    ensures known { IsTrueOf (table_of_node node.entry) known.new }
    ensures grows { let t = table_of_node node.entry in
        Grows t (λ nodes. HasMessage t nodes (roots_of node.entry)) known.old known.new }
    ensures there { OnOk result (WholeIn known.new.messages (roots_of node.entry)) }
    ensures exact { let t = table_of_node node.entry in
        Tells result (message_fault t (roots_of node.entry)) tt }
{
    let Some(first) = open_message(node, LISTS, None, known)? else {
        return Ok(());
    };
    // The message that is gone on with; those on the stack wait for it.
    let mut last = first;
    let mut gone = 0;
    let mut stack = Vec::new(known.alloc);
    loop {
        match go_on(&mut last, gone, &stack, known)? {
            Some(above) => {
                stack.push(last)?;
                last = above;
                gone = 0;
            }
            None => {
                gone = 1;
                match stack.pop() {
                    Some(below) => last = below,
                    None => return Ok(()),
                }
            }
        }
    }
}
