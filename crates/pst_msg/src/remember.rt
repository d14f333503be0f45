//! What is found without fault is remembered, and the fault of what is not.

ghost use Rattle.std.specs.Prelude.{◌≡◌, None, OnOk, IfErr};
ghost use Rattle.pst_fault.specs.Fault.{no_memory};
ghost use Rattle.pst_fault.specs.First.{IsFirst};
ghost use Rattle.pst_subnode.specs.declared.check.TheConstants.{LISTS};
ghost use Rattle.pst_subnode.specs.Tree.{sub_fault};
ghost use Rattle.pst_ndb.specs.Views.{table_of_node, sub_bid_of, roots_of};
ghost use Rattle.pst_remembered.specs.declared.role.Role.TheVariants.{Properties};
ghost use Rattle.pst_mail.specs.Fault.{held_fault, below_message, attachment_fault};
ghost use Rattle.pst_msg.specs.Growth.{Grows};
ghost use Rattle.pst_msg.specs.Known.{ContextIn, WholeIn, HeldIn, AttachmentIn, IsTrueOf};

use crate::known::KnownParts;
use pst_fault::Fault;
use pst_ndb::Node;
use pst_remembered::{is_alike, key_of, key_of_list, part_of_list};

// What a message holds in its list of subnodes, by that list.
fn remember_list(node: Node, known: &mut KnownParts) -> Result<(), Fault>
    requires known { IsTrueOf (table_of_node node) known.old }
    requires none { let t = table_of_node node in
        held_fault t (below_message t LISTS) (roots_of node) ≡ None }
    requires inside { HeldIn (table_of_node node) known.old (roots_of node) }
    ensures known { IsTrueOf (table_of_node node.entry) known.new }
    ensures grows { Grows (table_of_node node.entry) (λ nodes. Unit {0}) known.old known.new }
    ensures memory { IfErr result (λ f. f ≡ no_memory) }
{
    known.lists.insert(key_of_list(node))
}

/// A message, whole: its properties are known, and what it holds has no fault.
pub(crate) fn remember_message(node: Node, known: &mut KnownParts) -> Result<(), Fault>
    requires known { IsTrueOf (table_of_node node) known.old }
    requires none { let t = table_of_node node in
        held_fault t (below_message t LISTS) (roots_of node) ≡ None }
    requires properties { ContextIn known.old Properties (roots_of node) }
    requires inside { HeldIn (table_of_node node) known.old (roots_of node) }
    ensures known { IsTrueOf (table_of_node node.entry) known.new }
    ensures grows { Grows (table_of_node node.entry) (λ nodes. Unit {0}) known.old known.new }
    ensures there { OnOk result (WholeIn known.new.messages (roots_of node.entry)) }
    ensures memory { IfErr result (λ f. f ≡ no_memory) }
{
    known.messages.insert(key_of(0, node))
}

/// What a message holds, and the message.
pub(crate) fn remember_held(node: Node, known: &mut KnownParts) -> Result<(), Fault>
    requires known { IsTrueOf (table_of_node node) known.old }
    requires none { let t = table_of_node node in
        held_fault t (below_message t LISTS) (roots_of node) ≡ None }
    requires properties { ContextIn known.old Properties (roots_of node) }
    requires inside { HeldIn (table_of_node node) known.old (roots_of node) }
    ensures known { IsTrueOf (table_of_node node.entry) known.new }
    ensures grows { Grows (table_of_node node.entry) (λ nodes. Unit {0}) known.old known.new }
    ensures there { OnOk result (WholeIn known.new.messages (roots_of node.entry)) }
    ensures memory { IfErr result (λ f. f ≡ no_memory) }
{
    remember_list(node, known)?;
    remember_message(node, known)
}

/// An attachment, whole.
pub(crate) fn remember_attachment(node: Node, known: &mut KnownParts) -> Result<(), Fault>
    requires known { IsTrueOf (table_of_node node) known.old }
    requires none { attachment_fault (table_of_node node) (roots_of node) ≡ None }
    requires inside { AttachmentIn (table_of_node node) known.old (roots_of node) }
    ensures known { IsTrueOf (table_of_node node.entry) known.new }
    ensures grows { Grows (table_of_node node.entry) (λ nodes. Unit {0}) known.old known.new }
    ensures there { OnOk result (WholeIn known.new.attachments (roots_of node.entry)) }
    ensures memory { IfErr result (λ f. f ≡ no_memory) }
{
    known.attachments.insert(key_of(0, node))
}

/// The fault of what a message holds is known from then on, by its list, where it is the same in each message that has that.
pub(crate) fn remember_broken(node: Node, fault: Fault, known: &mut KnownParts) -> Result<(), Fault>
    requires known { IsTrueOf (table_of_node node) known.old }
    requires first { let t = table_of_node node in
        IsFirst (held_fault t (below_message t LISTS) (roots_of node)) fault }
    ensures known { IsTrueOf (table_of_node node.entry) known.new }
    ensures grows { Grows (table_of_node node.entry) (λ nodes. Unit {0}) known.old known.new }
    ensures memory { IfErr result (λ f. f ≡ no_memory) }
{
    if is_alike(fault, node.top()) {
        known.broken_lists.remember(part_of_list(node), fault)?;
    }
    Ok(())
}

/// The fault of what a message holds, which is known from then on, as `remember_broken` knows it, and handed on. A whole store has
/// none, so this stands apart.
#[cold]
#[inline(never)]
pub(crate) fn refuse_held(node: Node, limit: u32, fault: Fault, known: &mut KnownParts) -> Fault
    requires sound { sub_fault (table_of_node node) limit (sub_bid_of node) ≡ None }
    requires known { IsTrueOf (table_of_node node) known.old }
    requires first { let t = table_of_node node in
        IsFirst (held_fault t (below_message t limit) (roots_of node)) fault }
    ensures known { IsTrueOf (table_of_node node.entry) known.new }
    ensures grows { Grows (table_of_node node.entry) (λ nodes. Unit {0}) known.old known.new }
    ensures first { let t = table_of_node node.entry in
        IsFirst (held_fault t (below_message t limit) (roots_of node.entry)) result }
{
    match remember_broken(node, fault, known) {
        Ok(()) => fault,
        Err(refused) => refused,
    }
}
