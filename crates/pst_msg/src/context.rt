//! The contexts, each checked once.

ghost use Rattle.std.specs.Prelude.{◌≡◌, true, Some, None, IfSome, IfOk, IfErr, OnOk};
ghost use Rattle.pst_block.specs.Block.{bid_key};
ghost use Rattle.pst_fault.specs.Fault.{at_node, no_memory};
ghost use Rattle.pst_fault.specs.First.{Tells};
ghost use Rattle.pst_ndb.specs.NodeIndexes.{AreNodeIndexes};
ghost use Rattle.pst_ndb.specs.Views.{table_of_node, roots_of};
ghost use Rattle.pst_pc.specs.pst_heap.PageMaps.{AreMapsTrue};
ghost use Rattle.pst_remembered.specs.Asked.{AreAskedTrue};
ghost use Rattle.pst_remembered.specs.Broken.{context_part};
ghost use Rattle.pst_remembered.specs.Faults.{AreFaultsOf};
ghost use Rattle.pst_remembered.specs.Roles.{role_fault, role_number as number_of};
ghost use Rattle.pst_msg.specs.Known.{ContextIn, IsTrueOf};
ghost use Rattle.pst_msg.specs.Counts.{Names};
ghost use Rattle.pst_msg.specs.Growth.{Grows};

use crate::known::KnownParts;
use pst_fault::Fault;
use pst_ndb::{Node, NodeIndexes, most_values};
use pst_pc::PageMaps;
use pst_remembered::{
    Faults, Key, KnownAsks, Role, check_context, has_broken_data, is_of_data, key_of, part_of,
    part_of_data, role_number,
};
use std::alloc::Global;

// For how many subnodes a context asks the list of its node at most: none, where that has none.
fn asks_of(node: Node) -> u64 {
    if node.bid_sub() == 0 {
        return 0;
    }
    most_values(node)
}

// Whether the context of a node, which has this key, is known to have no fault, by another list that was asked for the same. It is
// asked of few, so this stands apart.
#[inline(never)]
fn answers_by(
    alloc: Global,
    key: Key,
    role: Role,
    node: Node,
    index: &mut NodeIndexes,
    asked: &KnownAsks,
) -> Result<bool, Fault>
    requires block { key.0.0 ≡ bid_key (roots_of node).bid_data }
    requires role { key.1 ≡ number_of role }
    requires index { AreNodeIndexes (table_of_node node) index.old }
    requires asked { AreAskedTrue (table_of_node node) asked.now }
    ensures index { AreNodeIndexes (table_of_node node.entry) index.new }
    ensures known { let t = table_of_node node.entry in IfOk result (λ yes. yes ≡ true →
        role_fault t role (roots_of node.entry) ≡ None) }
    ensures memory { IfErr result (λ f. f ≡ no_memory) }
{
    if asked.are_many(key) {
        index.turn_to_list(alloc, node, asks_of(node))?;
    }
    Ok(asked.answers(key, role, index.lend_list(node)))
}

// Checks the context of a node, unless its data is known, by another list that was asked for the same, to have no fault.
fn check_by(
    alloc: Global,
    role: Role,
    node: Node,
    index: &mut NodeIndexes,
    maps: &mut PageMaps,
    asked: &mut KnownAsks,
) -> Result<(), Fault>
    requires index { AreNodeIndexes (table_of_node node) index.old }
    requires maps { AreMapsTrue (table_of_node node) maps.old }
    requires asked { AreAskedTrue (table_of_node node) asked.old }
    ensures index { AreNodeIndexes (table_of_node node.entry) index.new }
    ensures maps { AreMapsTrue (table_of_node node.entry) maps.new }
    ensures asked { AreAskedTrue (table_of_node node.entry) asked.new }
    ensures exact { let t = table_of_node node.entry in
        Tells result (role_fault t role (roots_of node.entry)) tt }
{
    let key = asked.key_of(role, node);
    if asked.has(key) && answers_by(alloc, key, role, node, index, asked)? {
        return Ok(());
    }
    index.turn(alloc, node, asks_of(node))?;
    let lent = index.lend(node);
    check_context(role, lent, maps)?;
    asked.remember(alloc, role, lent)
}

// The fault that is known of the context of a node: of its data under its list, or of its data alone.
fn known_fault(broken: &Faults, role: Role, node: Node) -> Option<Fault>
    requires { AreFaultsOf at_node (context_part (table_of_node node)) broken.now }
    ensures { let t = table_of_node node.entry in
        IfSome result (λ f. role_fault t role (roots_of node.entry) ≡ Some f) }
{
    let number = role_number(role);
    if let Some(fault) = broken.get(part_of(number, node)) {
        return Some(fault.at_node(node.top()));
    }
    match broken.get(part_of_data(number, node)) {
        Some(fault) if is_of_data(fault) => Some(fault.at_node(node.top())),
        _ => None,
    }
}

// Checks the context of a node, unless it is known to have a fault; and one that it has is known from then on, one of its data for
// all contexts that have the same.
fn check_anew(
    alloc: Global,
    role: Role,
    node: Node,
    index: &mut NodeIndexes,
    maps: &mut PageMaps,
    asked: &mut KnownAsks,
    broken: &mut Faults,
) -> Result<(), Fault>
    requires index { AreNodeIndexes (table_of_node node) index.old }
    requires maps { AreMapsTrue (table_of_node node) maps.old }
    requires asked { AreAskedTrue (table_of_node node) asked.old }
    requires broken { AreFaultsOf at_node (context_part (table_of_node node)) broken.old }
    ensures index { AreNodeIndexes (table_of_node node.entry) index.new }
    ensures maps { AreMapsTrue (table_of_node node.entry) maps.new }
    ensures asked { AreAskedTrue (table_of_node node.entry) asked.new }
    ensures broken { AreFaultsOf at_node (context_part (table_of_node node.entry)) broken.new }
    ensures exact { let t = table_of_node node.entry in
        Tells result (role_fault t role (roots_of node.entry)) tt }
{
    if let Some(fault) = known_fault(broken, role, node) {
        return Err(fault);
    }
    let answer = check_by(alloc, role, node, index, maps, asked);
    if has_broken_data(&answer) {
        return broken.keep(part_of_data(role_number(role), node), answer);
    }
    broken.keep(part_of(role_number(role), node), answer)
}

/// Checks the context of a node in a role, and counts it, unless it is remembered in that role.
pub(crate) fn once(known: &mut KnownParts, role: Role, node: Node) -> Result<(), Fault>
    requires { IsTrueOf (table_of_node node) known.old }
    ensures known { IsTrueOf (table_of_node node.entry) known.new }
    ensures exact { let t = table_of_node node.entry in
        Tells result (role_fault t role (roots_of node.entry)) tt }
    ensures there { OnOk result (ContextIn known.new role (roots_of node.entry)) }
    ensures grows { let t = table_of_node node.entry in
        Grows t (λ nodes. Names t nodes role (roots_of node.entry)) known.old known.new }
{
    let taken = key_of(role_number(role), node);
    if known.contexts.has(taken) {
        return Ok(());
    }
    let alloc = known.alloc;
    check_anew(
        alloc,
        role,
        node,
        &mut known.index,
        &mut known.maps,
        &mut known.asked,
        &mut known.broken,
    )?;
    known.contexts.insert(taken)?;
    known.count = known.count.saturating_add(1);
    Ok(())
}
