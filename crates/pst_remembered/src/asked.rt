//! What contexts that were found without fault asked of their lists of subnodes.

ghost use Rattle.std.specs.Prelude.{◌≡◌, None, IfOk, IfErr};
ghost use Rattle.pst_fault.specs.Fault.{no_memory};
ghost use Rattle.pst_ndb.specs.Views.{table_of_node, roots_of};
ghost use Rattle.pst_value.specs.Met.{HoldsWith};
ghost use Rattle.pst_remembered.specs.Roles.{role_fault};

use crate::keys::{Key, cleared};
use crate::role::{Role, role_number};
use pst_datatree::is_internal;
use pst_fault::Fault;
use pst_ndb::Node;
use pst_pc::known_pc;
use pst_tc::known_tc;
use pst_value::Asks;
use std::alloc::Global;
use std::collections::BTreeMap;

// Properties whose data has no more bytes, in one block, are gone through again in less time than it takes to remember them.
const SMALL: u64 = 2048;

// So few subnodes are looked up without an index of their list.
const FEW: usize = 8;

// What is asked takes a few bytes each, so that for each of so many bytes of the file one is kept.
const SHARE: u64 = 16;

/// What contexts that were found without fault asked of their lists of subnodes. It is kept by the data, by that of the row matrix
/// where it is a subnode, and by the role; and of so many subnodes at most that it takes no more memory than the file.
#[derive(Drop)]
pub struct KnownAsks {
    asks: BTreeMap<Key, Asks>,
    // Which subnode the row matrix is, by the data of the table.
    matrices: BTreeMap<u64, u32>,
    // How many subnodes are asked for by all that are kept, and by the first one for which there was no room.
    count: u64,
}

// What the context of a node asks of its list.
fn asks_of(alloc: Global, role: Role, node: Node) -> Result<Asks, Fault>
    requires { role_fault (table_of_node node) role (roots_of node) ≡ None }
    ensures holds { let t = table_of_node node.entry in
        IfOk result (λ asks. HoldsWith t (roots_of node.entry) asks (role_fault t role)) }
    ensures memory { IfErr result (λ f. f ≡ no_memory) }
{
    match role {
        Role::Properties => known_pc(node).asks(alloc),
        Role::Listed(_) => known_tc(node).asks(alloc),
        Role::Recipients => known_tc(node).asks(alloc),
        Role::Attachments => known_tc(node).asks(alloc),
    }
}

// Whether it pays to remember what the context of a node asks.
fn is_worth(role: Role, node: Node) -> bool {
    if cleared(node.bid_sub()) == 0 {
        return false;
    }
    match role {
        Role::Properties => node.spans().size() > SMALL || is_internal(node.bid_data()),
        Role::Listed(_) | Role::Recipients | Role::Attachments => true,
    }
}

impl KnownAsks {
    ghost use Rattle.std.specs.Prelude.{◌≡◌, true, None, IfErr};
    ghost use Rattle.pst_block.specs.Block.{bid_key};
    ghost use Rattle.pst_block.specs.Table.{Table};
    ghost use Rattle.pst_fault.specs.Fault.{no_memory};
    ghost use Rattle.pst_ndb.specs.Views.{table_of_node, roots_of};
    ghost use Rattle.pst_value.specs.Met.{HoldsWith};
    ghost use Rattle.pst_remembered.specs.Asked.{AreAskedTrue};
    ghost use Rattle.pst_remembered.specs.Roles.{role_number as number_of, role_fault};

    /// Nothing yet. No memory is taken.
    #[tactic(auto, unfolding(crate::specs::Asked::AreAskedTrue))]
    pub fn new(alloc: Global) -> KnownAsks
        ensures { (t : Table) → AreAskedTrue t result }
    {
        KnownAsks {
            asks: BTreeMap::new(alloc),
            matrices: BTreeMap::new(alloc),
            count: 0,
        }
    }

    /// The key of the context of a node, whose row matrix is looked up in the node's list where that of its data is a subnode.
    pub fn key_of(&self, role: Role, node: Node) -> Key
        ensures block { result.0.0 ≡ bid_key (roots_of node.entry).bid_data }
        ensures role { result.1 ≡ number_of role }
    {
        let data = cleared(node.bid_data());
        let matrix = match self.matrices.get(&data).copied() {
            Some(nid) => match node.sub(nid) {
                Some(sub) => cleared(sub.bid_data()),
                None => 0,
            },
            None => 0,
        };
        ((data, matrix), role_number(role))
    }

    /// Whether it is kept what the context with a key asks. Of most contexts it is not.
    pub fn has(&self, key: Key) -> bool {
        self.asks.contains_key(&key)
    }

    /// Whether so many subnodes were asked for by the context with a key that an index of the list pays.
    pub fn are_many(&self, key: Key) -> bool {
        match self.asks.get(&key) {
            Some(asks) => asks.len() > FEW,
            None => false,
        }
    }

    /// Whether the context of a node, which has this key, is known to have no fault: by another list, which was asked for the same.
    #[tactic(auto, unfolding(crate::specs::Asked::AreAskedTrue))]
    pub fn answers(&self, key: Key, role: Role, node: Node) -> bool
        requires known { AreAskedTrue (table_of_node node) self.now }
        requires block { key.0.0 ≡ bid_key (roots_of node).bid_data }
        requires role { key.1 ≡ number_of role }
        ensures { result ≡ true → role_fault (table_of_node node.entry) role (roots_of node.entry)
            ≡ None }
    {
        match self.asks.get(&key) {
            Some(asks) => asks.are_met(node),
            None => false,
        }
    }

    // The row matrix that a table with this data asks for, and the block of its own data, 0 where it is no subnode; which subnode it
    // is, is kept. Or memory is refused.
    #[tactic(auto, using(crate::proofs::AskedLemmas::asks_same))]
    fn learn_matrix(&mut self, data: u64, matrix: Option<(u32, u64)>) -> Result<u64, Fault>
        ensures known { (t : Table) → AreAskedTrue t self.old → AreAskedTrue t self.new }
        ensures memory { IfErr result (λ f. f ≡ no_memory) }
    {
        let Some((nid, block)) = matrix else {
            return Ok(0);
        };
        let _new = self.matrices.insert(data, nid)?;
        Ok(block)
    }

    // What is asked by the context of a node is kept; or memory is refused.
    #[tactic(auto, using(crate::proofs::AskedLemmas::asks_put, crate::proofs::AskedLemmas::asks_same))]
    fn insert(&mut self, role: Role, node: Node, asks: Asks) -> Result<(), Fault>
        requires known { AreAskedTrue (table_of_node node) self.old }
        requires holds { let t = table_of_node node in
            HoldsWith t (roots_of node) asks (role_fault t role) }
        ensures known { AreAskedTrue (table_of_node node.entry) self.new }
        ensures memory { IfErr result (λ f. f ≡ no_memory) }
    {
        let block = cleared(node.bid_data());
        let matrix = self.learn_matrix(block, asks.matrix())?;
        let _new = self
            .asks
            .insert(((block, matrix), role_number(role)), asks)?;
        Ok(())
    }

    // Whether there is room for so many subnodes more; where there is not, there is none from then on.
    #[tactic(auto, using(crate::proofs::AskedLemmas::asks_same))]
    fn takes(&mut self, more: usize, room: u64) -> bool
        ensures { (t : Table) → AreAskedTrue t self.old → AreAskedTrue t self.new }
    {
        self.count = self.count.saturating_add(more as u64);
        self.count <= room
    }

    /// Remembers what the context of a node asks, which has no fault, where that pays and there is room for it; or memory is refused.
    pub fn remember(&mut self, alloc: Global, role: Role, node: Node) -> Result<(), Fault>
        requires known { AreAskedTrue (table_of_node node) self.old }
        requires sound { role_fault (table_of_node node) role (roots_of node) ≡ None }
        ensures known { AreAskedTrue (table_of_node node.entry) self.new }
        ensures memory { IfErr result (λ f. f ≡ no_memory) }
    {
        let room = node.image().len() / SHARE;
        if self.count > room || !is_worth(role, node) {
            return Ok(());
        }
        let asks = asks_of(alloc, role, node)?;
        if !self.takes(asks.len(), room) {
            return Ok(());
        }
        self.insert(role, node, asks)
    }
}
