//! Nodes that are checked one by one.

use crate::check::check_map;
use crate::context::once;
use crate::known::KnownParts;
use crate::message::check_message;
use pst_fault::Fault;
use pst_mail::Items;
use pst_ndb::Node;
use pst_remembered::Role;
use std::alloc::Global;

/// Checks contexts and messages one after another, and remembers what it found without fault, so that this is looked at once,
/// in whatever order it is asked. A fault ends no more than the call that answers it: what was known before stays known, and the
/// checker may be asked about the next node. It is remembered, too, in each role, by the blocks of the data and of the subnodes of the
/// context that has it, of a heap or a BTH by the data alone; and in what a message holds, by each list in which one holds what has it.
/// So this is looked at once, and the fault told of each node that leads to it. All nodes that it is asked about have to be made of
/// the same blocks.
///
/// What is remembered cannot be seen in an answer: it is the first fault of what is asked about, as if nothing were known, or
/// NoMemory where memory is refused.
#[derive(Drop)]
pub struct Checker {
    known: KnownParts,
}

impl Checker {
    ghost use Rattle.std.specs.Prelude.{◌≡◌};
    ghost use Rattle.pst_block.specs.Table.{Table};
    ghost use Rattle.pst_fault.specs.First.{Tells};
    ghost use Rattle.pst_ndb.specs.Views.{table_of_node, roots_of};
    ghost use Rattle.pst_pc.specs.Fault.{pc_fault};
    ghost use Rattle.pst_tc.specs.Fault.{tc_fault};
    ghost use Rattle.pst_msg.specs.Checker.{IsCheckerOf};
    ghost use Rattle.pst_mail.specs.Fault.{name_map_fault, message_fault};

    /// One that knows nothing yet, so it may be asked about nodes of any blocks. No memory is taken.
    pub fn new(alloc: Global) -> Checker
        ensures { (t : Table) → IsCheckerOf t result }
    {
        Checker {
            known: KnownParts::new(alloc, 0),
        }
    }

    /// Checks that a node has properties ([MS-PST] 2.3.3), as `check_pc` answers.
    pub fn check_properties(&mut self, node: Node) -> Result<(), Fault>
        requires { IsCheckerOf (table_of_node node) self.old }
        ensures known { IsCheckerOf (table_of_node node.entry) self.new }
        ensures exact { let t = table_of_node node.entry in
            Tells result (pc_fault t (roots_of node.entry)) tt }
    {
        once(&mut self.known, Role::Properties, node)
    }

    /// Checks that a node is a table ([MS-PST] 2.3.4), as `check_tc` answers, where it is the table of a folder that lists these.
    /// What its rows name is not looked at.
    pub fn check_listing(&mut self, items: Items, node: Node) -> Result<(), Fault>
        requires { IsCheckerOf (table_of_node node) self.old }
        ensures known { IsCheckerOf (table_of_node node.entry) self.new }
        ensures exact { let t = table_of_node node.entry in
            Tells result (tc_fault t (roots_of node.entry)) tt }
    {
        once(&mut self.known, Role::Listed(items), node)
    }

    /// Checks that a node is a message, and all that it holds ([MS-PST] 2.4.5, 2.4.6): by the same rules, and in the same order,
    /// as `check_messaging` checks a message.
    pub fn check_message(&mut self, node: Node) -> Result<(), Fault>
        requires { IsCheckerOf (table_of_node node) self.old }
        ensures known { IsCheckerOf (table_of_node node.entry) self.new }
        ensures exact { let t = table_of_node node.entry in
            Tells result (message_fault t (roots_of node.entry)) tt }
    {
        check_message(node, &mut self.known)
    }

    /// Checks that a node is a name map ([MS-PST] 2.4.7): its properties, and of these what `check_names` answers.
    pub fn check_name_map(&mut self, node: Node) -> Result<(), Fault>
        requires { IsCheckerOf (table_of_node node) self.old }
        ensures known { IsCheckerOf (table_of_node node.entry) self.new }
        ensures exact { let t = table_of_node node.entry in
            Tells result (name_map_fault t (roots_of node.entry)) tt }
    {
        check_map(node, &mut self.known)
    }
    /// A node, which is lent what contexts are found by that have its list or its data, where such were checked.
    pub fn lend<'a>(&'a self, node: Node<'a>) -> Node<'a>
        requires { IsCheckerOf (table_of_node node) self.now }
        ensures roots { roots_of result ≡ roots_of node.entry }
        ensures table { table_of_node result ≡ table_of_node node.entry }
    {
        self.known.index.lend(node)
    }
}
