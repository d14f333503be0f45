//! The roles of contexts.

ghost use Rattle.std.specs.Prelude.{◌≡◌};
ghost use Rattle.pst_fault.specs.First.{Tells};
ghost use Rattle.pst_ndb.specs.Views.{table_of_node, roots_of};
ghost use Rattle.pst_pc.specs.Fault.{pc_fault};
ghost use Rattle.pst_pc.specs.pst_heap.PageMaps.{AreMapsTrue};
ghost use Rattle.pst_tc.specs.Fault.{tc_fault};
ghost use Rattle.pst_remembered.specs.Roles.{role_number, role_fault};

use pst_fault::Fault;
use pst_mail::Items;
use pst_ndb::Node;
use pst_pc::{PageMaps, check_pc_with};
use pst_tc::check_tc_with;

/// What a context is to what names it.
#[derive(Clone, Copy, Debug, PartialEq, Eq)]
pub enum Role {
    /// Its properties.
    Properties,
    /// A table of a folder.
    Listed(Items),
    /// The recipient table of a message.
    Recipients,
    /// The attachment table of a message.
    Attachments,
}

/// The number of a role.
pub fn role_number(role: Role) -> u64
    ensures { result ≡ role_number role }
{
    match role {
        Role::Properties => 0,
        Role::Listed(Items::Subfolders) => 1,
        Role::Listed(Items::Messages) => 2,
        Role::Listed(Items::Associated) => 3,
        Role::Recipients => 4,
        Role::Attachments => 5,
    }
}

// The property context of a node.
fn check_properties(node: Node, maps: &mut PageMaps) -> Result<(), Fault>
    requires known { AreMapsTrue (table_of_node node) maps.old }
    ensures known { AreMapsTrue (table_of_node node.entry) maps.new }
    ensures exact { Tells result (pc_fault (table_of_node node.entry) (roots_of node.entry)) tt }
{
    check_pc_with(node, maps)?;
    Ok(())
}

// A table context of a node, in a role.
fn check_table(node: Node, maps: &mut PageMaps) -> Result<(), Fault>
    requires known { AreMapsTrue (table_of_node node) maps.old }
    ensures known { AreMapsTrue (table_of_node node.entry) maps.new }
    ensures exact { Tells result (tc_fault (table_of_node node.entry) (roots_of node.entry)) tt }
{
    check_tc_with(node, maps)?;
    Ok(())
}

/// Checks the context of a node in a role, by what is known of page maps: properties as `check_pc_with` answers ([MS-PST] 2.3.3), a
/// table as `check_tc_with` does (2.3.4). NoMemory where memory is refused.
pub fn check_context(role: Role, node: Node, maps: &mut PageMaps) -> Result<(), Fault>
    requires known { AreMapsTrue (table_of_node node) maps.old }
    ensures known { AreMapsTrue (table_of_node node.entry) maps.new }
    ensures exact { let t = table_of_node node.entry in
        Tells result (role_fault t role (roots_of node.entry)) tt }
{
    match role {
        Role::Properties => check_properties(node, maps),
        Role::Listed(_) => check_table(node, maps),
        Role::Recipients => check_table(node, maps),
        Role::Attachments => check_table(node, maps),
    }
}
