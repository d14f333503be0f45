//! The check of the recipients of a message.

ghost use Rattle.std.specs.Prelude.{◌≡◌, Some, OnOk};
ghost use Rattle.pst_fault.specs.Each.{if_there};
ghost use Rattle.pst_fault.specs.First.{Tells};
ghost use Rattle.pst_ndb.specs.Roots.{Roots, subnode_of};
ghost use Rattle.pst_ndb.specs.Views.{table_of_node, roots_of};
ghost use Rattle.pst_tc.specs.Fault.{tc_fault};
ghost use Rattle.pst_mail.specs.declared.nid.TheConstants.{RECIPIENTS};
ghost use Rattle.pst_remembered.specs.declared.role.Role.TheVariants.{Recipients};
ghost use Rattle.pst_msg.specs.Counts.{HasMessage};
ghost use Rattle.pst_msg.specs.Growth.{Grows};
ghost use Rattle.pst_msg.specs.Known.{ContextIn, IsTrueOf};

use crate::context::once;
use crate::known::KnownParts;
use pst_fault::Fault;
use pst_mail::RECIPIENTS;
use pst_ndb::Node;
use pst_remembered::Role;

/// Checks the recipient table of a message, where it is there.
pub(crate) fn check_recipients(node: Node, known: &mut KnownParts) -> Result<(), Fault>
    requires { IsTrueOf (table_of_node node) known.old }
    ensures known { IsTrueOf (table_of_node node.entry) known.new }
    ensures grows { let t = table_of_node node.entry in
        Grows t (λ nodes. HasMessage t nodes (roots_of node.entry)) known.old known.new }
    ensures there { let t = table_of_node node.entry in
        OnOk result ((s : Roots) → subnode_of t (roots_of node.entry) RECIPIENTS ≡ Some s →
        ContextIn known.new Recipients s) }
    ensures exact { let t = table_of_node node.entry in
        Tells result (if_there (tc_fault t) (subnode_of t (roots_of node.entry) RECIPIENTS)) tt }
{
    match known.index.subnode(node, RECIPIENTS) {
        Some(table) => {
            once(known, Role::Recipients, table)?;
            Ok(())
        }
        None => Ok(()),
    }
}
