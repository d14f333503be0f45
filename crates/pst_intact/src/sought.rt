//! The intact nodes by what they are.

ghost use Rattle.std.specs.Prelude.{◌≡◌, true, None, Option, IfSome, IfNone, [], ◌∷◌};
ghost use Rattle.pst_fault.specs.declared.fault.Fault.{Fault};
ghost use Rattle.pst_fault.specs.Each.{first_of};
ghost use Rattle.pst_ndb.specs.Roots.{Roots};
ghost use Rattle.pst_ndb.specs.Views.{image_of_node, table_of_node, top_of, nid_of, roots_of, roots_left, table_left, image_left};
ghost use Rattle.pst_store.specs.Kind.{of_kind};
ghost use Rattle.pst_intact.specs.Sought.{kind_sought};

use pst_msg::{is_folder, is_message};
use pst_ndb::{Node, Nodes};

/// Which nodes are sought.
#[derive(Clone, Copy, Debug, PartialEq, Eq)]
pub(crate) enum Sought {
    /// Folders and search folders.
    Folders,
    /// Messages.
    Messages,
}

// Whether a node is sought.
fn is_sought(sought: Sought, nid: u32) -> bool
    ensures { result ≡ kind_sought sought nid }
{
    match sought {
        Sought::Folders => is_folder(nid),
        Sought::Messages => is_message(nid),
    }
}

/// The first node that is sought among those that are left, and the nodes behind it.
#[tactic(auto, using(pst_store::proofs::KindLemmas::kept, pst_store::proofs::KindLemmas::passed, pst_store::proofs::KindLemmas::ended, pst_store::proofs::KindLemmas::own_nid, pst_fault::proofs::EachLemmas::each_first, pst_fault::proofs::EachLemmas::each_rest))]
pub(crate) fn next_of<'a>(sought: Sought, nodes: Nodes<'a>) -> Option<(Node<'a>, Nodes<'a>)>
    ensures none { IfNone result (of_kind (kind_sought sought) (roots_left nodes.entry) ≡ []) }
    ensures found { IfSome result (λ x. let kind = kind_sought sought in
        of_kind kind (roots_left nodes.entry) ≡ roots_of x.0 ∷ of_kind kind (roots_left x.1)) }
    ensures kind { IfSome result (λ x. kind_sought sought (top_of x.0) ≡ true) }
    ensures own { IfSome result (λ x. nid_of x.0 ≡ top_of x.0) }
    ensures sound { IfSome result (λ x. (part : Roots → Option Fault) →
        first_of part (roots_left nodes.entry) ≡ None →
        (part (roots_of x.0) ≡ None) × (first_of part (roots_left x.1) ≡ None)) }
    ensures table { IfSome result (λ x. table_of_node x.0 ≡ table_left nodes.entry) }
    ensures image { IfSome result (λ x. image_of_node x.0 ≡ image_left nodes.entry) }
    ensures same_table { IfSome result (λ x. table_left x.1 ≡ table_left nodes.entry) }
    ensures same_image { IfSome result (λ x. image_left x.1 ≡ image_left nodes.entry) }
{
    let mut rest = nodes;
    while let Some(node) = rest.next() {
        if is_sought(sought, node.top()) {
            return Some((node, rest));
        }
    }
    None
}
