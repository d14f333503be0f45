//! What is told where a path begins.

ghost use Rattle.std.specs.Prelude.{◌≡◌};
ghost use Rattle.pst_whole.specs.View.{lost_in};
ghost use Rattle.pst_props.specs.Path.{path_told};

use pst_fault::Fault;
use pst_whole::Lost;

/// What is told of the node with which a path begins: nothing else is told of the path then.
pub fn lost_at(lost: &Lost, path: &[u32]) -> Option<Fault>
    ensures { result ≡ path_told (lost_in lost.now) path.now }
{
    match path.first() {
        Some(nid) => lost.told(*nid),
        None => None,
    }
}
