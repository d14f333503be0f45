//! The path of a folder, from the root folder down.

ghost use Rattle.std.specs.Prelude.{◌≡◌, None, IfOk, OnErr, map, option_map};
ghost use Rattle.pst_btree.specs.Order.{Rises};
ghost use Rattle.pst_reach.specs.Path.{reach_nid, reach_in, IsPlaceIn, parent_in, path_to, path_in};

use crate::reached::Reach;
use std::alloc::{AllocError, Global};

// Where a folder stands among those whose identifiers rise.
fn place_of(reached: &[Reach], nid: u32) -> Result<usize, usize>
    requires rise { Rises 0 None (map reach_nid reached.now) }
    ensures found { IfOk result (IsPlaceIn reached.now nid) }
    ensures absent { OnErr result (reach_in reached.now nid ≡ None) }
{
    reached.binary_search_by_key(&nid, |reach| reach.nid)
}

/// What is known of the folder with an identifier, of folders whose identifiers rise, as `reach` gives them; None where it is
/// not among them. It takes about log n steps of n folders.
pub fn find_reach(reached: &[Reach], nid: u32) -> Option<Reach>
    requires rise { Rises 0 None (map reach_nid reached.now) }
    ensures { result ≡ reach_in reached.now nid }
{
    match place_of(reached, nid) {
        Ok(at) => Some(reached[at]),
        Err(_) => None,
    }
}

// The parent of a folder, 0 of one that is not there.
fn parent_of(reached: &[Reach], nid: u32) -> u32
    requires rise { Rises 0 None (map reach_nid reached.now) }
    ensures { result ≡ parent_in reached.now nid }
{
    match find_reach(reached, nid) {
        Some(reach) => reach.parent,
        None => 0,
    }
}

// The path of a folder that is reached.
fn path_of(alloc: Global, reached: &[Reach], last: Reach) -> Result<Vec<u32>, AllocError>
    requires rise { Rises 0 None (map reach_nid reached.now) }
    ensures { IfOk result (λ v. v.items ≡ path_to reached.now last) }
{
    let mut path = Vec::new(alloc);
    let mut nid = last.nid;
    let mut depth = last.depth;
    while depth > 0 {
        path.push(nid)?;
        nid = parent_of(reached, nid);
        depth -= 1;
    }
    path.push(nid)?;
    path.reverse();
    Ok(path)
}

/// The path of the folder with an identifier: the identifiers from the root folder down the parents to the folder, itself the
/// last; None where it is not among these folders, whose identifiers rise, as `reach` gives them. A path has one identifier more
/// than the folder's depth, and each takes about log n steps of n folders.
pub fn path_from_root(
    alloc: Global,
    reached: &[Reach],
    nid: u32,
) -> Result<Option<Vec<u32>>, AllocError>
    requires rise { Rises 0 None (map reach_nid reached.now) }
    ensures { IfOk result (λ o. option_map (λ v. v.items) o ≡ path_in reached.now nid) }
{
    match find_reach(reached, nid) {
        Some(last) => Ok(Some(path_of(alloc, reached, last)?)),
        None => Ok(None),
    }
}
