//! The check of a file up to its nodes.

ghost use Rattle.std.specs.Prelude.{◌≡◌, None, IfOk, IfErr, OnOk};
ghost use Rattle.pst_bytes.specs.Image.{bytes_of};
ghost use Rattle.pst_fault.specs.Fault.{no_memory};
ghost use Rattle.pst_fault.specs.First.{IsFirst};
ghost use Rattle.pst_header.specs.declared.header.Header.{Header};
ghost use Rattle.pst_header.specs.Head.{Head};
ghost use Rattle.pst_header.specs.Header.{fields};
ghost use Rattle.pst_page.specs.declared.kind.PageKind.TheVariants.{Bbt, Nbt};
ghost use Rattle.pst_btree.specs.Tree.{Tree};
ghost use Rattle.pst_amap.specs.declared.report.BitOrder.{BitOrder};
ghost use Rattle.pst_ndb.specs.Checked.{IsCheckedOf};
ghost use Rattle.pst_ndb.specs.Database.{Database};
ghost use Rattle.pst_ndb.specs.Entries.{tree_under};
ghost use Rattle.pst_ndb.specs.Fault.{file_fault, ndb_fault};
ghost use Rattle.pst_ndb.specs.Views.{header_of};

use crate::check_nodes::check_nodes;
use crate::ndb::Ndb;
use crate::space::check_maps;
use pst_amap::MapReport;
use pst_bytes::Image;
use pst_fault::Fault;
use pst_header::{Header, read_header};
use std::alloc::Global;

/// How much work a check was. A count stays at its greatest value once it is there.
#[derive(Clone, Copy, Debug, PartialEq, Eq)]
pub struct Work {
    /// How many pages of the B-trees were decoded by walks.
    pub pages: u64,
    /// How many blocks were check-summed.
    pub sums: u64,
    /// How many internal blocks were expanded, whose entries were followed: each once.
    pub expansions: u64,
    /// How many contexts were checked.
    pub contexts: u64,
    /// How many folders were walked from, to find which folders the root folder reaches.
    pub walked: u64,
}

/// What a check finds in a file without fault.
#[derive(Drop)]
pub struct Checked<'a> {
    /// Its node database.
    pub ndb: Ndb<'a>,
    /// What the allocation maps say beside what is in use.
    pub map: MapReport,
    /// How much work it was.
    pub work: Work,
}

// A file with this header.
#[tactic(auto, unfolding(crate::specs::Fault::file_fault))]
fn check_file<'a>(alloc: Global, image: Image<'a>, header: &Header) -> Result<Checked<'a>, Fault>
    requires { Head (bytes_of image) header.now }
    ensures exact { IfErr result (IsFirst (file_fault (bytes_of image.entry) header.now)) }
    ensures none { OnOk result (file_fault (bytes_of image.entry) header.now ≡ None) }
    ensures checked { IfOk result (IsCheckedOf image.entry header.now) }
{
    let (space, map) = check_maps(alloc, image, header)?;
    let expansions = check_nodes(alloc, &space.blocks, &space.nodes)?;
    let ndb = Ndb::known(header, space.blocks, space.nodes);
    let work = Work {
        pages: space.pages,
        sums: space.sums,
        expansions,
        contexts: 0,
        walked: 0,
    };
    Ok(Checked { ndb, map, work })
}

// The check, with the fault that it gives.
#[tactic(auto, unfolding(crate::specs::Fault::ndb_fault))]
fn check_exactly<'a>(alloc: Global, image: Image<'a>) -> Result<Checked<'a>, Fault>
    ensures exact { IfErr result (IsFirst (ndb_fault (bytes_of image.entry))) }
    ensures none { OnOk result (ndb_fault (bytes_of image.entry) ≡ None) }
    ensures checked { IfOk result (IsCheckedOf image.entry (fields (bytes_of image.entry))) }
{
    let header = read_header(image)?;
    check_file(alloc, image, &header)
}

/// Checks a file up to its nodes, and gives its node database; or its first fault, in this order:
///
/// 1. of the header, as `read_header` says;
/// 2. the block B-tree, as `walk_blocks` says, once all allocation map and page map pages are claimed;
/// 3. the node B-tree, as `walk_node_tree` says;
/// 4. the blocks in order of their keys, as `check_blocks` says;
/// 5. the allocation maps, as `compare` says;
/// 6. node by node, their identifiers rising: the data tree, as `check_data` says, and then the subnodes, as `check_sub`
///    says.
///
/// NoMemory where memory is refused.
pub fn check_ndb<'a>(alloc: Global, image: Image<'a>) -> Result<Checked<'a>, Fault>
    // Which fault it is, and that there is none where a node database is given.
    ensures exact { IfErr result (IsFirst (ndb_fault (bytes_of image.entry))) }
    ensures none { OnOk result (ndb_fault (bytes_of image.entry) ≡ None) }

    // What is given is what the bytes spell; and what they spell is given, unless memory ran out.
    ensures found { IfOk result (λ c. Database (bytes_of image.entry)
        (header_of c.ndb) (tree_under Bbt (bytes_of image.entry) (header_of c.ndb).bbt)
        (tree_under Nbt (bytes_of image.entry) (header_of c.ndb).nbt) c.map.order) }
    ensures only { (h : Header) (blocks nodes : Tree) (order : BitOrder) →
        Database (bytes_of image.entry) h blocks nodes order → IfErr result (λ f. f ≡ no_memory) }

    // Its file, header, blocks and nodes; what is reported of its maps, and how much work it was.
    ensures checked { IfOk result (IsCheckedOf image.entry (fields (bytes_of image.entry))) }
{
    check_exactly(alloc, image)
}
