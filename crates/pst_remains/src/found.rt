//! What is found of a damaged file, without its bytes.

ghost use Rattle.std.specs.Prelude.{map, None};
ghost use Rattle.pst_btree.specs.Entries.{block_key, node_key};
ghost use Rattle.pst_btree.specs.Order.{Rises};
ghost use Rattle.pst_btree.specs.TreeProps.{Rises-prop};

use crate::pages::Broken;
use crate::remains::Remains;
use pst_bytes::Image;
use pst_fault::Fault;
use pst_page::{BlockEntry, NodeEntry};

/// What is broken of a file up to its nodes, and what is left of it, as in `Remains`, but for the file's bytes.
#[derive(Drop)]
pub struct Found {
    /// The first fault of the header.
    pub header: Option<Fault>,
    /// The faults of the pages of both trees.
    pub pages: Vec<Fault>,
    /// The faults of blocks.
    pub blocks: Vec<Fault>,
    /// The first fault of the allocation maps.
    pub maps: Option<Fault>,
    /// The entries of the blocks without fault.
    pub good: Vec<BlockEntry>,
    /// The nodes that are left.
    pub nodes: Vec<NodeEntry>,
    /// The pages of the node B-tree with a fault.
    pub broken: Vec<Broken>,
    /// The end of the mapped part, where there is one.
    pub end: u64,
    ghost block_keys: { Rises 0 None (map block_key good.items) } by { Rises-prop 0 None
        (map block_key good.items) },
    ghost node_keys: { Rises 0 None (map node_key nodes.items) } by { Rises-prop 0 None
        (map node_key nodes.items) },
}

impl Found {
    ghost use Rattle.std.specs.Prelude.{◌≡◌};
    ghost use Rattle.pst_bytes.specs.Image.{bytes_of};
    ghost use Rattle.pst_remains.specs.View.{parts_in, parts_over, image_in, IsOver};

    /// The same without the bytes.
    pub fn of(remains: Remains<'_>) -> Found
        ensures parts { parts_over (bytes_of (image_in remains.entry)) result ≡
            parts_in remains.entry }
        ensures over { IsOver (bytes_of (image_in remains.entry)) result }
    {
        let Remains {
            header,
            pages,
            blocks,
            maps,
            good,
            nodes,
            broken,
            image: _,
            end,
        } = remains;
        Found {
            header,
            pages,
            blocks,
            maps,
            good,
            nodes,
            broken,
            end,
        }
    }

    /// The same over bytes over which its blocks have no fault.
    pub fn over<'a>(self, image: Image<'a>) -> Remains<'a>
        requires { IsOver (bytes_of image) self }
        ensures parts { parts_in result ≡ parts_over (bytes_of image.entry) self }
    {
        let Found {
            header,
            pages,
            blocks,
            maps,
            good,
            nodes,
            broken,
            end,
        } = self;
        Remains {
            header,
            pages,
            blocks,
            maps,
            good,
            nodes,
            broken,
            image,
            end,
        }
    }
}
