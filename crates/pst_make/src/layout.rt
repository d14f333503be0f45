//! Placing the pages and blocks of a plan: the pages of the node B-tree, those of the block B-tree, and the blocks.

ghost use Rattle.std.specs.Prelude.{◌≡◌, ◌+◌, ◌%◌, ◌≤◌, ◌<◌, length, map, nat_eq, IfOk, IfErr};
ghost use Rattle.std.specs.List.{All};
ghost use Rattle.pst_make.specs.declared.layout.TheConstants.{FIRST_MAP};
ghost use Rattle.pst_make.specs.Layout.{IsBlockBelow, IsPageBelow, IsPlaceFault, after, after_blocks, after_pages, block_places, map_place, place_of_block, places_from, plan_end, free_from, pages_above, pages_for, place_of, store_limit, tree_pages};
ghost use Rattle.pst_make.specs.Plan.{HasShortBody, body_lengths};

use crate::plan::{BlockPlan, MakeFault, Plan};
use crate::seal::block_size;
use std::alloc::Global;

/// The place of the first allocation map ([MS-PST] 2.2.2.7.2).
pub(crate) const FIRST_MAP: u64 = 0x4400;

/// How many bytes an allocation map maps, from itself on: its region.
pub(crate) const REGION: u64 = 253_952;

// A store is not made past the end of this many regions.
const MOST_REGIONS: u64 = 16;

/// How many entries fill a leaf of the node B-tree.
pub(crate) const NODES_A_LEAF: usize = 15;

/// How many entries fill a leaf of the block B-tree, and a branch of either tree.
pub(crate) const CHILDREN: usize = 20;

/// A page, by its identifier and place: a BREF ([MS-PST] 2.2.2.4).
#[derive(Clone, Copy)]
pub(crate) struct Bref {
    pub bid: u64,
    pub ib: u64,
}

/// A block, with its identifier, its place and its body.
#[derive(Clone, Copy)]
pub(crate) struct PlacedBlock<'a> {
    pub bid: u64,
    pub ib: u64,
    pub body: &'a [u8],
}

/// Where a block lies, and how long its body is.
#[derive(Clone, Copy, Debug, PartialEq, Eq)]
pub struct BlockPlace {
    /// Its identifier, a BID ([MS-PST] 2.2.2.2).
    pub bid: u64,
    /// Its place.
    pub ib: u64,
    /// How many bytes its body has.
    pub cb: u16,
}

impl PlacedBlock<'_> {
    ghost use Rattle.std.specs.Prelude.{◌≡◌, ◌≤◌, length};
    ghost use Rattle.pst_make.specs.Layout.{place_of_block};

    /// Where the block lies, without its body.
    pub fn place(&self) -> BlockPlace
        requires { length self.now.body.now ≤ 8176 }
        ensures { result ≡ place_of_block self.now }
    {
        BlockPlace {
            bid: self.bid,
            ib: self.ib,
            cb: self.body.len() as u16,
        }
    }
}

/// The place of an allocation map, at the start of its region.
pub(crate) fn amap_place(region: u64) -> u64
    requires { region ≤ 17 }
    ensures { result ≡ map_place region }
{
    FIRST_MAP + REGION * region
}

/// Whether a page map follows the region's allocation map, as each eighth one from the first on ([MS-PST] 2.2.2.7.3).
pub(crate) fn has_page_map(region: u64) -> bool
    ensures { result ≡ nat_eq (region % 8) 0 }
{
    region % 8 == 0
}

// Where a region is free, behind its maps.
fn free_from(region: u64) -> u64
    requires { region ≤ 17 }
    ensures { result ≡ free_from region }
{
    let maps = if has_page_map(region) { 1024 } else { 512 };
    amap_place(region) + maps
}

// Where the next structure lies.
#[tactic(auto, unfolding(crate::specs::Layout::place_of))]
fn place_of(next: u64, size: u64) -> u64
    requires from { FIRST_MAP ≤ next }
    requires limited { next ≤ store_limit }
    requires size { size ≤ 8192 }
    ensures place { result ≡ place_of next size }
    ensures forward { next ≤ result }
    ensures near { result ≤ map_place 18 }
{
    let region = (next - FIRST_MAP) / REGION;
    let at = next.max(free_from(region));
    if at + size <= amap_place(region + 1) {
        at
    } else {
        free_from(region + 1)
    }
}

// Where the next structure may lie, and the identifier of the next page.
#[derive(Drop)]
struct Cursor {
    next: u64,
    next_page: u64,
    ghost from: { FIRST_MAP ≤ next },
    ghost limited: { next ≤ store_limit },
    ghost counted: { next_page ≤ next },
}

impl Cursor {
    // Takes the place of the next structure.
    fn place(&mut self, size: u64) -> Result<u64, MakeFault>
        requires { size ≤ 8192 }
        ensures placed { IfOk result (λ at.
            (at ≡ place_of self.old.next size) × (self.new.next ≡ after self.old.next size)) }
        ensures forward { IfOk result (λ at. self.old.next ≤ at) }
        ensures same { self.new.next_page ≡ self.old.next_page }
        ensures fault { IfErr result (IsPlaceFault (after self.old.next size)) }
    {
        let at = place_of(self.next, size);
        if at + size > amap_place(MOST_REGIONS) {
            return Err(MakeFault::TooLarge);
        }
        self.next = at + size;
        Ok(at)
    }

    // Takes the place and the identifier of the next page.
    fn page(&mut self) -> Result<Bref, MakeFault>
        ensures placed { IfOk result (λ page.
            (page.ib ≡ place_of self.old.next 512) × (self.new.next ≡ after self.old.next 512)) }
        ensures forward { IfOk result (λ page. self.old.next ≤ page.ib) }
        ensures fault { IfErr result (IsPlaceFault (after self.old.next 512)) }
    {
        let ib = self.place(512)?;
        let bid = self.next_page;
        self.next_page = bid + 4;
        Ok(Bref { bid, ib })
    }
}

/// How many pages of a level n entries fill.
pub(crate) fn pages_for(capacity: usize, n: usize) -> usize
    requires { 0 < capacity }
    ensures { result ≡ pages_for capacity n }
{
    n.div_ceil(capacity).max(1)
}

// How many branch pages stand right above n pages.
fn pages_above(n: usize) -> usize
    ensures { result ≡ pages_above n }
{
    if n <= 1 { 0 } else { pages_for(CHILDREN, n) }
}

// How many pages a tree of n entries has: its leaves, and at most 15 levels of branches up to the root.
#[tactic(auto, unfolding(crate::specs::Layout::tree_pages))]
fn tree_pages(capacity: usize, n: usize) -> usize
    requires { 15 ≤ capacity }
    ensures { result ≡ tree_pages capacity n }
{
    let mut level = pages_for(capacity, n);
    let mut pages = level;
    for branches in 0..15u8 {
        level = pages_above(level);
        pages += level;
    }
    pages
}

// Places so many pages.
fn place_pages(alloc: Global, cursor: &mut Cursor, count: usize) -> Result<Vec<Bref>, MakeFault>
    ensures placed { IfOk result (λ pages.
        (length pages.items ≡ count) × All (IsPageBelow cursor.new.next) pages.items) }
    ensures next { IfOk result (λ _. cursor.new.next ≡ after_pages cursor.old.next count) }
    ensures fault { IfErr result (IsPlaceFault (after_pages cursor.old.next count)) }
{
    let mut pages = Vec::new(alloc);
    for number in 0..count {
        let page = cursor.page()?;
        pages.push(page)?;
    }
    Ok(pages)
}

// Places the blocks, in their order.
fn place_blocks<'a>(
    alloc: Global,
    cursor: &mut Cursor,
    blocks: &'a [BlockPlan],
) -> Result<Vec<PlacedBlock<'a>>, MakeFault>
    requires { All HasShortBody blocks.now }
    ensures placed { IfOk result (λ placed. All (IsBlockBelow cursor.new.next) placed.items) }
    ensures places { IfOk result (λ placed.
        map place_of_block placed.items ≡ places_from cursor.old.next blocks.now) }
    ensures next { IfOk result (λ _.
        cursor.new.next ≡ after_blocks cursor.old.next (body_lengths blocks.now)) }
    ensures fault { IfErr result
        (IsPlaceFault (after_blocks cursor.old.next (body_lengths blocks.now))) }
{
    let mut placed = Vec::new(alloc);
    for block in blocks {
        let body = block.body.as_slice();
        let ib = cursor.place(block_size(body.len() as u16))?;
        placed.push(PlacedBlock {
            bid: block.bid,
            ib,
            body,
        })?;
    }
    Ok(placed)
}

/// A plan whose pages and blocks have their places.
#[derive(Drop)]
pub(crate) struct Layout<'a> {
    /// The pages of the node B-tree: the leaves from left to right, then the branches level by level. The root is last.
    pub node_pages: Vec<Bref>,
    /// The pages of the block B-tree likewise.
    pub block_pages: Vec<Bref>,
    /// The blocks.
    pub blocks: Vec<PlacedBlock<'a>>,
    /// Where the last of them ends.
    pub end: u64,
    /// The identifier of the next page.
    pub next_page: u64,
    ghost from: { FIRST_MAP < end },
    ghost limited: { end ≤ store_limit },
    ghost node_root: { 0 < length node_pages.items },
    ghost block_root: { 0 < length block_pages.items },
    ghost node_pages_below: { All (IsPageBelow end) node_pages.items },
    ghost block_pages_below: { All (IsPageBelow end) block_pages.items },
    ghost blocks_below: { All (IsBlockBelow end) blocks.items },
}

impl<'a> Layout<'a> {
    /// Places a plan: TooLarge where it does not end within 16 regions.
    pub fn of(alloc: Global, plan: &'a Plan) -> Result<Layout<'a>, MakeFault>
        requires { All HasShortBody plan.now.blocks.items }
        ensures placed { IfOk result (λ layout. layout.end ≡ plan_end plan.entry.now) }
        ensures places { IfOk result (λ layout.
            map place_of_block layout.blocks.items ≡ block_places plan.entry.now) }
        ensures fault { IfErr result (IsPlaceFault (plan_end plan.entry.now)) }
    {
        let nodes = plan.nodes.as_slice();
        let blocks = plan.blocks.as_slice();
        let mut cursor = Cursor {
            next: free_from(0),
            next_page: 4,
        };
        let node_count = tree_pages(NODES_A_LEAF, nodes.len());
        let node_pages = place_pages(alloc, &mut cursor, node_count)?;
        let block_count = tree_pages(CHILDREN, blocks.len());
        let block_pages = place_pages(alloc, &mut cursor, block_count)?;
        let placed = place_blocks(alloc, &mut cursor, blocks)?;
        Ok(Layout {
            node_pages,
            block_pages,
            blocks: placed,
            end: cursor.next,
            next_page: cursor.next_page,
        })
    }
}
