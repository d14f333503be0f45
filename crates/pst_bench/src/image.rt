//! A store that is written from its start on: blocks, and the units of 64 bytes that are in use ([MS-PST] 2.2.2).

use std::alloc::{AllocError, Global};

/// Where the first allocation map stands, how many bytes each of them speaks of, and of how many one bit does.
pub(crate) const FIRST_MAP: u64 = 0x4400;

pub(crate) const REGION: u64 = 253_952;

const UNIT: u64 = 64;

/// The bytes of a page, without its trailer of 16.
pub(crate) const PAGE_BODY: usize = 496;

/// The most bytes that the body of a block has.
pub(crate) const LONGEST_BODY: usize = 8_176;

/// A store that is being written.
#[derive(Drop)]
pub(crate) struct Image {
    pub(crate) alloc: Global,
    pub(crate) bytes: Vec<u8>,
    /// A bit for each unit from the first map on, the greatest of a byte first: whether it is in use.
    pub(crate) marks: Vec<u8>,
    /// The entries of the block B-tree, 24 bytes each, in order.
    pub(crate) blocks: Vec<u8>,
    /// Node, data, subnodes and parent.
    pub(crate) nodes: Vec<(u64, u64, u64, u64)>,
    pub(crate) regions: u64,
    pub(crate) next_block: u64,
    pub(crate) next_page: u64,
}

/// The next multiple.
fn rounded(number: u64, to: u64) -> u64 {
    match number.checked_rem(to) {
        None | Some(0) => number,
        Some(over) => number.saturating_add(to.saturating_sub(over)),
    }
}

/// Puts bytes over others from a place on; nothing where there are not so many.
pub(crate) fn put_over(bytes: &mut [u8], place: usize, new: &[u8]) {
    if new.len() <= bytes.len() && place <= bytes.len() - new.len() {
        bytes[place..place + new.len()].copy_from_slice(new);
    }
}

impl Image {
    /// Nothing but room for the header and the first region, and for about so many bytes behind them.
    pub(crate) fn new(alloc: Global, room: usize) -> Result<Image, AllocError> {
        let mut image = Image {
            alloc,
            bytes: Vec::with_capacity(alloc, room)?,
            marks: Vec::new(alloc),
            blocks: Vec::new(alloc),
            nodes: Vec::new(alloc),
            regions: 0,
            next_block: 4,
            next_page: 4,
        };
        image.pad_to(FIRST_MAP)?;
        image.begin_region()?;
        Ok(image)
    }

    fn end(&self) -> u64 {
        self.bytes.len() as u64
    }

    // Zero bytes up to a place.
    fn pad_to(&mut self, place: u64) -> Result<(), AllocError> {
        for _ in self.end()..place {
            self.bytes.push(0)?;
        }
        Ok(())
    }

    // Marks the units from a place on as being in use.
    fn mark(&mut self, place: u64, size: u64) {
        let first = place.saturating_sub(FIRST_MAP) / UNIT;
        for unit in first..first.saturating_add(size / UNIT) {
            if let Some(byte) = self.marks.get_mut((unit / 8) as usize) {
                *byte |= 0x80_u8 >> (unit % 8);
            }
        }
    }

    // Room for the next region: its allocation map, and behind every eighth a page map.
    fn begin_region(&mut self) -> Result<(), AllocError> {
        let maps = if self.regions % 8 == 0 { 1024 } else { 512 };
        let start = self.end();
        for _ in 0..PAGE_BODY {
            self.marks.push(0)?;
        }
        self.regions = self.regions.saturating_add(1);
        self.mark(start, maps);
        self.pad_to(start.saturating_add(maps))
    }

    /// Where the regions that are begun end.
    pub(crate) fn regions_end(&self) -> u64 {
        FIRST_MAP.saturating_add(self.regions.saturating_mul(REGION))
    }

    /// The next free place of so many bytes, a multiple of an alignment: all up to it is written.
    pub(crate) fn place(&mut self, size: u64, align: u64) -> Result<u64, AllocError> {
        let mut place = rounded(self.end(), align);
        let end = self.regions_end();
        if place.saturating_add(size) > end {
            self.pad_to(end)?;
            self.begin_region()?;
            place = rounded(self.end(), align);
        }
        self.pad_to(place)?;
        self.mark(place, size);
        Ok(place)
    }

    /// Zero bytes up to the end of what is begun.
    pub(crate) fn fill(&mut self) -> Result<(), AllocError> {
        self.pad_to(self.regions_end())
    }

    /// Writes a block (2.2.2.8) with this body, whose check value is known; gives its identifier, in which bit 1 says that the
    /// block is internal.
    pub(crate) fn lay(
        &mut self,
        body: &[u8],
        check: u32,
        internal: bool,
    ) -> Result<u64, AllocError> {
        let bid = self.next_block | if internal { 2 } else { 0 };
        self.next_block = self.next_block.saturating_add(4);
        let length = u16::try_from(body.len()).unwrap_or(0).to_le_bytes();
        let size = rounded((body.len() as u64).saturating_add(16), UNIT);
        let place = self.place(size, UNIT)?;
        self.bytes.extend_from_slice(body)?;
        self.pad_to(place.saturating_add(size).saturating_sub(16))?;
        self.bytes.extend_from_slice(&length)?;
        self.bytes
            .extend_from_slice(&pst_crc::signature(place, bid).to_le_bytes())?;
        self.bytes.extend_from_slice(&check.to_le_bytes())?;
        self.bytes.extend_from_slice(&bid.to_le_bytes())?;
        self.blocks.extend_from_slice(&bid.to_le_bytes())?;
        self.blocks.extend_from_slice(&place.to_le_bytes())?;
        self.blocks.extend_from_slice(&length)?;
        self.blocks.extend_from_slice(&[2, 0, 0, 0, 0, 0])?;
        Ok(bid)
    }

    /// Writes an internal block.
    pub(crate) fn internal(&mut self, body: &[u8]) -> Result<u64, AllocError> {
        self.lay(body, pst_crc::check(body), true)
    }

    /// Names a node: its data, the list of its subnodes, its parent.
    pub(crate) fn node(
        &mut self,
        nid: u32,
        data: u64,
        sub: u64,
        parent: u32,
    ) -> Result<(), AllocError> {
        self.nodes
            .push((u64::from(nid), data, sub, u64::from(parent)))?;
        Ok(())
    }
}
