//! A page and its entries.

ghost use Rattle.std.specs.Prelude.{◌≡◌, ◌+◌, ◌*◌, ◌^◌, ◌<◌, ◌≤◌, length, option_map, IfSome};
ghost use Rattle.pst_bytes.specs.Image.{bytes_of, num, IsPartOf};
ghost use Rattle.pst_page.specs.declared.kind.PageKind.TheVariants.{Bbt, Nbt};
ghost use Rattle.pst_page.specs.Entry.{entry_size, key_at, child_at, block_entry_at, node_entry_at};
ghost use Rattle.pst_page.specs.Page.{count_at, width_at, level_at, entry_place, entry_span, entry_bytes};

use crate::entry::{BlockEntry, NodeEntry, block_entry_at, child_at, node_entry_at};
use crate::kind::PageKind;
use pst_bytes::{Image, Span};
use pst_header::Bref;

/// A page inside the file, that has its shape ([MS-PST] 2.2.2.7.7.1). Entries have the numbers from 0 to `count()`
/// less one, and places are offsets in the file.
#[derive(Clone, Copy)]
pub struct Page<'a> {
    /// The file.
    pub image: Image<'a>,
    /// The B-tree that the page belongs to.
    pub kind: PageKind,
    /// The reference that names it.
    pub bref: Bref,
    // It lies in the file, and so its end is a number of 64 bits.
    ghost inside: { bref.ib + 512 ≤ length (bytes_of image) },
    ghost fits: { bref.ib + 512 < 2 ^ 64 },
    // It has its shape.
    ghost wide: { entry_size kind (level_at (bytes_of image) bref.ib)
        ≤ width_at (bytes_of image) bref.ib },
    ghost room: { count_at (bytes_of image) bref.ib * width_at (bytes_of image) bref.ib ≤ 488 },
    ghost low: { level_at (bytes_of image) bref.ib ≤ 15 },
}

impl<'a> Page<'a> {
    // One of the numbers behind the entries.
    fn number(&self, offset: u64) -> u8
        requires { offset < 512 }
        ensures { result ≡ num (bytes_of self.now.image) (self.now.bref.ib + offset) 1 }
    {
        self.image.number8(self.bref.ib + offset)
    }

    /// cLevel: 0 for a leaf, at most 15.
    #[tactic(auto, unfolding(crate::specs::Page::level_at))]
    pub fn level(&self) -> u8
        ensures value { result ≡ level_at (bytes_of self.now.image) self.now.bref.ib }
        ensures low { result ≤ 15 }
    {
        self.number(491)
    }

    /// cEnt: how many entries there are.
    #[tactic(auto, unfolding(crate::specs::Page::count_at))]
    pub fn count(&self) -> u8
        ensures { result ≡ count_at (bytes_of self.now.image) self.now.bref.ib }
    {
        self.number(488)
    }

    /// cbEnt: how many bytes an entry takes.
    #[tactic(auto, unfolding(crate::specs::Page::width_at))]
    pub fn width(&self) -> u8
        ensures { result ≡ width_at (bytes_of self.now.image) self.now.bref.ib }
    {
        self.number(490)
    }

    /// The place of an entry. All bytes of the entry lie in the page, and so in the file.
    pub fn place(&self, i: u8) -> u64
        requires { i < count_at (bytes_of self.now.image) self.now.bref.ib }
        ensures value { result ≡ entry_place (bytes_of self.now.image) self.now.bref.ib i }
        ensures wide { entry_size self.now.kind (level_at (bytes_of self.now.image)
            self.now.bref.ib) ≤ width_at (bytes_of self.now.image) self.now.bref.ib }
        ensures inside { result + width_at (bytes_of self.now.image) self.now.bref.ib ≤ length
            (bytes_of self.now.image) }
    {
        let width = self.width();
        self.bref.ib + u64::from(u16::from(i) * u16::from(width))
    }

    /// The key of an entry.
    pub fn key(&self, i: u8) -> u64
        requires { i < count_at (bytes_of self.now.image) self.now.bref.ib }
        ensures value { result ≡ key_at self.now.kind (bytes_of self.now.image)
            (entry_place (bytes_of self.now.image) self.now.bref.ib i) }
        ensures small { result + 1 < 2 ^ 64 }
    {
        self.kind.key_at(self.image, self.place(i))
    }

    /// The page that an entry of a branch names ([MS-PST] 2.2.2.7.7.2).
    pub fn child(&self, i: u8) -> Bref
        requires { i < count_at (bytes_of self.now.image) self.now.bref.ib }
        ensures { result ≡ child_at (bytes_of self.now.image)
            (entry_place (bytes_of self.now.image) self.now.bref.ib i) }
    {
        child_at(self.image, self.place(i))
    }

    /// An entry of a leaf of the block B-tree ([MS-PST] 2.2.2.7.7.3).
    pub fn block_entry(&self, i: u8) -> BlockEntry
        requires there { i < count_at (bytes_of self.now.image) self.now.bref.ib }
        requires kind { self.now.kind ≡ Bbt }
        requires leaf { level_at (bytes_of self.now.image) self.now.bref.ib ≡ 0 }
        ensures { result ≡ block_entry_at (bytes_of self.now.image)
            (entry_place (bytes_of self.now.image) self.now.bref.ib i) }
    {
        block_entry_at(self.image, self.place(i))
    }

    /// An entry of a leaf of the node B-tree ([MS-PST] 2.2.2.7.7.4).
    pub fn node_entry(&self, i: u8) -> NodeEntry
        requires there { i < count_at (bytes_of self.now.image) self.now.bref.ib }
        requires kind { self.now.kind ≡ Nbt }
        requires leaf { level_at (bytes_of self.now.image) self.now.bref.ib ≡ 0 }
        ensures { result ≡ node_entry_at (bytes_of self.now.image)
            (entry_place (bytes_of self.now.image) self.now.bref.ib i) }
    {
        node_entry_at(self.image, self.place(i))
    }

    /// The bytes of an entry, in the file's own memory; None exactly where the page has no entry with that number.
    pub fn entry(&self, i: u8) -> Option<&'a [u8]>
        ensures value { option_map (λ s.
            s.now) result ≡ entry_bytes (bytes_of self.now.image) self.now.bref.ib i }
        ensures own { IfSome result (λ s.
            IsPartOf self.now.image (entry_span (bytes_of self.now.image) self.now.bref.ib i) s) }
    {
        if i >= self.count() {
            return None;
        }
        let at = self.place(i);
        let len = u64::from(self.width());
        Some(self.image.slice(Span { at, len }))
    }
}
