//! The page map of a span of a heap ([MS-PST] 2.3.1.5).

ghost use Rattle.std.specs.Prelude.{◌≡◌, ◌+◌, ◌*◌, ◌≤◌, true};
ghost use Rattle.pst_bytes.specs.Image.{bytes_of, IsInside};
ghost use Rattle.pst_heap.specs.PageMap.{map_offset, item_count, has_room, has_page_map as map};

use pst_bytes::{Image, Span};

/// The page map of a span: it lies in the span, and the span in the file.
#[derive(Clone, Copy)]
pub(crate) struct PageMap<'a> {
    image: Image<'a>,
    span: Span,
    // Where the first offset lies in the file.
    start: u64,
    // How many items there are.
    count: u16,
    ghost inside: { IsInside (bytes_of image) span },
    ghost room: { has_room (bytes_of image) span ≡ true },
    ghost start_is: { start ≡ span.at + map_offset (bytes_of image) span + 4 },
    ghost ends: { start + 2 * count + 2 ≤ span.at + span.len },
    ghost count_is: { count ≡ item_count (bytes_of image) span },
}

impl<'a> PageMap<'a> {
    ghost use Rattle.std.specs.Prelude.{◌≡◌, ◌+◌, ◌≤◌, ◌&&◌, nat_eq, nat_lt, nat_le, IfSome, Option, Some, option_map, is_some, true, if◌then◌else◌, None};
    ghost use Rattle.pst_bytes.specs.Image.{bytes_of, IsInside};
    ghost use Rattle.pst_heap.specs.PageMap.{map_offset, item_count, offset_in, never_falls, has_room, has_page_map as map};
    ghost use Rattle.pst_heap.specs.Values.{index_of, names_item, item_in, item_span};
    ghost use Rattle.pst_heap.specs.View.{map_image, map_span};

    /// The page map of a span; None where it has no room there.
    #[tactic(auto, unfolding(crate::specs::PageMap::has_room))]
    pub(crate) fn open(image: Image<'a>, span: Span) -> Option<PageMap<'a>>
        requires { IsInside (bytes_of image) span }
        ensures there { is_some result ≡ has_room (bytes_of image.entry) span }
        ensures image { IfSome result (λ m. map_image m ≡ image.entry) }
        ensures span { IfSome result (λ m. map_span m ≡ span) }
    {
        if span.len < 2 {
            return None;
        }
        let map = u64::from(image.number16(span.at));
        if map + 4 > span.len {
            return None;
        }
        let count = image.number16(span.at + map);
        if map + 6 + 2 * u64::from(count) > span.len {
            return None;
        }
        Some(PageMap {
            image,
            span,
            start: span.at + map + 4,
            count,
        })
    }

    /// The page map of a span that is known to have room for it.
    #[inline]
    #[tactic(auto, using(crate::proofs::MapLemmas::room_front, crate::proofs::MapLemmas::room_map, crate::proofs::MapLemmas::room_all))]
    pub(crate) fn known(image: Image<'a>, span: Span) -> PageMap<'a>
        requires inside { IsInside (bytes_of image) span }
        requires room { has_room (bytes_of image) span ≡ true }
        ensures image { map_image result ≡ image.entry }
        ensures span { map_span result ≡ span }
    {
        let map = u64::from(image.number16(span.at));
        PageMap {
            image,
            span,
            start: span.at + map + 4,
            count: image.number16(span.at + map),
        }
    }

    // The offset with a number.
    #[tactic(auto, unfolding(crate::specs::PageMap::offset_in))]
    fn offset(self, k: u16) -> u64
        requires { k ≤ item_count (bytes_of (map_image self)) (map_span self) }
        ensures { result ≡ offset_in (bytes_of (map_image self.entry)) (map_span self.entry) k }
    {
        u64::from(self.image.number16(self.start + 2 * u64::from(k)))
    }

    // Whether each offset is at most the next one.
    #[tactic(auto, using(crate::proofs::MapLemmas::rises_start, crate::proofs::MapLemmas::rises_on))]
    fn never_falls(self) -> bool
        ensures { let I = bytes_of (map_image self.entry) in let s = map_span self.entry in
            result ≡ never_falls (offset_in I s) (item_count I s) }
    {
        for i in 0..self.count {
            if self.offset(i) > self.offset(i + 1) {
                return false;
            }
        }
        true
    }

    /// Whether the offsets never fall, and are at most the length of the span.
    #[tactic(auto, unfolding(crate::specs::PageMap::has_page_map))]
    pub(crate) fn is_good(self) -> bool
        ensures { result ≡ map (bytes_of (map_image self.entry)) (map_span self.entry) }
    {
        self.never_falls() && self.offset(self.count) <= self.span.len
    }

    /// The item that an identifier names in this span, whose number and type it tells; None exactly where it names none.
    #[inline]
    #[tactic(auto, unfolding(crate::specs::Values::item_in), using(crate::proofs::MapLemmas::offset_rises, crate::proofs::MapLemmas::offset_inside))]
    pub(crate) fn item(self, hid: u32) -> Option<Span>
        requires { map (bytes_of (map_image self)) (map_span self) ≡ true }
        ensures value { let I = bytes_of (map_image self.entry) in
            result ≡ item_in I hid (Some (map_span self.entry)) }
        ensures inside { IfSome result (IsInside (bytes_of (map_image self.entry))) }
    {
        let index = (hid / 32 % 2048) as u16;
        if hid % 32 != 0 || index == 0 || index > self.count {
            return None;
        }
        let from = self.offset(index - 1);
        let to = self.offset(index);
        Some(Span {
            at: self.span.at + from,
            len: to - from,
        })
    }
}

/// Whether a span has a page map, in it and with offsets that never fall and are at most its length.
#[tactic(auto, using(crate::proofs::MapLemmas::no_room))]
pub(crate) fn has_page_map(image: Image, span: Span) -> bool
    requires { IsInside (bytes_of image) span }
    ensures { result ≡ map (bytes_of image.entry) span }
{
    match PageMap::open(image, span) {
        Some(map) => map.is_good(),
        None => false,
    }
}
