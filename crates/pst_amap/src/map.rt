//! Allocation map pages.

ghost use Rattle.std.specs.Prelude.{◌≡◌, ◌+◌, ◌≤◌, ◌<◌, ◌^◌, length};
ghost use Rattle.pst_bytes.specs.Image.{bytes_of};
ghost use Rattle.pst_fault.specs.First.{answer};
ghost use Rattle.pst_header.specs.Head.{IsMapped};
ghost use Rattle.pst_header.specs.Header.{amap_place, amap_count_of};
ghost use Rattle.pst_amap.specs.Map.{has_map_trailer as map_trailer, is_amap as amap, amap_fault, amaps_fault};

use pst_bytes::Image;
use pst_fault::{Fault, Kind};
use pst_header::{FIRST_AMAP, Header, REGION};
use pst_page::has_trailer;

/// Whether the page at an offset has the trailer of a map page, its type aside.
pub fn has_map_trailer(image: Image, at: u64) -> bool
    requires { at + 512 ≤ length (bytes_of image) }
    ensures { result ≡ map_trailer (bytes_of image.entry) at }
{
    has_trailer(image, at, 0, at)
}

#[tactic(auto, unfolding(crate::specs::Map::is_amap))]
fn is_amap(image: Image, at: u64) -> bool
    requires { at + 512 ≤ length (bytes_of image) }
    ensures { result ≡ amap (bytes_of image.entry) at }
{
    image.number8(at + 496) == 0x84
        && image.number8(at + 497) == 0x84
        && has_map_trailer(image, at)
        && image.number8(at) == 0xff
}

// One allocation map.
#[tactic(auto, unfolding(crate::specs::Map::amap_fault))]
fn check_amap(image: Image, region: u64) -> Result<(), Fault>
    requires inside { amap_place region + 512 ≤ length (bytes_of image) }
    requires fits { amap_place region + 512 < 2 ^ 64 }
    ensures { result ≡ answer (amap_fault (bytes_of image.entry) region) tt }
{
    let at = FIRST_AMAP + REGION * region;
    if !is_amap(image, at) {
        return Err(Fault::at(Kind::MapPage, at));
    }
    Ok(())
}

/// The allocation maps in order.
#[tactic(auto, using(crate::proofs::MapLemmas::map_inside, pst_fault::proofs::FirstLemmas::first_more))]
pub fn check_amaps(image: Image, header: &Header) -> Result<(), Fault>
    requires { IsMapped (bytes_of image) header.now }
    ensures { result ≡ answer (amaps_fault (bytes_of image.entry) (amap_count_of header.now)) tt }
{
    for region in 0..header.amap_count() {
        check_amap(image, region)?;
    }
    Ok(())
}
