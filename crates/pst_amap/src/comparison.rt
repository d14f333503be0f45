//! The comparison of what is claimed with the allocation maps.

ghost use Rattle.std.specs.Prelude.{◌≡◌, ◌⊎◌, None, length, IfOk, IfErr, OnOk};
ghost use Rattle.pst_bytes.specs.Image.{bytes_of};
ghost use Rattle.pst_fault.specs.Fault.{no_memory};
ghost use Rattle.pst_fault.specs.First.{answer, IsFirst};
ghost use Rattle.pst_header.specs.Head.{IsMapped};
ghost use Rattle.pst_header.specs.Header.{amap_count_of};
ghost use Rattle.pst_space.specs.Claimed.{unit_total};
ghost use Rattle.pst_amap.specs.Marks.{bit_order_of};
ghost use Rattle.pst_amap.specs.Report.{maps_fault, old_maps, IsReport};

use crate::lost::find_lost;
use crate::map::check_amaps;
use crate::marks::find_order;
use crate::old::claim_old_maps;
use crate::report::{BitOrder, MapReport};
use pst_bytes::Image;
use pst_fault::Fault;
use pst_header::Header;
use pst_space::Claims;
use std::alloc::Global;

// The maps, and the order of bits in which they mark all that is claimed.
#[tactic(auto, unfolding(crate::specs::Report::maps_fault))]
fn check_order(image: Image, header: &Header, claims: &Claims) -> Result<BitOrder, Fault>
    requires mapped { IsMapped (bytes_of image) header.now }
    requires units { length claims.now ≡ unit_total header.now }
    ensures { result ≡ answer (maps_fault (bytes_of image.entry) header.now claims.now)
        (bit_order_of (bytes_of image.entry) claims.now) }
{
    check_amaps(image, header)?;
    find_order(image, header, claims)
}

/// Compares what is claimed with the allocation maps ([MS-PST] 2.2.2.7.2), and claims the old map pages. What the
/// header says of the space of the file has to lie in it, and the claims are those of its mapped part. The first fault
/// is MapPage at the first allocation map that is not good, or MapMissing at the lowest unit that is claimed and not
/// marked, the most significant bit first, where the other order of bits does not fit either. NoMemory where the memory
/// for the lost runs is refused.
#[tactic(auto, using(crate::proofs::ReportLemmas::found_first, crate::proofs::ReportLemmas::found_none), unfolding(crate::specs::Report::old_maps))]
pub fn compare(
    alloc: Global,
    image: Image,
    header: &Header,
    claims: &mut Claims,
) -> Result<MapReport, Fault>
    requires mapped { IsMapped (bytes_of image) header.now }
    requires units { length claims.old ≡ unit_total header.now }

    // Which fault it is, and that there is none where a report is given.
    ensures exact { IfErr result
        (IsFirst (maps_fault (bytes_of image.entry) header.now claims.old)) }
    ensures none { OnOk result (maps_fault (bytes_of image.entry) header.now claims.old ≡ None) }

    // What is found.
    ensures report { IfOk result (IsReport (bytes_of image.entry) header.now claims.old) }

    // What is claimed afterwards: the old map pages too; at a fault of the file nothing more.
    ensures claims { OnOk result (claims.new ≡
        (old_maps (bytes_of image.entry) header.now claims.old).claimed) }
    ensures kept { IfErr result (λ f. (claims.new ≡ claims.old)
        ⊎ ((f ≡ no_memory)
        × (claims.new ≡ (old_maps (bytes_of image.entry) header.now claims.old).claimed))) }
    ensures units { length claims.new ≡ length claims.old }
{
    let order = check_order(image, header, claims)?;
    let old_maps = claim_old_maps(image, header, order, claims);
    let lost = find_lost(alloc, image, header, order, claims)?;
    Ok(MapReport {
        order,
        lost,
        old_maps,
    })
}
