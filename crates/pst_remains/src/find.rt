//! How the remains of a file are found, part by part.

ghost use Rattle.std.specs.Prelude.{◌≡◌, ◌≤◌, length, None, Option, IfOk, IfErr, true, false};
ghost use Rattle.pst_bytes.specs.Image.{bytes_of};
ghost use Rattle.pst_fault.specs.Fault.{no_memory};
ghost use Rattle.pst_header.specs.Head.{IsMapped};
ghost use Rattle.pst_space.specs.Claimed.{unit_total};
ghost use Rattle.pst_amap.specs.Report.{maps_fault};
ghost use Rattle.pst_remains.specs.Header.{mended as mended_header, has_maps};
ghost use Rattle.pst_remains.specs.View.{IsRemains, image_in};

use crate::blocks::sort_blocks;
use crate::header::{header_damage, mended};
use crate::pages::Broken;
use crate::remains::Remains;
use crate::trees::{faults_in, nodes_in, walk_tree};
use pst_amap::compare;
use pst_bytes::Image;
use pst_fault::{Fault, Kind};
use pst_header::{FIRST_AMAP, Header};
use pst_page::PageKind;
use pst_space::Claims;
use std::alloc::Global;

// The first fault of the allocation maps, beside what is claimed.
fn judge_maps(
    alloc: Global,
    image: Image,
    header: &Header,
    claims: &mut Claims,
) -> Result<Option<Fault>, Fault>
    requires mapped { IsMapped (bytes_of image) header.now }
    requires units { length claims.old ≡ unit_total header.now }
    ensures exact { IfOk result (λ o. o ≡ maps_fault (bytes_of image.entry) header.now claims.old) }
    ensures err { IfErr result (λ f. f ≡ no_memory) }
{
    match compare(alloc, image, header, claims) {
        Ok(_) => Ok(None),
        Err(fault) => match fault.kind {
            Kind::NoMemory => Err(Fault::at(Kind::NoMemory, 0)),
            _ => Ok(Some(fault)),
        },
    }
}

// Where no map has room nothing is mapped, so no page has a place.
#[tactic(auto, using(crate::proofs::RemainsLemmas::no_blocks))]
fn nothing_mapped<'a>(
    alloc: Global,
    image: Image<'a>,
    header: &Header,
) -> Result<Remains<'a>, Fault>
    requires long { 564 ≤ length (bytes_of image) }
    requires header { header.now ≡ mended_header (bytes_of image) }
    requires maps { has_maps (bytes_of image) ≡ false }
    ensures exact { IfOk result (IsRemains (bytes_of image.entry)) }
    ensures image { IfOk result (λ r. image_in r ≡ image.entry) }
    ensures err { IfErr result (λ f. f ≡ no_memory) }
{
    let first = Fault::within(Kind::PagePlace, header.bbt.ib, header.bbt.bid);
    let fault = Fault::within(Kind::PagePlace, header.nbt.ib, header.nbt.bid);
    let page = Broken {
        fault,
        from: 0,
        high: None,
    };
    let pages = vec![in alloc; first, fault]?;
    let broken = vec![in alloc; page]?;
    let header_fault = header_damage(image);
    let remains = Remains {
        header: header_fault,
        pages,
        blocks: Vec::new(alloc),
        maps: None,
        good: Vec::new(alloc),
        nodes: Vec::new(alloc),
        broken,
        image,
        end: 0,
    };
    Ok(remains)
}

// Where something is mapped: the pages, the blocks and the maps one after another, each beside what those before it claim.
fn look_through<'a>(alloc: Global, image: Image<'a>, header: &Header) -> Result<Remains<'a>, Fault>
    requires long { 564 ≤ length (bytes_of image) }
    requires header { header.now ≡ mended_header (bytes_of image) }
    requires maps { has_maps (bytes_of image) ≡ true }
    requires mapped { IsMapped (bytes_of image) header.now }
    ensures exact { IfOk result (IsRemains (bytes_of image.entry)) }
    ensures image { IfOk result (λ r. image_in r ≡ image.entry) }
    ensures err { IfErr result (λ f. f ≡ no_memory) }
{
    let mut claims = Claims::new(alloc, header)?;
    let first = walk_tree(alloc, image, header, PageKind::Bbt, header.bbt, &mut claims)?;
    let second = walk_tree(alloc, image, header, PageKind::Nbt, header.nbt, &mut claims)?;
    let sorted = sort_blocks(alloc, image, header, &first.leaves, &mut claims)?;
    let maps = judge_maps(alloc, image, header, &mut claims)?;
    let nodes = nodes_in(alloc, image, &second.leaves)?;
    let pages = faults_in(alloc, &first.broken, &second.broken)?;
    let header_fault = header_damage(image);
    let end = header.end();
    let remains = Remains {
        header: header_fault,
        pages,
        blocks: sorted.faults,
        maps,
        good: sorted.good,
        nodes,
        broken: second.broken,
        image,
        end,
    };
    Ok(remains)
}

/// What remains of a file whose magic numbers, version and method are right, up to its nodes ([MS-PST] 2.2.2.6 to 2.2.2.8):
/// the header's first fault, the faults of the pages of both B-trees, those of the blocks, and the first of the allocation
/// maps, each part looked at over what those before it have left; and the blocks and nodes that are left. What has a fault
/// claims nothing. The pages below one with a fault are looked at where only its trailer is wrong, its types are right, and
/// it is no leaf of the node B-tree. NoMemory where memory is refused: an entry is kept for each block and each node that is
/// left, 8 bytes for each leaf, and a bit for each 64 bytes of the file.
#[tactic(auto, using(crate::proofs::HeaderLemmas::mended_mapped, crate::proofs::HeaderLemmas::maps_there, crate::proofs::HeaderLemmas::maps_lack))]
pub fn find_remains<'a>(alloc: Global, image: Image<'a>) -> Result<Remains<'a>, Fault>
    requires { 564 ≤ length (bytes_of image) }

    // What is told and what is left.
    ensures exact { IfOk result (IsRemains (bytes_of image.entry)) }
    ensures image { IfOk result (λ r. image_in r ≡ image.entry) }

    // Only memory refuses.
    ensures err { IfErr result (λ f. f ≡ no_memory) }
{
    let header = mended(image);
    if header.eof < FIRST_AMAP + 1024 {
        nothing_mapped(alloc, image, &header)
    } else {
        look_through(alloc, image, &header)
    }
}
