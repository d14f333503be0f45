//! What `damage` answers to the bytes of a file.

ghost use Rattle.std.specs.Prelude.{◌≡◌, Bool, IfErr, IfOk, option_map};
ghost use Rattle.pst_ask.specs.Ask.{damage, wanted_of};
ghost use Rattle.pst_damage.specs.Damage.{damage_in};
ghost use Rattle.pst_damage.specs.View.{damage_parts};
ghost use Rattle.pst_fault.specs.Fault.{no_memory};
ghost use Rattle.pst_plain.specs.Twin.{method_of as method_in};
ghost use Rattle.pst_remains.specs.View.{parts_in};
ghost use Rattle.pst_run.specs.Answer.{Gives, answer_with, broken_for, broken_told as told_broken, damage_told, decoded_damage as answer_decoded, is_whole as whole, told_in};

use crate::outside::check_inside;
use crate::refusal::Refusal;
use crate::shown::{Shown, Text};
use pst_ask::Ask;
use pst_bytes::Image;
use pst_damage::{Damage, damage_beside, find_damage, judge_nodes};
use pst_damage_json::damage_line;
use pst_fault::Fault;
use pst_plain::method_of;
use pst_remains::{Remains, find_decoded_remains};
use std::alloc::{AllocError, Global};

// Whether nothing is broken.
fn is_whole(found: &Damage) -> bool
    ensures { result ≡ whole (damage_parts found.now) }
{
    found.header.is_none()
        && found.maps.is_none()
        && found.pages.is_empty()
        && found.blocks.is_empty()
        && found.nodes.is_empty()
}

// What is told of all that is broken.
fn shown_damage(
    alloc: Global,
    found: &Damage,
    digest: Option<[u8; 32]>,
) -> Result<Shown<'static>, AllocError>
    ensures { IfOk result (λ s. told_in s ≡ damage_told digest (damage_parts found.now)) }
{
    let text = damage_line(alloc, found, digest)?;
    let fails = !is_whole(found);
    Ok(Shown {
        text: Text::Made(text),
        fails,
    })
}

/// `damage`: all that is broken of a file as it is stored.
#[tactic(auto, unfolding(crate::specs::Answer::answer_with))]
pub fn damage_answer(
    alloc: Global,
    digest: Option<[u8; 32]>,
    bytes: &[u8],
) -> Result<Shown<'static>, Refusal<'static>>
    ensures { (digested : Bool) → Gives result (answer_with (damage digested) digest bytes.now) }
{
    let image = Image::new(bytes);
    check_inside(image)?;
    let found = find_damage(alloc, image)?;
    let shown = shown_damage(alloc, &found, digest)?;
    Ok(shown)
}

/// `damage --decode`: all that is broken of a file that may be encoded. It is judged as it is stored, and then its blocks without
/// fault are decoded, in place. A file that is not encoded stays as it is.
pub fn decoded_damage(
    alloc: Global,
    digest: Option<[u8; 32]>,
    bytes: &mut [u8],
) -> Result<Shown<'static>, Refusal<'static>>
    ensures { Gives result (answer_decoded (method_in bytes.old) digest bytes.old) }
{
    let Some(method) = method_of(Image::new(bytes)) else {
        return damage_answer(alloc, digest, bytes);
    };
    let remains = find_decoded_remains(alloc, method, bytes)?;
    let found = damage_beside(alloc, remains)?;
    let shown = shown_damage(alloc, &found, digest)?;
    Ok(shown)
}

// All that is broken of a file of which this remains.
#[tactic(auto, unfolding(pst_damage::specs::Damage::damage_in))]
fn damage_left(alloc: Global, remains: &Remains) -> Result<Damage, Fault>
    ensures value { IfOk result (λ d. damage_parts d ≡ damage_in (parts_in remains.now)) }
    ensures err { IfErr result (λ f. f ≡ no_memory) }
{
    let (blocks, nodes) = (remains.good_blocks(), remains.node_list());
    let judged = judge_nodes(alloc, blocks, nodes, &remains.broken)?;
    Ok(Damage {
        header: remains.header,
        pages: remains.pages.clone()?,
        blocks: remains.blocks.clone()?,
        maps: remains.maps,
        nodes: judged.broken,
        whole: judged.whole,
    })
}

// What is told of all that is broken, where something is.
fn broken_told(alloc: Global, found: &Damage) -> Result<Option<Vec<u8>>, AllocError>
    ensures { IfOk result (λ t. option_map (λ v. v.items) t
        ≡ told_broken (damage_parts found.now)) }
{
    if is_whole(found) {
        return Ok(None);
    }
    Ok(Some(damage_line(alloc, found, None)?))
}

/// What an archive tells of all that is broken of a file of which this remains, where something is. Other commands tell nothing.
pub(crate) fn broken_if(
    alloc: Global,
    ask: &Ask,
    remains: &Remains,
) -> Result<Option<Vec<u8>>, Fault>
    ensures value { let broken = broken_for (wanted_of ask.now) (damage_in
        (parts_in remains.now)) in
        IfOk result (λ t. option_map (λ v. v.items) t ≡ broken) }
    ensures err { IfErr result (λ f. f ≡ no_memory) }
{
    match ask {
        Ask::Export => {
            let found = damage_left(alloc, remains)?;
            Ok(broken_told(alloc, &found)?)
        }
        _ => Ok(None),
    }
}
