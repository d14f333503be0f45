//! The check of the name map.

ghost use Rattle.std.specs.Prelude.{◌≡◌, ◌*◌, ◌≤◌, length, IfOk, IfErr, IsOkUnless, OnOk, None, option_map};
ghost use Rattle.pst_fault.specs.declared.kind.Kind.TheVariants.{Property as BadProperty};
ghost use Rattle.pst_fault.specs.Fault.{fault_at, no_memory};
ghost use Rattle.pst_fault.specs.First.{Checks, TellsFirst};
ghost use Rattle.pst_ndb.specs.Views.{table_of_node, roots_of};
ghost use Rattle.pst_pc.specs.View.{node_of_pc};
ghost use Rattle.pst_names.specs.Rest.{rest_file, front_span};
ghost use Rattle.pst_names.specs.Known.{allows, IsFirstBad, AreRunsTrue};
ghost use Rattle.pst_names.specs.Strings.{rule_guids, rule_strings};
ghost use Rattle.pst_names.specs.Fault.{entries_fault, streams_fault, names_fault};
ghost use Rattle.pst_names.specs.Grammar.{IsNameMap};
ghost use Rattle.pst_names.specs.View.{node_of_names};

use crate::name_map::NameMap;
use crate::rest::Rest;
use crate::rules::Rules;
use crate::runs::Runs;
use crate::streams::{ENTRIES, GUIDS, STRINGS, check_type, check_width, stream};
use pst_fault::{Fault, Kind};
use pst_heap::told_of;
use pst_pc::Pc;
use std::alloc::Global;

// The number of the first entry in these bytes that is not good.
fn first_bad(rules: &Rules, bytes: &[u8]) -> Option<u64>
    ensures { IsFirstBad (rule_guids rules.now) (rule_strings rules.now) bytes.now result }
{
    let count = bytes.len() / 8;
    for i in 0..count {
        if !rules.allow(&bytes[8 * i..8 * i + 8]) {
            return Some(i as u64);
        }
    }
    None
}

// The same, of the entries that lie side by side in the front of what is left. Where they are known to be good, they are passed
// over.
fn bad_in_front(rules: &Rules, rest: &Rest, runs: &mut Runs) -> Result<Option<u64>, Fault>
    requires known { AreRunsTrue (allows (rule_guids rules.now) (rule_strings rules.now))
        (rest_file rest.now) runs.old }
    ensures known { AreRunsTrue (allows (rule_guids rules.now) (rule_strings rules.now))
        (rest_file rest.now) runs.new }
    ensures first { IfOk result (IsFirstBad (rule_guids rules.now) (rule_strings rules.now)
        rest.now.front.now) }
    ensures memory { IfErr result (λ f. f ≡ no_memory) }
{
    let front = rest.front();
    let count = front.len() as u64 / 8;
    if runs.knows(rest.at(), count) {
        return Ok(None);
    }
    match first_bad(rules, front) {
        None => {
            runs.put(rest.at(), count)?;
            Ok(None)
        }
        bad => Ok(bad),
    }
}

// Where the first entry that is not good begins.
fn bad_place(alloc: Global, pc: &Pc) -> Result<Option<u64>, Fault>
    ensures first { let node = node_of_pc pc.now in
        IfOk result (λ o. option_map (fault_at BadProperty) o
        ≡ entries_fault (table_of_node node) (roots_of node)) }
    ensures memory { IfErr result (λ f. f ≡ no_memory) }
{
    let rules = Rules::of(alloc, pc)?;
    let count = stream(pc, ENTRIES).len() / 8;
    let mut runs = Runs::new(alloc);
    let mut rest = Rest::of(pc, ENTRIES);
    let mut number = 0;
    while number < count {
        let here = rest.settled();
        let whole = here.front().len() as u64 / 8;
        if whole == 0 {
            let (entry, behind) = here.entry();
            if !rules.allow(&entry) {
                return Ok(Some(here.at()));
            }
            rest = behind;
            number += 1;
        } else {
            match bad_in_front(&rules, &here, &mut runs)? {
                Some(bad) => return Ok(Some(here.at() + 8 * bad)),
                None => {
                    rest = here.skip(8 * whole);
                    number += whole;
                }
            }
        }
    }
    Ok(None)
}

// The types and the lengths of the streams, told of no node.
#[tactic(auto, using(pst_fault::proofs::FirstLemmas::then_some, pst_fault::proofs::FirstLemmas::then_none), unfolding(crate::specs::Fault::streams_fault))]
fn check_streams(pc: &Pc) -> Result<(), Fault>
    ensures exact { let node = node_of_pc pc.now in
        Checks result (streams_fault (table_of_node node) (roots_of node)) }
{
    check_type(pc, GUIDS)?;
    check_type(pc, ENTRIES)?;
    check_type(pc, STRINGS)?;
    check_width(pc, GUIDS, 16)?;
    check_width(pc, ENTRIES, 8)
}

// All of the map.
fn check_all(alloc: Global, pc: &Pc) -> Result<(), Fault>
    ensures exact { let node = node_of_pc pc.now in
        TellsFirst result (names_fault (table_of_node node) (roots_of node)) }
{
    if let Err(fault) = check_streams(pc) {
        return Err(told_of(&pc.node(), fault));
    }
    match bad_place(alloc, pc)? {
        None => Ok(()),
        Some(at) => Err(told_of(&pc.node(), Fault::at(Kind::Property, at))),
    }
}

/// Checks the name map whose streams the properties of a node are ([MS-PST] 2.4.7), in this order, each breach Property, with the
/// node's bidData and the node of the tree from which it was reached:
///
/// - each stream that is there has type 0102: the GUID stream (0002), the entry stream (0003), the string stream (0004); told where
///   its first byte lies;
/// - the length of the GUID stream is a multiple of 16, then that of the entry stream of 8; told there too;
/// - of each entry in order, its set is none, one of the two that are always there, or a GUID of the stream; and the string that is
///   its name stands in the string stream, with its length; told at the entry's first byte.
///
/// NoMemory where memory is refused. Entries that lie side by side in a block are looked at once, however often the streams name
/// that block: it takes a step for each piece of the entry stream, of which there are at most 1,042,441, and for each entry in the
/// blocks of the file, once for each of the eight ways in which entries can lie in a block.
#[tactic(auto, using(crate::proofs::NameLaws::none_names))]
pub fn check_names(alloc: Global, pc: &Pc) -> Result<(), Fault>
    // The first fault, or none; or that memory ran out.
    ensures exact { let node = node_of_pc pc.now in
        TellsFirst result (names_fault (table_of_node node) (roots_of node)) }

    // What is found good is a name map, and one is found good, but for want of memory.
    ensures found { let node = node_of_pc pc.now in
        OnOk result (IsNameMap (table_of_node node) (roots_of node)) }
    ensures only { let node = node_of_pc pc.now in
        IsNameMap (table_of_node node) (roots_of node) → IsOkUnless result no_memory }
{
    check_all(alloc, pc)
}

/// The name map whose streams the properties of a node are that are known to be one.
pub fn known_names<'a>(pc: &Pc<'a>) -> NameMap<'a>
    requires { let node = node_of_pc pc.now in
        names_fault (table_of_node node) (roots_of node) ≡ None }
    ensures { node_of_names result ≡ node_of_pc pc.now }
{
    NameMap::of(pc)
}
