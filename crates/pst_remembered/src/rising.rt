//! A set whose keys come mostly in rising order.

ghost use Rattle.std.specs.Prelude.{◌≡◌, ◌≤◌, [], length, IfSome, IfErr, OnOk, OnErr};
ghost use Rattle.std.specs.List.{insert, list_any};
ghost use Rattle.std.specs.List.Sorted.{IsStrictlySortedBy};
ghost use Rattle.std.specs.Option.{option_copied};
ghost use Rattle.std.specs.BTreeMap.{is_at};
ghost use Rattle.std.specs.BTreeSet.{insert_key};
ghost use Rattle.pst_fault.specs.Fault.{no_memory};
ghost use Rattle.pst_remembered.specs.Rising.{is_above, raised, AreUpTo, TellsApart};

use pst_fault::Fault;
use std::alloc::Global;
use std::cmp::{Ord, Ordering};
use std::collections::BTreeSet;
use std::marker::Model;

/// A set of keys, seen as the list of them in order. A key above all others is put and looked for in a few comparisons; one that
/// only the last key of the run is above is put so, too. Of other keys the set costs what a `BTreeSet` does.
#[derive(Drop)]
pub(crate) struct RisingSet<K: Ord> {
    // Keys that strictly rise.
    run: Vec<K>,
    // The other keys.
    rest: BTreeSet<K>,
    // The greatest of the other keys.
    top: Option<K>,
}

impl<K: Ord> Model for RisingSet<K> {
    ghost use Rattle.std.specs.Prelude.{List};
    ghost use Rattle.pst_remembered.specs.Rising.{with_run, IsRising};

    ghost Value = { List K };

    ghost view = { λ set. with_run K.cmp set.run.items set.rest.keys };

    ghost invariant = { λ set. IsRising K.cmp set.run.items set.rest.keys set.top };
}

// Whether a key is above another one, if there is one.
fn is_above<K: Ord>(bound: Option<&K>, key: &K) -> bool
    ensures { result ≡ is_above K.cmp (option_copied bound.entry) key.now }
{
    match bound {
        Some(bound) => key.cmp(bound).is_gt(),
        None => true,
    }
}

// Whether a key is among keys that rise.
fn is_among<K: Ord>(keys: &[K], key: &K) -> bool
    requires { IsStrictlySortedBy K.cmp keys.now }
    ensures { result ≡ list_any (is_at (K.cmp key.now)) keys.now }
{
    if is_above(keys.last(), key) {
        return false;
    }
    keys.binary_search(key).is_ok()
}

// Whether a key is in a run. Most keys are above its last one or the one before, and are not gone after further.
fn is_in_run<K: Ord>(run: &[K], key: &K) -> bool
    requires { IsStrictlySortedBy K.cmp run.now }
    ensures { result ≡ list_any (is_at (K.cmp key.now)) run.now }
{
    let Some((last, before)) = run.split_last() else {
        return false;
    };
    match key.cmp(last) {
        Ordering::Less => is_among(before, key),
        Ordering::Equal => true,
        Ordering::Greater => false,
    }
}

// Where a key belongs in a run, if that is behind its last key or right before that.
fn place_at_end<K: Ord>(run: &[K], key: &K) -> Option<usize>
    requires { IsStrictlySortedBy K.cmp run.now }
    ensures within { IfSome result (λ at. at ≤ length run.now) }
    ensures rises { IfSome result (λ at. IsStrictlySortedBy K.cmp (insert run.now at key.now)) }
{
    let Some((last, before)) = run.split_last() else {
        return Some(0);
    };
    match key.cmp(last) {
        Ordering::Greater => Some(run.len()),
        Ordering::Less if is_above(before.last(), key) => Some(before.len()),
        _ => None,
    }
}

// Whether a key is among the others.
fn is_in_rest<K: Ord>(rest: &BTreeSet<K>, top: &Option<K>, key: &K) -> bool
    requires { AreUpTo K.cmp top.now rest.now.keys }
    ensures { result ≡ list_any (is_at (K.cmp key.now)) rest.now.keys }
{
    if is_above(top.as_ref(), key) {
        return false;
    }
    rest.contains(key)
}

// Inserts a key among the others, and notes it where it is the greatest; or memory is refused, and they stay as they are.
fn insert_in_rest<K: Ord + Copy>(
    rest: &mut BTreeSet<K>,
    top: &mut Option<K>,
    key: K,
) -> Result<(), Fault>
    ensures inserted { OnOk result (rest.new.keys ≡ insert_key K.cmp rest.old.keys key) }
    ensures top { OnOk result (top.new ≡ raised K.cmp top.old key) }
    ensures same { OnErr result (rest.new.keys ≡ rest.old.keys) }
    ensures same_top { OnErr result (top.new ≡ top.old) }
    ensures memory { IfErr result (λ f. f ≡ no_memory) }
{
    rest.insert(key)?;
    if is_above(top.as_ref(), &key) {
        *top = Some(key);
    }
    Ok(())
}

impl<K: Ord + Copy> RisingSet<K> {
    /// None.
    pub(crate) fn new(alloc: Global) -> RisingSet<K>
        ensures { result ≡ [] }
    {
        RisingSet {
            run: Vec::new(alloc),
            rest: BTreeSet::new(alloc),
            top: None,
        }
    }

    /// Whether a key is in it.
    pub(crate) fn has(&self, key: &K) -> bool
        ensures { result ≡ list_any (is_at (K.cmp key.now)) self.now }
    {
        is_in_run(&self.run, key) || is_in_rest(&self.rest, &self.top, key)
    }

    // Moves the run's last key to the others, so that a few great keys don't keep all later ones out of the run.
    fn move_last(&mut self) -> Result<(), Fault>
        requires { TellsApart K.cmp }
        ensures same { self.new ≡ self.old }
        ensures memory { IfErr result (λ f. f ≡ no_memory) }
    {
        let Some(last) = self.run.last().copied() else {
            return Ok(());
        };
        insert_in_rest(&mut self.rest, &mut self.top, last)?;
        self.run.pop();
        Ok(())
    }

    /// Inserts a key; or memory is refused, and it stays as it is.
    pub(crate) fn insert(&mut self, key: K) -> Result<(), Fault>
        requires { TellsApart K.cmp }
        ensures inserted { OnOk result (self.new ≡ insert_key K.cmp self.old key) }
        ensures same { OnErr result (self.new ≡ self.old) }
        ensures memory { IfErr result (λ f. f ≡ no_memory) }
    {
        if let Some(at) = place_at_end(&self.run, &key) {
            self.run.insert(at, key)?;
            return Ok(());
        }
        self.move_last()?;
        insert_in_rest(&mut self.rest, &mut self.top, key)?;
        Ok(())
    }

    /// Its keys are in order.
    pub(crate) fn are_sorted(&self)
        ensures { IsStrictlySortedBy K.cmp self.now }
    {
        self.rest.len();
    }
}
