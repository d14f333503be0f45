//! What is known of lists, by their keys.

ghost use Rattle.std.specs.Prelude.{◌≡◌, ℕ, ◌+◌, Bool, None, if◌then◌else◌, length, IfOk, IfErr, OnOk, OnErr};
ghost use Rattle.std.specs.Ordering.{nat_cmp, eq_by_cmp};
ghost use Rattle.std.specs.BTreeMap.{insert_entry};
ghost use Rattle.pst_fault.specs.Fault.{no_memory};
ghost use Rattle.pst_subnode.specs.States.{Entry, AreUpTo, is_at_last, state_at_last, with_last, entry_at};

use pst_fault::Fault;
use std::alloc::Global;
use std::collections::BTreeMap;
use std::marker::Model;

// The key of a list, and what is known of it.
#[derive(Clone, Copy)]
pub(crate) struct Latest {
    pub(crate) key: u64,
    pub(crate) state: u16,
}

// What is known of lists, by their keys; seen as the list of these with what is known of each, in the keys' order. The list
// that was added last stands apart, since it is mostly the next one to get another state; and a key above all others is known
// to be none of them. So a list whose key is above all others is looked for, added and changed by one insertion into a map.
#[derive(Drop)]
pub(crate) struct States {
    // What was added last, if it has not been removed; it is none of the others.
    last: Option<Latest>,
    // The others.
    rest: BTreeMap<u64, u16>,
    // No key of the others is above it.
    top: u64,
}

impl Model for States {
    ghost use Rattle.pst_subnode.specs.States.{KnownStates, with_last, AreKept};

    ghost Value = { KnownStates };

    ghost view = { λ states. record { entries = with_last states.last states.rest.entries } };

    ghost invariant = { λ states. AreKept states.last states.rest.entries states.top };
}

// Whether a key is that of the list which stands apart.
fn is_last(last: Option<Latest>, key: u64) -> bool
    ensures { result ≡ is_at_last last key }
{
    match last {
        Some(last) => last.key == key,
        None => false,
    }
}

// What is known of a key, if it is that of the list which stands apart.
fn last_state(last: Option<Latest>, key: u64) -> Option<u16>
    ensures { result ≡ state_at_last last key }
{
    match last {
        Some(last) => {
            if last.key == key {
                Some(last.state)
            } else {
                None
            }
        }
        None => None,
    }
}

// What is known of a key that is mostly above all others, among these.
fn state_in_rest(rest: &BTreeMap<u64, u16>, top: u64, key: u64) -> Option<u16>
    requires { AreUpTo top rest.now.entries }
    ensures { result ≡ entry_at rest.now.entries key }
{
    if key > top {
        return None;
    }
    rest.get(&key).copied()
}

// A key gets this state among the others, and whether it is a new one; or memory is refused, and all stays as it is.
fn put_in_rest(
    rest: &mut BTreeMap<u64, u16>,
    top: &mut u64,
    key: u64,
    state: u16,
) -> Result<bool, Fault>
    requires { AreUpTo top.old rest.old.entries }
    ensures put { OnOk result (rest.new.entries ≡ insert_entry nat_cmp rest.old.entries key state) }
    ensures count { IfOk result (λ is_new.
        length rest.new.entries ≡ length rest.old.entries + (if is_new then 1 else 0)) }
    ensures up_to { AreUpTo top.new rest.new.entries }
    ensures same { OnErr result (rest.new.entries ≡ rest.old.entries) }
    ensures memory { IfErr result (λ f. f ≡ no_memory) }
{
    let old = rest.insert(key, state)?;
    *top = (*top).max(key);
    Ok(old.is_none())
}

// What stood apart is put among the others; or memory is refused, and these stay as they are.
fn put_aside(
    last: Option<Latest>,
    rest: &mut BTreeMap<u64, u16>,
    top: &mut u64,
) -> Result<(), Fault>
    requires { AreUpTo top.old rest.old.entries }
    ensures put { OnOk result (rest.new.entries ≡ with_last last rest.old.entries) }
    ensures up_to { AreUpTo top.new rest.new.entries }
    ensures same { OnErr result (rest.new.entries ≡ rest.old.entries) }
    ensures memory { IfErr result (λ f. f ≡ no_memory) }
{
    let Some(last) = last else {
        return Ok(());
    };
    put_in_rest(rest, top, last.key, last.state)?;
    Ok(())
}

impl States {
    ghost use Rattle.std.specs.Prelude.{◌≡◌, ℕ, ◌+◌, Some, None, [], if◌then◌else◌, cond, length, IfOk, IfErr, OnOk, OnErr};
    ghost use Rattle.std.specs.List.Sorted.{IsStrictlySortedBy};
    ghost use Rattle.std.specs.Ordering.{nat_cmp, eq_by_cmp};
    ghost use Rattle.std.specs.Map.{keys_of};
    ghost use Rattle.pst_fault.specs.Fault.{no_memory};
    ghost use Rattle.pst_subnode.specs.States.{state_in};

    // Nothing is known. No memory is taken.
    pub(crate) fn new(alloc: Global) -> States
        ensures { result.entries ≡ [] }
    {
        States {
            last: None,
            rest: BTreeMap::new(alloc),
            top: 0,
        }
    }

    // A law: the keys strictly rise.
    pub(crate) fn keys_rise(&self)
        ensures { IsStrictlySortedBy nat_cmp (keys_of self.now.entries) }
    {
        let _count = self.rest.len();
    }

    // What is known of a key.
    pub(crate) fn get(&self, key: u64) -> Option<u16>
        ensures { result ≡ state_in self.now key }
    {
        match last_state(self.last, key) {
            Some(state) => Some(state),
            None => state_in_rest(&self.rest, self.top, key),
        }
    }

    // A key of which nothing is known gets this state; or memory is refused, and all stays as it is.
    pub(crate) fn add(&mut self, key: u64, state: u16) -> Result<(), Fault>
        requires { state_in self.old key ≡ None }
        ensures put { OnOk result ((q : ℕ) → state_in self.new q ≡
            cond (eq_by_cmp nat_cmp key q) (Some state) (state_in self.old q)) }
        ensures count { OnOk result (length self.new.entries ≡ length self.old.entries + 1) }
        ensures same { OnErr result (self.new ≡ self.old) }
        ensures memory { IfErr result (λ f. f ≡ no_memory) }
    {
        put_aside(self.last, &mut self.rest, &mut self.top)?;
        self.last = Some(Latest { key, state });
        Ok(())
    }

    // A key gets this state, and whether nothing was known of it; or memory is refused, and all stays as it is.
    pub(crate) fn put(&mut self, key: u64, state: u16) -> Result<bool, Fault>
        ensures put { OnOk result ((q : ℕ) → state_in self.new q ≡
            cond (eq_by_cmp nat_cmp key q) (Some state) (state_in self.old q)) }
        ensures count { IfOk result (λ is_new.
            length self.new.entries ≡ length self.old.entries + (if is_new then 1 else 0)) }
        ensures same { OnErr result (self.new ≡ self.old) }
        ensures memory { IfErr result (λ f. f ≡ no_memory) }
    {
        if is_last(self.last, key) {
            self.last = Some(Latest { key, state });
            return Ok(false);
        }
        let is_new = put_in_rest(&mut self.rest, &mut self.top, key, state)?;
        Ok(is_new)
    }

    // Nothing is known of a key any more.
    pub(crate) fn remove(&mut self, key: u64)
        ensures { (q : ℕ) → state_in self.new q ≡
            cond (eq_by_cmp nat_cmp key q) None (state_in self.old q) }
    {
        if is_last(self.last, key) {
            self.last = None;
            return;
        }
        let _ = self.rest.remove(&key);
    }
}
