//! An index of a name map, made with memory by whoever asks for many names.

ghost use Rattle.std.specs.Prelude.{◌≡◌, ◌/◌, length, IfOk, OnOk};
ghost use Rattle.pst_ndb.specs.Views.{table_of_node, roots_of};
ghost use Rattle.pst_pc.specs.View.{node_of_pc};
ghost use Rattle.pst_names.specs.Known.{AreRunsTrue};
ghost use Rattle.pst_names.specs.Rest.{rest_file};
ghost use Rattle.pst_names.specs.Index.{is_noted, HasNoted, NamesBy};

use crate::fields::Fields;
use crate::rest::Rest;
use crate::runs::Runs;
use crate::streams::{ENTRIES, stream};
use pst_pc::Pc;
use std::alloc::{AllocError, Global};
use std::collections::BTreeMap;

/// An index of a name map: of each property that has a name the entry that gives it. There are 65,536 at most.
#[derive(Drop)]
pub struct NameIndex {
    // By the identifier of the property. Those of entries that name none have more than 16 bits, and are not asked for.
    entries: BTreeMap<u32, Fields>,
}

impl NameIndex {
    ghost use Rattle.std.specs.Prelude.{◌≡◌, ◌/◌, ℕ, None, OnOk, length};
    ghost use Rattle.std.specs.Option.{option_or};
    ghost use Rattle.pst_names.specs.Index.{noted, if_names, HasNoted};

    /// That of no entries: nothing is noted. No memory is taken.
    #[tactic(auto, unfolding(crate::specs::Index::noted))]
    pub fn new(alloc: Global) -> NameIndex
        ensures { (id : ℕ) → noted result id ≡ None }
    {
        NameIndex {
            entries: BTreeMap::new(alloc),
        }
    }

    /// The entry that is noted of a property.
    #[tactic(auto, unfolding(crate::specs::Index::noted))]
    pub(crate) fn fields(&self, id: u16) -> Option<Fields>
        ensures { result ≡ noted self.now id }
    {
        self.entries.get(&u32::from(id)).copied()
    }

    // Notes an entry, unless one is noted of the property that it names.
    fn put(&mut self, fields: Fields) -> Result<(), AllocError>
        ensures { OnOk result ((id : ℕ) →
            noted self.new id ≡ option_or (noted self.old id) (if_names fields id)) }
    {
        let id = 0x8000 + u32::from(fields.index);
        if !self.entries.contains_key(&id) {
            let _before = self.entries.insert(id, fields)?;
        }
        Ok(())
    }

    // Notes the entries in these bytes, as many as are whole.
    fn put_all(&mut self, bytes: &[u8]) -> Result<(), AllocError>
        ensures { OnOk result (HasNoted self.old self.new bytes.now (length bytes.now / 8)) }
    {
        let count = bytes.len() / 8;
        for i in 0..count {
            self.put(Fields::of(&bytes[8 * i..8 * i + 8]))?;
        }
        Ok(())
    }
}

// Notes the entries that lie side by side in the front of what is left. Where they are known to be noted, they are passed over.
fn put_front(rest: &Rest, runs: &mut Runs, index: &mut NameIndex) -> Result<(), AllocError>
    requires known { AreRunsTrue (is_noted index.old) (rest_file rest.now) runs.old }
    ensures known { OnOk result (AreRunsTrue (is_noted index.new) (rest_file rest.now) runs.new) }
    ensures noted { let front = rest.now.front.now in
        OnOk result (HasNoted index.old index.new front (length front / 8)) }
{
    let front = rest.front();
    let at = rest.at();
    let count = front.len() as u64 / 8;
    if runs.knows(at, count) {
        return Ok(());
    }
    index.put_all(front)?;
    runs.put(at, count)?;
    Ok(())
}

/// The index of the name map that the properties of a node have. Entries that lie side by side in a block are gone through once,
/// however often the entry stream names that block.
pub(crate) fn index_of(alloc: Global, pc: &Pc) -> Result<NameIndex, AllocError>
    ensures { IfOk result (NamesBy (node_of_pc pc.now)) }
{
    let count = stream(pc, ENTRIES).len() / 8;
    let mut index = NameIndex::new(alloc);
    let mut runs = Runs::new(alloc);
    let mut rest = Rest::of(pc, ENTRIES);
    let mut number = 0;
    while number < count {
        let here = rest.settled();
        let whole = here.front().len() as u64 / 8;
        if whole == 0 {
            let (entry, behind) = here.entry();
            index.put(Fields::of(&entry))?;
            rest = behind;
            number += 1;
        } else {
            put_front(&here, &mut runs, &mut index)?;
            rest = here.skip(8 * whole);
            number += whole;
        }
    }
    Ok(index)
}
