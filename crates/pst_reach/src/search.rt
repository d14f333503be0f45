//! The search, level by level from the root folder.

ghost use Rattle.std.specs.Prelude.{◌≡◌, ℕ, ◌+◌, None, [], ◌∷◌, IfOk, OnOk, OnErr, map};
ghost use Rattle.pst_btree.specs.Order.{Rises};
ghost use Rattle.pst_ndb.specs.Counts.{capped};
ghost use Rattle.pst_ndb.specs.NodeIndexes.{AreNodeIndexes, AreNodeIndexes-prop};
ghost use Rattle.pst_ndb.specs.Views.{table_of_ndb, nodes_of, roots_of};
ghost use Rattle.pst_store.specs.pst_msg.Fault.{messaging_fault};
ghost use Rattle.pst_intact.specs.View.{table_of_intact, nodes_of_intact};
ghost use Rattle.pst_reach.specs.Levels.{reaches_of, folders_in, folders_at};
ghost use Rattle.pst_reach.specs.Path.{reach_nid};
ghost use Rattle.pst_reach.specs.Search.{table_key};

use crate::reached::Reach;
use crate::rows::take_rows;
use pst_intact::Intact;
use pst_ndb::{Ndb, Node, NodeIndexes, Work};
use pst_page::PageKind;
use pst_store::{FOLDER, ROOT, Store, is_type};
use pst_tc::{Tc, known_tc};
use std::alloc::{AllocError, Global};
use std::collections::{BTreeMap, BTreeSet};

// Lists of tables are asked for so many row matrices before one gets an index.
const OFTEN: u64 = 24;

// The key of a table: its data alone, since its list of subnodes says nothing of what its rows name.
fn key_of(table: Node) -> u64
    ensures { result ≡ table_key (roots_of table.entry) }
{
    PageKind::Bbt.key_of(table.bid_data())
}

// How many folders were walked from by then.
fn walked_in(work: &Work) -> u64
    ensures { result ≡ work.now.walked }
{
    work.walked
}

// A count of folders that are walked from, with one more, or with a search folder, which has no table to walk by.
fn count_folder(walked: u64, nid: u32) -> u64
    ensures { (before : ℕ) → walked ≡ capped before →
        result ≡ capped (before + folders_at (nid ∷ [])) }
{
    if is_type(FOLDER, nid) {
        walked.saturating_add(1)
    } else {
        walked
    }
}

// The search, as it goes on.
#[derive(Drop)]
struct Search<'a> {
    alloc: Global,
    intact: Intact<'a>,
    found: BTreeMap<u32, Reach>,
    // The tables that were gone through, by the identifiers of their data without bit 0. What several folders have is gone
    // through once: it names nothing new, and no lesser parent, where it is met again.
    tables: BTreeSet<u64>,
    // How many folders were walked from.
    walked: u64,
    // By what tables are found that have much of the same: their row matrices in their lists, and the spans of their data.
    index: NodeIndexes,
    ghost indexed: { AreNodeIndexes (table_of_intact intact) index } by { AreNodeIndexes-prop
        (table_of_intact intact) index },
}

impl<'a> Search<'a> {
    ghost use Rattle.std.specs.Prelude.{◌≡◌, ℕ, suc, ◌+◌, true, is_some, OnOk, IfOk, length};
    ghost use Rattle.pst_ndb.specs.Counts.{capped};
    ghost use Rattle.pst_ndb.specs.Views.{table_of_node, roots_of};
    ghost use Rattle.pst_tc.specs.Tc.{node_of_tc};
    ghost use Rattle.pst_tc.specs.Values.{tc_rows};
    ghost use Rattle.pst_intact.specs.View.{table_of_intact, nodes_of_intact};
    ghost use Rattle.pst_reach.specs.Levels.{steps_named, steps_of, reaches_of, folders_in, folders_at};
    ghost use Rattle.pst_reach.specs.Reach.{folder_ids, folders_named, is_folder_among};
    ghost use Rattle.pst_store.specs.pst_msg.pst_mail.declared.nid.TheConstants.{ROOT as ROOT_NID};
    ghost use Rattle.pst_reach.specs.Search.{reach_so_far, Takes, AreTaken, IsReachedWithin, IsLevel};

    // The rows of a hierarchy table, which is lent its indexes.
    fn take_table(
        &mut self,
        next: &mut BTreeSet<u32>,
        depth: u32,
        parent: u32,
        table: Tc,
    ) -> Result<(), AllocError>
        requires { table_of_node (node_of_tc table) ≡ table_of_intact self.old.intact }
        ensures intact { self.new.intact ≡ self.old.intact }
        ensures tables { self.new.tables ≡ self.old.tables }
        ensures walked { self.new.walked ≡ self.old.walked }
        ensures takes { let node = node_of_tc table.entry in
            let rows = tc_rows (table_of_node node) (roots_of node) in
            let ids = folders_named (nodes_of_intact self.old.intact) rows in
            OnOk result
            (Takes depth (steps_named parent ids) self.old.found next.old self.new.found next.new) }
        ensures keeps { (nid : ℕ) → is_some (reach_so_far self.old.found nid) ≡ true →
            is_some (reach_so_far self.new.found nid) ≡ true }
    {
        table.is_sound();
        self.index.turn(self.alloc, table.node(), 1)?;
        let lent = known_tc(self.index.lend(table.node()));
        take_rows(&self.intact, &mut self.found, next, depth, parent, lent)
    }

    // The rows of the hierarchy table of a folder at the depth before.
    fn take_folder(
        &mut self,
        next: &mut BTreeSet<u32>,
        depth: u32,
        parent: u32,
    ) -> Result<(), AllocError>
        requires taken { let i = self.old.intact in
            AreTaken (table_of_intact i) (nodes_of_intact i) self.old.tables self.old.found }
        ensures intact { self.new.intact ≡ self.old.intact }
        ensures walked { self.new.walked ≡ self.old.walked }
        ensures taken { let t = table_of_intact self.old.intact in
            OnOk result (AreTaken t (nodes_of_intact self.old.intact) self.new.tables self.new.found) }
        ensures takes { let t = table_of_intact self.old.intact in
            let steps = steps_of t (nodes_of_intact self.old.intact) parent in
            OnOk result (Takes depth steps self.old.found next.old self.new.found next.new) }
    {
        let Some(folder) = self.intact.folder(parent) else {
            return Ok(());
        };
        let Some(table) = folder.hierarchy() else {
            return Ok(());
        };
        let key = key_of(table.node());
        if self.tables.contains(&key) {
            return Ok(());
        }
        self.take_table(next, depth, parent, table)?;
        let _new = self.tables.insert(key)?;
        Ok(())
    }

    // The folders at a depth, from those at the depth before.
    fn take_level(&mut self, depth: u32, level: BTreeSet<u32>) -> Result<BTreeSet<u32>, AllocError>
        requires taken { let i = self.old.intact in
            AreTaken (table_of_intact i) (nodes_of_intact i) self.old.tables self.old.found }
        ensures intact { self.new.intact ≡ self.old.intact }
        ensures taken { let t = table_of_intact self.old.intact in
            OnOk result (AreTaken t (nodes_of_intact self.old.intact) self.new.tables self.new.found) }
        ensures within { let t = table_of_intact self.old.intact in
            let nodes = nodes_of_intact self.old.intact in
            (n : ℕ) → depth ≡ suc n → IsReachedWithin t nodes n self.old.found → IsLevel t nodes n level →
            OnOk result (IsReachedWithin t nodes (suc n) self.new.found) }
        ensures level { let t = table_of_intact self.old.intact in
            let nodes = nodes_of_intact self.old.intact in
            (n : ℕ) → depth ≡ suc n → IsReachedWithin t nodes n self.old.found → IsLevel t nodes n level →
            IfOk result (IsLevel t nodes (suc n)) }
        ensures walked { (before : ℕ) → self.old.walked ≡ capped before →
            OnOk result (self.new.walked ≡ capped (before + folders_at level.keys)) }
    {
        self.intact.nids_rise();
        let mut level = level;
        let mut next = BTreeSet::new(self.alloc);
        while let Some(parent) = level.pop_first() {
            self.walked = count_folder(self.walked, parent);
            self.take_folder(&mut next, depth, parent)?;
        }
        next.len();
        Ok(next)
    }

    // All levels. No way is as long as there are folders, unless it goes in a circle.
    fn take_levels(&mut self, level: BTreeSet<u32>) -> Result<(), AllocError>
        requires taken { let i = self.old.intact in
            AreTaken (table_of_intact i) (nodes_of_intact i) self.old.tables self.old.found }
        requires root { is_folder_among (nodes_of_intact self.old.intact) ROOT_NID ≡ true }
        requires within { let t = table_of_intact self.old.intact in
            IsReachedWithin t (nodes_of_intact self.old.intact) 0 self.old.found }
        requires level { let t = table_of_intact self.old.intact in
            IsLevel t (nodes_of_intact self.old.intact) 0 level }
        ensures intact { self.new.intact ≡ self.old.intact }
        ensures within { let t = table_of_intact self.old.intact in
            let nodes = nodes_of_intact self.old.intact in
            OnOk result (IsReachedWithin t nodes (length (folder_ids nodes)) self.new.found) }
        ensures walked { let all = reaches_of (table_of_intact self.old.intact)
            (nodes_of_intact self.old.intact) in
            (before : ℕ) → self.old.walked ≡ capped before →
            OnOk result (self.new.walked ≡ capped (before + folders_in all)) }
    {
        self.intact.nids_rise();
        let mut level = level;
        let mut depth = 0;
        let mut rest = self.intact.folders();
        while let Some(folder) = rest.next() {
            if level.is_empty() {
                return Ok(());
            }
            let _nid = folder.nid();
            depth += 1;
            level = self.take_level(depth, level)?;
        }
        Ok(())
    }

    // What is found, the identifiers rising.
    fn list(&self) -> Result<Vec<Reach>, AllocError>
        requires within { let nodes = nodes_of_intact self.now.intact in
            IsReachedWithin (table_of_intact self.now.intact) nodes (length (folder_ids nodes)) self.now.found }
        ensures { let t = table_of_intact self.now.intact in
            IfOk result (λ v. v.items ≡ reaches_of t (nodes_of_intact self.now.intact)) }
    {
        let mut reached = Vec::new(self.alloc);
        let mut rest = self.intact.folders();
        while let Some(folder) = rest.next() {
            if let Some(reach) = self.found.get(&folder.nid()).copied() {
                reached.push(reach)?;
            }
        }
        Ok(reached)
    }
}

// What the search finds among intact nodes, and how many folders were walked from by then. Where the root folder is not among
// them, it reaches none.
#[tactic(auto, using(crate::proofs::RootLemmas::nothing_reached, crate::proofs::RootLemmas::nothing_walked))]
fn search_from(alloc: Global, intact: &Intact, walked: u64) -> Result<(Vec<Reach>, u64), AllocError>
    ensures exact { let t = table_of_intact intact.now in
        IfOk result (λ x. x.0.items ≡ reaches_of t (nodes_of_intact intact.now)) }
    ensures walked { let i = intact.now in
        let all = reaches_of (table_of_intact i) (nodes_of_intact i) in
        (before : ℕ) → walked ≡ capped before →
        IfOk result (λ x. x.1 ≡ capped (before + folders_in all)) }
{
    intact.nids_rise();
    if intact.folder(ROOT).is_none() {
        return Ok((Vec::new(alloc), walked));
    }
    let mut found = BTreeMap::new(alloc);
    let root = Reach {
        nid: ROOT,
        parent: 0,
        depth: 0,
    };
    let _none = found.insert(ROOT, root)?;
    let mut level = BTreeSet::new(alloc);
    let _new = level.insert(ROOT)?;
    let mut search = Search {
        alloc,
        intact: *intact,
        found,
        tables: BTreeSet::new(alloc),
        walked,
        index: NodeIndexes::new(alloc, OFTEN),
    };
    search.take_levels(level)?;
    let reached = search.list()?;
    Ok((reached, search.walked))
}

/// The folders and search folders among intact nodes that the root folder reaches, their identifiers rising, each with its depth
/// and its parent: a row of a hierarchy table that names what is not among these nodes leads nowhere. AllocError where memory is
/// refused.
#[tactic(auto, using(crate::proofs::RootLemmas::reaches_rise))]
pub fn reach_among(alloc: Global, intact: &Intact) -> Result<Vec<Reach>, AllocError>
    ensures exact { let t = table_of_intact intact.now in
        IfOk result (λ v. v.items ≡ reaches_of t (nodes_of_intact intact.now)) }
    ensures rise { IfOk result (λ v. Rises 0 None (map reach_nid v.items)) }
{
    intact.nids_rise();
    let (reached, _walked) = search_from(alloc, intact, 0)?;
    Ok(reached)
}

/// The folders and search folders that the root folder reaches, their identifiers rising, each with its depth and its parent. The
/// count of the folders that were walked from is raised by their number: each is walked from once, and a search folder, which has
/// no table to walk by, is not. It stays at its greatest value once it is there, and the other counts stay as they are.
///
/// Each hierarchy table is gone through once, also where several folders have its data, and a row of it takes about log n steps of
/// n folders. It answers nothing but that memory is refused, and then no count is raised.
#[tactic(auto, using(crate::proofs::RootLemmas::reaches_rise, crate::proofs::LoopLemmas::capped_small))]
pub fn reach(alloc: Global, ndb: &Ndb, work: &mut Work) -> Result<Vec<Reach>, AllocError>
    requires { messaging_fault (table_of_ndb ndb.now) (nodes_of ndb.now) ≡ None }
    ensures exact { let t = table_of_ndb ndb.now in
        IfOk result (λ v. v.items ≡ reaches_of t (nodes_of ndb.now)) }
    ensures rise { IfOk result (λ v. Rises 0 None (map reach_nid v.items)) }
    ensures walked { let all = reaches_of (table_of_ndb ndb.now) (nodes_of ndb.now) in
        OnOk result (work.new.walked ≡ capped (work.old.walked + folders_in all)) }
    ensures same { OnErr result (work.new.walked ≡ work.old.walked) }
    ensures pages { work.new.pages ≡ work.old.pages }
    ensures sums { work.new.sums ≡ work.old.sums }
    ensures expansions { work.new.expansions ≡ work.old.expansions }
    ensures contexts { work.new.contexts ≡ work.old.contexts }
{
    let walked = walked_in(work);
    let intact = Intact::of(&Store::known(*ndb));
    intact.nids_rise();
    let (reached, walked) = search_from(alloc, &intact, walked)?;
    work.walked = walked;
    Ok(reached)
}
