//! The name map as a view.

ghost use Rattle.std.specs.Prelude.{◌≡◌, None, IfSome};
ghost use Rattle.std.proofs.Props.{props};
ghost use Rattle.pst_ndb.specs.Views.{table_of_node, roots_of};
ghost use Rattle.pst_pc.specs.View.{node_of_pc};
ghost use Rattle.pst_names.specs.Fault.{names_fault};
ghost use Rattle.pst_names.specs.Index.{NamesBy};

use crate::fields::Fields;
use crate::index::{NameIndex, index_of};
use crate::name::{Name, NameKind};
use crate::rest::Rest;
use crate::streams::{ENTRIES, GUIDS, STRINGS, stream};
use crate::strings::Strings;
use pst_ndb::Node;
use pst_pc::Pc;
use pst_value::as_guid;
use std::alloc::{AllocError, Global};
use uuid::Uuid;

// The two sets that are always there ([MS-PST] 2.4.7.1).
const PS_MAPI: [u8; 16] = [
    0x00, 0x02, 0x03, 0x28, 0x00, 0x00, 0x00, 0x00, 0xC0, 0x00, 0x00, 0x00, 0x00, 0x00, 0x00, 0x46,
];

const PS_PUBLIC_STRINGS: [u8; 16] = [
    0x00, 0x02, 0x03, 0x29, 0x00, 0x00, 0x00, 0x00, 0xC0, 0x00, 0x00, 0x00, 0x00, 0x00, 0x00, 0x46,
];

/// The node whose properties are the streams of the name map ([MS-PST] 2.4.1).
pub const NAME_MAP: u32 = 0x61;

/// A name map without fault ([MS-PST] 2.4.7): what the properties of a store from 0x8000 on are called.
#[derive(Clone, Copy)]
pub struct NameMap<'a> {
    pc: Pc<'a>,
    // An index of it, where it was lent one.
    index: Option<&'a NameIndex>,
    ghost sound: { names_fault (table_of_node (node_of_pc pc)) (roots_of (node_of_pc pc)) ≡ None },
    ghost indexed: { IfSome index (λ i. NamesBy (node_of_pc pc) i.now) } by { Prim.hlevel props },
}

impl<'a> NameMap<'a> {
    ghost use Rattle.std.specs.Prelude.{◌≡◌, ◌+◌, ◌%◌, ◌<◌, None, IfSome, IfOk, option_map};
    ghost use Rattle.pst_ndb.specs.Views.{image_of_node, table_of_node, roots_of};
    ghost use Rattle.pst_pc.specs.View.{node_of_pc};
    ghost use Rattle.pst_names.specs.declared.streams.TheConstants.{GUIDS};
    ghost use Rattle.pst_names.specs.Streams.{stream_of, stream_bytes};
    ghost use Rattle.pst_names.specs.Fault.{names_fault, guids_count, strings_of};
    ghost use Rattle.pst_names.specs.Grammar.{HasText, IsNameMap};
    ghost use Rattle.pst_names.specs.Name.{set_with, name_kind, name_of_property};
    ghost use Rattle.pst_names.specs.Index.{naming_fields, NamesBy};
    ghost use Rattle.pst_names.specs.Entry.{NameEntry};
    ghost use Rattle.pst_names.specs.View.{node_of_names, kind_parts, name_parts, IsKindLent, IsLent};

    // That of a property context which has one.
    pub(crate) fn of(pc: &Pc<'a>) -> NameMap<'a>
        requires { let node = node_of_pc pc.now in
            names_fault (table_of_node node) (roots_of node) ≡ None }
        ensures { node_of_names result ≡ node_of_pc pc.now }
    {
        NameMap {
            pc: *pc,
            index: None,
        }
    }

    /// What is known of every name map: it has no first fault, so it is one by the grammar.
    pub fn is_sound(&self)
        ensures sound { let node = node_of_names self.now in
            names_fault (table_of_node node) (roots_of node) ≡ None }
        ensures map { let node = node_of_names self.now in
            IsNameMap (table_of_node node) (roots_of node) }
    {}

    /// The node whose properties its streams are.
    pub fn node(&self) -> Node<'a>
        ensures { result ≡ node_of_names self.now }
    {
        self.pc.node()
    }

    /// An index of the map, to be lent to it (`indexed`): of n entries it is made in about n log n steps, and those that lie side by
    /// side in a block count once for each of the eight ways in which entries can lie there, however often the map names that
    /// block. AllocError where memory is refused.
    pub fn index(&self, alloc: Global) -> Result<NameIndex, AllocError>
        ensures { IfOk result (NamesBy (node_of_names self.now)) }
    {
        index_of(alloc, &self.pc)
    }

    /// The same map, which is lent an index: it finds names by this from then on.
    pub fn indexed(self, index: &'a NameIndex) -> NameMap<'a>
        requires { NamesBy (node_of_names self) index.now }
        ensures { node_of_names result ≡ node_of_names self.entry }
    {
        let mut map = self;
        map.index = Some(index);
        map
    }

    // The entry that names a property, looked for one by one.
    fn scanned(&self, id: u16) -> Option<Fields>
        ensures { let node = node_of_names self.now in
            result ≡ naming_fields (table_of_node node) (roots_of node) id }
    {
        let count = stream(&self.pc, ENTRIES).len() / 8;
        let mut rest = Rest::of(&self.pc, ENTRIES);
        let mut number = 0;
        while number < count {
            let (bytes, behind) = rest.entry();
            let fields = Fields::of(&bytes);
            if fields.is_for(id) {
                return Some(fields);
            }
            rest = behind;
            number += 1;
        }
        None
    }

    // The entry that names a property: by the index that the map was lent, or looked for.
    fn entry(&self, id: u16) -> Option<Fields>
        ensures { let node = node_of_names self.now in
            result ≡ naming_fields (table_of_node node) (roots_of node) id }
    {
        if let Some(index) = self.index {
            return index.fields(id);
        }
        self.scanned(id)
    }

    // The set with an index.
    #[tactic(auto, unfolding(crate::specs::Name::set_with))]
    fn set(&self, index: u16) -> Option<Uuid>
        requires { let node = node_of_names self.now in
            index < 3 + guids_count (table_of_node node) (roots_of node) }
        ensures { let node = node_of_names self.now in
            result ≡ set_with
            (stream_bytes (stream_of (table_of_node node) (roots_of node) GUIDS)) index }
    {
        if index == 0 {
            return None;
        }
        if index == 1 {
            return Some(Uuid::from_bytes(PS_MAPI));
        }
        if index == 2 {
            return Some(Uuid::from_bytes(PS_PUBLIC_STRINGS));
        }
        let guids = stream(&self.pc, GUIDS);
        let _len = guids.len();
        let at = 16 * u64::from(index - 3);
        let guid = guids.part(at, at + 16).unwrap();
        as_guid(&guid)
    }

    // The name that an entry gives within its set.
    #[tactic(auto, unfolding(crate::specs::Name::name_kind))]
    fn kind(&self, fields: Fields) -> NameKind<'a>
        requires { let node = node_of_names self.now in
            fields.word % 2 ≡ 1 →
            HasText (strings_of (table_of_node node) (roots_of node)) fields.id }
        ensures value { (e : NameEntry) → e.id ≡ fields.id → e.word ≡ fields.word →
            let node = node_of_names self.now in
            kind_parts result ≡ name_kind (strings_of (table_of_node node) (roots_of node)) e }
        ensures lent { let node = node_of_names self.now in
            IsKindLent (image_of_node node) (table_of_node node) (roots_of node) fields.id result }
    {
        if !fields.is_text() {
            return NameKind::Num(fields.id);
        }
        let strings = Strings::of(stream(&self.pc, STRINGS));
        NameKind::Text(strings.text(fields.id))
    }

    /// What the property with an identifier is called; None exactly where no entry of the map names it. Of two entries that name it
    /// the first one counts. It takes no memory. By the index that the map was lent, it takes about log n steps for n names; else it
    /// goes through the entries up to the one that names it.
    pub fn name(&self, id: u16) -> Option<Name<'a>>
        ensures value { let node = node_of_names self.now in
            option_map name_parts result ≡ name_of_property (table_of_node node) (roots_of node) id }
        ensures lent { let node = node_of_names self.now in
            IfSome result (IsLent (image_of_node node) (table_of_node node) (roots_of node) id) }
    {
        let Some(fields) = self.entry(id) else {
            return None;
        };
        let set = self.set(fields.word / 2);
        let kind = self.kind(fields);
        Some(Name { set, kind })
    }
}
