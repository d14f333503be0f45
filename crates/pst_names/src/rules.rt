//! The rules for entries.

ghost use Rattle.std.specs.Prelude.{◌≡◌};

use crate::fields::Fields;
use crate::streams::{GUIDS, stream};
use crate::string_index::StringIndex;
use pst_fault::Fault;
use pst_pc::Pc;
use std::alloc::Global;

/// The rules for entries: how many GUIDs there are, and the strings that they may name.
#[derive(Drop)]
pub(crate) struct Rules<'a> {
    guids: u64,
    strings: StringIndex<'a>,
}

impl<'a> Rules<'a> {
    ghost use Rattle.std.specs.Prelude.{◌≡◌, length, IfOk, IfErr};
    ghost use Rattle.pst_fault.specs.Fault.{no_memory};
    ghost use Rattle.pst_ndb.specs.Views.{table_of_node, roots_of};
    ghost use Rattle.pst_pc.specs.View.{node_of_pc};
    ghost use Rattle.pst_names.specs.Fault.{guids_count, strings_of};
    ghost use Rattle.pst_names.specs.Known.{allows};
    ghost use Rattle.pst_names.specs.Strings.{rule_guids, rule_strings};

    /// Those of a map; or memory is refused.
    pub(crate) fn of(alloc: Global, pc: &Pc<'a>) -> Result<Rules<'a>, Fault>
        ensures guids { let node = node_of_pc pc.now in
            IfOk result (λ r. rule_guids r ≡ guids_count (table_of_node node) (roots_of node)) }
        ensures strings { let node = node_of_pc pc.now in
            IfOk result (λ r. rule_strings r ≡ strings_of (table_of_node node) (roots_of node)) }
        ensures memory { IfErr result (λ f. f ≡ no_memory) }
    {
        Ok(Rules {
            guids: stream(pc, GUIDS).len() / 16,
            strings: StringIndex::of(alloc, pc)?,
        })
    }

    /// Whether the 8 bytes of an entry keep them: its set is there, and the string that is its name.
    #[tactic(auto, unfolding(crate::specs::Known::allows, crate::specs::Fault::is_entry))]
    pub(crate) fn allow(&self, entry: &[u8]) -> bool
        requires { length entry.now ≡ 8 }
        ensures { result ≡ allows (rule_guids self.now) (rule_strings self.now) entry.now }
    {
        let fields = Fields::of(entry);
        let set = u64::from(fields.word / 2);
        if set >= 3 && set - 3 >= self.guids {
            return false;
        }
        !fields.is_text() || self.strings.has_text(fields.id)
    }
}
