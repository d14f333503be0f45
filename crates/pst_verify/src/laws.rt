//! The law of look-ups, the contract of a function that does nothing.

ghost use Rattle.pst_verify.specs.LookUps.{LookUpsLaw};

/// Of whatever bytes `verify` answered yes, each later look-up answers, without fault, the value of the store that they are, lent
/// from the very memory of these bytes, as one slice wherever it is contiguous.
///
/// It goes one by one through the calls that find what a store, a node, a property context, a table, a row, a name map, a folder,
/// a message or an attachment has, and through the iterators over these. The rest stands in the clauses of the calls themselves, in
/// the same words: how a part is named (`nid`, `Row::id`, `Row::at`), what `Columns::next` yields, the blocks and the list of a node
/// (`spans`, `parts`, `leaf`, `leaves`, `leaf_count`, `subs`, `sub_entry`, `child`), the same part with an index (`indexed`), and
/// what a `Value` is asked.
pub fn look_ups_are_of_the_store()
    ensures { LookUpsLaw }
{}
