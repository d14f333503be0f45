//! Laws of the answers, each the contract of a function that does nothing.

ghost use Rattle.pst_run.specs.Laws.{WholeOptionLaw};

/// Of a store `--whole` changes no answer.
pub fn whole_changes_no_store()
    ensures { WholeOptionLaw }
{}
