//! Laws of table contexts, each the contract of a function that does nothing.

ghost use Rattle.pst_tc.specs.Laws.{TcLaw, TcRecordsLaw, TcRiseLaw, AlikeTcLaw};
ghost use Rattle.pst_tc.specs.LookUps.{TcLookUpsLaw};

/// There is a table context exactly where it has no first fault.
pub fn tc_decides()
    ensures { TcLaw }
{}

/// A table context has the TCINFO and the records of the row index that are read.
pub fn tc_has_records()
    ensures { TcRecordsLaw }
{}

/// The identifiers of the rows of a table context without fault rise.
pub fn tc_ids_rise()
    ensures { TcRiseLaw }
{}

/// Bit 0 of the block identifiers of a node says nothing of its table, nor of whether that has a fault.
pub fn tc_is_of_keys()
    ensures { AlikeTcLaw }
{}

/// What a table context is asked it answers by the grammar, in the words and the memory of the file that it is of.
pub fn tc_look_ups()
    ensures { TcLookUpsLaw }
{}
