//! Laws of property contexts, each the contract of a function that does nothing.

ghost use Rattle.pst_pc.specs.Laws.{PcLaw, PcRecordsLaw, PcRiseLaw, AlikePcLaw};
ghost use Rattle.pst_pc.specs.LookUps.{PcLookUpsLaw};

/// There is a property context exactly where it has no first fault.
pub fn pc_decides()
    ensures { PcLaw }
{}

/// A property context has the records that are read.
pub fn pc_has_records()
    ensures { PcRecordsLaw }
{}

/// The identifiers of the properties of a property context without fault rise.
pub fn pc_keys_rise()
    ensures { PcRiseLaw }
{}

/// Bit 0 of the block identifiers of a node says nothing of its properties, nor of whether they have a fault.
pub fn pc_is_of_keys()
    ensures { AlikePcLaw }
{}

/// What a property context is asked it answers by the grammar, in the words and the memory of the file that it is of.
pub fn pc_look_ups()
    ensures { PcLookUpsLaw }
{}
