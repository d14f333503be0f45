//! Laws of the comparison, each the contract of a function that does nothing.

ghost use Rattle.pst_amap.specs.Exact.{ExactLaw};
ghost use Rattle.pst_amap.specs.Lost.{RunsLaw};
ghost use Rattle.pst_amap.specs.Report.{MapsLaw};

/// The maps have no fault exactly where each is good and all that is claimed is marked in one order of bits, the most
/// significant first where that fits.
pub fn maps_decide()
    ensures { MapsLaw }
{}

/// The lost runs are runs of lost units as long as can be, in order, and each lost unit lies in one.
pub fn runs_are_whole()
    ensures { RunsLaw }
{}

/// Maps without fault mark exactly what is claimed, the old map pages, and the lost runs of their report.
pub fn marks_are_exact()
    ensures { ExactLaw }
{}
