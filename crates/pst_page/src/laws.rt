//! The law of pages, as the contract of a function that does nothing.

ghost use Rattle.pst_page.specs.Good.{PageLaw};

/// A page is good and has its shape exactly where it has no first fault.
pub fn page_decides()
    ensures { PageLaw }
{}
