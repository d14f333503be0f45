//! Laws of headers, each the contract of a function that does nothing.

ghost use Rattle.std.specs.Prelude.{◌≤◌, length};
ghost use Rattle.pst_bytes.specs.Image.{bytes_of};
ghost use Rattle.pst_header.specs.Header.{end_of};
ghost use Rattle.pst_header.specs.Head.{Head, HeaderLaw};

use crate::header::Header;
use pst_bytes::Image;

/// A header is good exactly where it has no first fault and its fields are the file's.
pub fn header_decides()
    ensures { HeaderLaw }
{}

/// The mapped part of a file with a good header lies inside the file, and holds the first allocation map.
pub fn header_ends_inside(image: Image, header: &Header)
    requires { Head (bytes_of image) header.now }
    ensures inside { end_of header.now ≤ length (bytes_of image.entry) }
    ensures first_map { 17920 ≤ end_of header.now }
{}
