//! The bytes of a stream that are left to be read.

ghost use Rattle.std.specs.Prelude.{◌≡◌, length};
ghost use Rattle.pst_bytes.specs.Image.{bytes_of, bytes_at};
ghost use Rattle.pst_names.specs.Behind.{file_behind};

use crate::streams::stream;
use pst_bytes::Image;
use pst_datatree::{Pieces, Value};
use pst_pc::Pc;

/// The bytes of a stream that are left to be read, with the place of the next one in the file. Going through them takes no memory.
#[derive(Clone, Copy)]
pub(crate) struct Rest<'a> {
    image: Image<'a>,
    // What is left of a piece, and where it begins.
    at: u64,
    front: &'a [u8],
    // The pieces behind it.
    behind: Option<Pieces<'a>>,
    ghost own: { front.now
        ≡ bytes_at (bytes_of image) (record { at = at; len = length front.now }) },
    ghost file: { file_behind (bytes_of image) behind ≡ bytes_of image },
}

impl<'a> Rest<'a> {
    ghost use Rattle.std.specs.Prelude.{◌≡◌, ◌∷◌, ◌<◌, ◌≤◌, [], length, take, Option, Some, None, IsSome, IfSome};
    ghost use Rattle.pst_datatree.specs.Spans.{joined_bytes};
    ghost use Rattle.pst_bytes.specs.Image.{bytes_of};
    ghost use Rattle.pst_ndb.specs.Views.{image_of_node, table_of_node, roots_of};
    ghost use Rattle.pst_pc.specs.View.{node_of_pc};
    ghost use Rattle.pst_names.specs.Streams.{stream_of, stream_bytes, stream_spans};
    ghost use Rattle.pst_names.specs.Behind.{IsBehind};
    ghost use Rattle.pst_names.specs.Rest.{rest_file, rest_spans, front_span, pieces_left};

    /// All bytes of a stream.
    pub(crate) fn of(pc: &Pc<'a>, id: u16) -> Rest<'a>
        ensures behind { let node = node_of_pc pc.now in
            IsBehind (bytes_of (image_of_node node))
            (stream_spans (table_of_node node) (roots_of node) id) 0 (rest_spans result) }
        ensures file { rest_file result ≡ bytes_of (image_of_node (node_of_pc pc.now)) }
        ensures bytes { let node = node_of_pc pc.now in
            joined_bytes (bytes_of (image_of_node node))
            (stream_spans (table_of_node node) (roots_of node) id)
            ≡ stream_bytes (stream_of (table_of_node node) (roots_of node) id) }
    {
        let image = pc.node().image();
        match stream(pc, id) {
            Value::Whole(at, front) => Rest {
                image,
                at,
                front,
                behind: None,
            },
            Value::Pieces(pieces) => Rest {
                image,
                at: 0,
                front: &[],
                behind: Some(pieces),
            },
        }
    }

    /// Where the next byte lies.
    pub(crate) fn at(&self) -> u64
        ensures { result ≡ (front_span self.now).at }
    {
        self.at
    }

    /// The bytes that lie side by side in the file, from the next one on.
    pub(crate) fn front(&self) -> &'a [u8]
        ensures bytes { result.now ≡ self.now.front.now }
        ensures own { result.now ≡ bytes_at (rest_file self.now) (front_span self.now) }
        ensures len { length result.now ≡ (front_span self.now).len }
    {
        self.front
    }

    // The same from the next piece on, where the front has no byte left.
    fn next_piece(self) -> Option<Rest<'a>>
        requires { (front_span self).len ≡ 0 }
        ensures behind { IfSome result (λ next.
            IsBehind (rest_file self.entry) (rest_spans self.entry) 0 (rest_spans next)) }
        ensures file { IfSome result (λ next. rest_file next ≡ rest_file self.entry) }
        ensures fewer { IfSome result (λ next. pieces_left next < pieces_left self.entry) }
        ensures none { result ≡ None →
            joined_bytes (rest_file self.entry) (rest_spans self.entry) ≡ [] }
    {
        let mut behind = self.behind?;
        let span = behind.next_span()?;
        Some(Rest {
            image: self.image,
            at: span.at,
            front: self.image.slice(span),
            behind: Some(behind),
        })
    }

    /// The same, from the first piece that has some of the bytes on.
    pub(crate) fn settled(self) -> Rest<'a>
        ensures behind { IsBehind (rest_file self.entry) (rest_spans self.entry) 0
            (rest_spans result) }
        ensures file { rest_file result ≡ rest_file self.entry }
        ensures some { (front_span result).len ≡ 0 →
            joined_bytes (rest_file self.entry) (rest_spans self.entry) ≡ [] }
    {
        let mut rest = self;
        while rest.front.is_empty() {
            let Some(next) = rest.next_piece() else {
                return rest;
            };
            rest = next;
        }
        rest
    }

    /// What is left behind so many bytes of the front.
    pub(crate) fn skip(self, count: u64) -> Rest<'a>
        requires { count ≤ (front_span self).len }
        ensures behind { IsBehind (rest_file self.entry) (rest_spans self.entry) count
            (rest_spans result) }
        ensures file { rest_file result ≡ rest_file self.entry }
    {
        Rest {
            image: self.image,
            at: self.at + count,
            front: &self.front[count as usize..],
            behind: self.behind,
        }
    }

    // The next 8 bytes, and what is left behind them.
    pub(crate) fn entry(self) -> ([u8; 8], Rest<'a>)
        requires { 8 ≤ length (joined_bytes (rest_file self) (rest_spans self)) }
        ensures bytes { result.0 ≡
            take 8 (joined_bytes (rest_file self.entry) (rest_spans self.entry)) }
        ensures behind { IsBehind (rest_file self.entry) (rest_spans self.entry) 8
            (rest_spans result.1) }
        ensures file { rest_file result.1 ≡ rest_file self.entry }
    {
        let mut bytes = [0; 8];
        let mut rest = self;
        for i in 0..8 {
            let here = rest.settled();
            bytes[i] = here.front[0];
            rest = here.skip(1);
        }
        (bytes, rest)
    }
}
