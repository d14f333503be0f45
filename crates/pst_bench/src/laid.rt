//! Data that is made once, encoded and summed once, and laid down as often as it is wanted.

use crate::image::{Image, LONGEST_BODY};
use crate::lists::{Block, block_list};
use pst_encoding::Codec;
use std::alloc::{AllocError, Global};

/// The body of a data block, with its check value.
#[derive(Drop)]
pub(crate) struct Body {
    bytes: Vec<u8>,
    check: u32,
}

impl Body {
    /// Of these bytes, encoded by the permutation where that is wanted (2.2.2.2 and 5.1).
    pub(crate) fn new(mut bytes: Vec<u8>, encoded: bool) -> Body {
        if encoded {
            Codec::Permute(None).encode(0, &mut bytes);
        }
        let check = pst_crc::check(&bytes);
        Body { bytes, check }
    }

    /// Writes it as a block.
    fn lay(&self, image: &mut Image) -> Result<Block, AllocError> {
        let bid = image.lay(&self.bytes, self.check, false)?;
        Ok(Block {
            bid,
            length: self.bytes.len() as u64,
        })
    }
}

/// The blocks of a data tree (2.2.2.8.3.2).
#[derive(Drop)]
pub(crate) struct Tree {
    bodies: Vec<Body>,
}

impl Tree {
    /// Of these bodies.
    pub(crate) fn of_bodies(
        alloc: Global,
        spans: Vec<Vec<u8>>,
        encoded: bool,
    ) -> Result<Tree, AllocError> {
        let mut bodies = Vec::new(alloc);
        for span in spans {
            bodies.push(Body::new(span, encoded))?;
        }
        Ok(Tree { bodies })
    }

    /// Of these bytes, cut into blocks as long as they may be.
    pub(crate) fn of_bytes(alloc: Global, bytes: &[u8], encoded: bool) -> Result<Tree, AllocError> {
        let mut spans = Vec::new(alloc);
        for piece in bytes.chunks(LONGEST_BODY) {
            spans.push(Vec::from_slice(alloc, piece)?)?;
        }
        Tree::of_bodies(alloc, spans, encoded)
    }

    /// Writes it; gives the identifier of its root, 0 where it has no block.
    pub(crate) fn lay(&self, image: &mut Image) -> Result<u64, AllocError> {
        if self.bodies.len() == 1 {
            if let Some(body) = self.bodies.first() {
                return Ok(body.lay(image)?.bid);
            }
        }
        let mut blocks = Vec::new(image.alloc);
        for body in &self.bodies {
            blocks.push(body.lay(image)?)?;
        }
        block_list(image, &blocks)
    }
}
