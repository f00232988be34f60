//! A frame that was taken and may not be written yet.
ghost use Rattle.std.specs.Prelude.{◌≡◌, ◌≤◌};
ghost use Rattle.hp_frames.specs.Drafts.{made};

use crate::frame::Frame;
use linked_list_allocator::Block;
use std::marker::Model;

/// A part of a node's block that was never a frame. It has to become one.
pub struct Fresh {
    block: Block,
    number: u32,
    node: u8,
    page_bytes: usize,
}

impl Model for Fresh {
    ghost use Rattle.std.specs.Prelude.{◌≤◌};
    ghost use Rattle.hp_frames.specs.Drawn.{Drawn};

    ghost Value = { Drawn };

    ghost view = { λ f. record {
      node = f.node;
      memory = f.block.region;
      page_bytes = f.page_bytes;
    } };

    ghost invariant = { λ f. f.page_bytes ≤ f.block.size };
}

impl Fresh {
    pub(crate) fn new(block: Block, number: u32, node: u8, page_bytes: usize) -> Self
        requires { page_bytes ≤ block.size }
        ensures { result ≡ record { node = node; memory = block.region; page_bytes = page_bytes } }
    {
        Fresh {
            block,
            number,
            node,
            page_bytes,
        }
    }
}

/// What was taken from a stock: a frame with what its last holder left in it, or one that is still to be filled with zeros.
pub enum Draft {
    Used(Frame),
    Fresh(Fresh),
}

impl Draft {
    /// The frame. A fresh one is filled here, with whatever time that takes.
    pub fn into_frame(self) -> Frame
        ensures { result ≡ made self }
    {
        match self {
            Draft::Used(frame) => frame,
            Draft::Fresh(fresh) => {
                let Fresh {
                    block,
                    number,
                    node,
                    page_bytes,
                } = fresh;
                Frame::new(block, number, node, page_bytes)
            }
        }
    }
}
