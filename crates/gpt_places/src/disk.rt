// A disk that head and tail can be lent for: its shape and its blocks.
ghost use Rattle.std.specs.Prelude.{◌≡◌};
ghost use Rattle.gpt_model.specs.Disk.{last_usable, entries_block};
ghost use Rattle.gpt_places.specs.Invariants.{Fits};
ghost use Rattle.gpt_places.specs.Sides.{side_of};

use super::Side;
use gpt_model::{Block, Shape};

// N blocks of a shape, at least its least N.
#[derive(Clone, Copy)]
pub struct Disk {
    pub shape: Shape,
    pub n: u64,
    pub ghost fits: { Fits shape n },
}

impl Disk {
    pub fn first_usable(self) -> Block
        ensures { result.0 ≡ self.shape.first }
    {
        Block(self.shape.first)
    }

    pub fn last_usable(self) -> Block
        ensures { result.0 ≡ last_usable self.shape self.n }
    {
        Block(self.n - self.shape.first)
    }

    // D2: .. with entries from 2; .. with entries from N−33. l1: backup entries start at N−5
    pub fn entries_block(self, side: Side) -> Block
        ensures { result.0 ≡ entries_block self.shape (side_of side) self.n }
    {
        match side {
            Side::Primary => Block(2),
            Side::Backup => Block(self.n - self.shape.first + 1),
        }
    }
}
