//! Blocks of cells.
ghost use Rattle.std.specs.Prelude.{◌≡◌, ◌<◌};
ghost use Rattle.acas_cells.specs.Blocks.{IsBlockOf, IsSome, all_cells, first_half, is_one_cell, second_half};

use acas_base::Model;

/// The cells whose places are from i0 up to i1 - 1 on the axis of altitude, from j0 up to j1 - 1 on that of own rate, and from k0
/// up to k1 - 1 on that of intruder rate. A block of a model is not empty and has cells of its grid alone.
#[derive(Clone, Copy)]
pub struct Block {
    pub i0: u32,
    pub i1: u32,
    pub j0: u32,
    pub j1: u32,
    pub k0: u32,
    pub k1: u32,
}

impl Block {
    /// The block of all cells of a model's grid.
    pub fn all_cells(model: &Model) -> Block
        ensures value { result ≡ all_cells model.now }
        ensures block { IsBlockOf model.now result }
    {
        let grid = model.grid();
        Block {
            i0: 0,
            i1: grid.h.len() - 1,
            j0: 0,
            j1: grid.v0.len() - 1,
            k0: 0,
            k1: grid.v1.len() - 1,
        }
    }

    /// Whether it has one cell. It is not empty.
    pub fn is_one_cell(&self) -> bool
        requires { IsSome self.now }
        ensures { result ≡ is_one_cell self.now }
    {
        self.i1 - self.i0 == 1 && self.j1 - self.j0 == 1 && self.k1 - self.k0 == 1
    }

    /// Its halves, along the axis on which it has the most cells. It is not empty.
    pub fn halves(&self) -> (Block, Block)
        requires { IsSome self.now }
        ensures first { result.0 ≡ first_half self.now }
        ensures second { result.1 ≡ second_half self.now }
    {
        let altitudes = self.i1 - self.i0;
        let own_rates = self.j1 - self.j0;
        let intruder_rates = self.k1 - self.k0;
        if own_rates <= altitudes && intruder_rates <= altitudes {
            let middle = self.i0 + altitudes / 2;
            (
                Block {
                    i1: middle,
                    ..*self
                },
                Block {
                    i0: middle,
                    ..*self
                },
            )
        } else if intruder_rates <= own_rates {
            let middle = self.j0 + own_rates / 2;
            (
                Block {
                    j1: middle,
                    ..*self
                },
                Block {
                    j0: middle,
                    ..*self
                },
            )
        } else {
            let middle = self.k0 + intruder_rates / 2;
            (
                Block {
                    k1: middle,
                    ..*self
                },
                Block {
                    k0: middle,
                    ..*self
                },
            )
        }
    }
}
