//! A wire that another one is joined to.
use fpga_types::{Axis, Cell, Wire};
use std::marker::Model;

/// A wire that another one is joined to. Contracts see the wire.
///
/// The default, which fills the unused places of a list, is track 0 of a cell that no array has.
#[derive(Clone, Copy)]
pub struct Joint {
    pub wire: Wire,
}

impl Model for Joint {
    ghost use Rattle.fpga_types.specs.declared.grid.Wire.{Wire};

    ghost Value = { Wire };

    ghost view = { λ j. j.wire };

    ghost inverse = { λ w. record { wire = w } };
}

impl Default for Joint {
    fn default() -> Joint {
        let cell = Cell {
            axis: Axis::X,
            x: 0,
            y: 0,
        };
        Joint {
            wire: Wire { cell, track: 0 },
        }
    }
}
