//! The values that the texts of an island-style FPGA stand for: the array, its cells and wires, an
//! architecture, a netlist, a placement, and a global or detailed route; and where blocks may
//! stand, what a route's slots and steps are, which routes fit their array, netlist and placement,
//! and which routings are legal.
#![tactic(auto)]

mod arch;
mod array_size;
mod cells;
mod fit_cause;
mod grid;
mod items;
mod limits;
mod names;
mod netlist;
mod placement;
mod problem;
mod route;

pub use arch::{Arch, FcSpec, Pattern, PinSpec, SideSet};
pub use array_size::SizeFault;
pub use cells::{cell_number, cell_of};
pub use fit_cause::FitCause;
pub use grid::{Axis, Cell, Grid, PinAt, Side, SwitchAt, Wire};
pub use items::Items;
pub use limits::{
    CLASS_LIMIT, NET_LIMIT, PAD_LIMIT, PIN_LIMIT, REACH_LIMIT, SHARE_LIMIT, SIDE_LIMIT, SLOT_LIMIT,
    STEP_LIMIT, WIDTH_LIMIT,
};
pub use names::number_name;
pub use netlist::{Block, BlockKind, Net, Netlist, PinRef};
pub use placement::{Place, Placement, Spot};
pub use problem::{PinStep, RouteStep, Slot, Terminal};
pub use route::{Elem, ElemKind, Label, Name, RouteNet, RouteText};
