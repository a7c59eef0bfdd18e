//! What a window of the array has: nets, and the sinks that they come to.

use fpga_types::Terminal;

/// A net of a window: its number in the netlist, and the terminal that drives it.
#[derive(Clone, Copy)]
pub struct WindowNet {
    pub number: u32,
    pub driver: Terminal,
}

/// A sink of a net of a window: the net, by its place among those of the window, and the terminal.
#[derive(Clone, Copy)]
pub struct Arrival {
    pub net: u32,
    pub at: Terminal,
}
