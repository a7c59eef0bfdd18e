//! From the tracks of a cell to those of a cell that it meets.
ghost use Rattle.std.specs.Prelude.{◌≡◌, ◌<◌};
ghost use Rattle.fpga_graph.specs.Crossing.{crossed_track};

use crate::crossing::Crossing;
use fpga_fabric::joined_track;

impl Crossing {
    /// The track of the second cell that this track of the first is joined to.
    ///
    /// Takes constant time and no memory.
    pub fn track(self, track: u32) -> u32
        requires { track < self.width }
        ensures across { result ≡ crossed_track self track }
        ensures within { result < self.width }
    {
        joined_track(self.pattern, self.width, self.from, self.to, track)
    }
}
