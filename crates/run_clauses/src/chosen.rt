//! The encoder of the method of a job.
ghost use Rattle.std.proofs.Props.{props};
ghost use Rattle.router_words.specs.Near.{IsNear};

use route_ordered::Ordered;
use router_words::Method;

/// The encoder of the method that a job has chosen.
#[derive(Drop)]
pub struct Chosen {
    /// How routings are said by clauses.
    pub method: Method,
    /// The row of slots that is kept in order, where the method does so. It is found once, for all
    /// widths.
    pub order: Ordered,
    ghost near: { IsNear method } by { Prim.hlevel props },
}
