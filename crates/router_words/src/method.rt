//! How routings are said by clauses.

/// How a job has the routings of its problem said by clauses.
#[derive(Clone, Copy)]
pub enum Method {
    /// Each net has one track in each cell of its global route.
    Strictly,
    /// As `Strictly`, and of one cell that the most nets take, the first net has track 0, the
    /// second track 1 and so on, as far as there are tracks. All tracks of a channel have to be
    /// alike.
    Pinned,
    /// A net may have several tracks in a cell of its global route, and reaches each of its sinks
    /// from its source over at most so many joins of wires, from 1 to 64.
    Within(u32),
    /// As `Strictly`, and the slots of a crowd, trees of which each two share a cell, come to the
    /// groups of tracks in their order. Those groups have to be free to change places.
    Ordered,
}
