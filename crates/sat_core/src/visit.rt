//! A visit of the walk that looks for implied entries.

/// A place of the trail, and the first literal of its entry's reason that is still to be looked at.
#[derive(Clone, Copy, Debug)]
pub(crate) struct Visit {
    pub(crate) place: u32,
    pub(crate) next: usize,
}
