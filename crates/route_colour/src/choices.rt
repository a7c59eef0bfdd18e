//! Which tracks are left to each tree, and which tree comes next.
use std::alloc::{AllocError, Global};
use std::collections::BinaryHeap;

/// What a tree weighs more for each time that it had no track left.
const STUCK: u64 = 10;

/// A tree: the tracks that are left to it, a bit each, the one that it has, the one that it had
/// last, and what it weighs.
#[derive(Clone, Copy)]
struct Tree {
    left: u64,
    given: Option<u32>,
    last: u32,
    weight: u64,
}

/// How urgent it is that a tree gets a track: the more it weighs, and the fewer are left to it.
#[derive(Clone, Copy, PartialEq, Eq, PartialOrd, Ord)]
struct Wish {
    urgency: u64,
    tree: u32,
}

/// A tree that lost a track, and what was left to it before.
#[derive(Clone, Copy)]
struct Loss {
    tree: u32,
    left: u64,
}

/// A tree that was given a track, and how many losses there were before.
#[derive(Clone, Copy)]
struct Gift {
    tree: u32,
    track: u32,
    losses: usize,
}

/// The trees, each in the place of its first slot, with all that was given and lost, so that it can
/// be taken back. Nothing is promised of them.
#[derive(Drop)]
pub(crate) struct Choices {
    trees: Vec<Tree>,
    wishes: BinaryHeap<Wish>,
    gifts: Vec<Gift>,
    losses: Vec<Loss>,
}

impl Choices {
    /// So many trees, to each of which all tracks are left.
    ///
    /// # Errors
    /// Where memory is short.
    pub fn new(alloc: Global, count: usize, width: u32) -> Result<Choices, AllocError> {
        let tree = Tree {
            left: all_tracks(width),
            given: None,
            last: 0,
            weight: 1,
        };
        Ok(Choices {
            trees: vec![in alloc; tree; count]?,
            wishes: BinaryHeap::new(alloc),
            gifts: Vec::new(alloc),
            losses: Vec::new(alloc),
        })
    }

    /// A tree.
    fn tree(&self, tree: u32) -> Tree {
        let none = Tree {
            left: 0,
            given: None,
            last: 0,
            weight: 1,
        };
        self.trees.get(tree as usize).copied().unwrap_or(none)
    }

    /// Puts a tree in the place of what it was.
    fn set(&mut self, tree: u32, now: Tree) {
        let place = tree as usize;
        if place < self.trees.len() {
            self.trees[place] = now;
        }
    }

    /// Keeps to a tree those of its tracks that are among these.
    pub fn keep(&mut self, tree: u32, tracks: u64) {
        let was = self.tree(tree);
        let left = was.left & tracks;
        self.set(tree, Tree { left, ..was });
    }

    /// Makes a tree weigh so much more.
    pub fn add_weight(&mut self, tree: u32, more: u64) {
        let was = self.tree(tree);
        let weight = was.weight.saturating_add(more);
        self.set(tree, Tree { weight, ..was });
    }

    /// Notes that a tree wants a track.
    ///
    /// # Errors
    /// Where memory is short.
    pub fn wish(&mut self, tree: u32) -> Result<(), AllocError> {
        let urgency = self.tree(tree).urgency();
        self.wishes.push(Wish { urgency, tree })?;
        Ok(())
    }

    /// The tree without a track whose wish is most urgent. A wish that is less urgent by now, since
    /// the tree was given tracks back, is noted anew.
    ///
    /// # Errors
    /// Where memory is short.
    pub fn next(&mut self) -> Result<Option<u32>, AllocError> {
        for _ in 0..self.wishes.len().saturating_mul(2) {
            let Some(wish) = self.wishes.pop() else {
                return Ok(None);
            };
            let tree = self.tree(wish.tree);
            if tree.given.is_none() {
                if tree.urgency() == wish.urgency {
                    return Ok(Some(wish.tree));
                }
                self.wish(wish.tree)?;
            }
        }
        Ok(None)
    }

    /// Gives a tree a track that is left to it: the one that it had last, or else the lowest.
    ///
    /// # Errors
    /// Where memory is short.
    pub fn give(&mut self, tree: u32) -> Result<Option<u32>, AllocError> {
        let was = self.tree(tree);
        let Some(track) = was.choice() else {
            return Ok(None);
        };
        let losses = self.losses.len();
        self.gifts.push(Gift {
            tree,
            track,
            losses,
        })?;
        let given = Some(track);
        self.set(
            tree,
            Tree {
                given,
                last: track,
                ..was
            },
        );
        Ok(given)
    }

    /// Takes a track from a tree that has none yet; whether none is left to it then.
    ///
    /// # Errors
    /// Where memory is short.
    pub fn take(&mut self, tree: u32, track: u32) -> Result<bool, AllocError> {
        let was = self.tree(tree);
        if was.given.is_some() || was.left & bit(track) == 0 {
            return Ok(false);
        }
        let left = was.left;
        self.losses.push(Loss { tree, left })?;
        self.keep(tree, !bit(track));
        if left == bit(track) {
            self.add_weight(tree, STUCK);
            return Ok(true);
        }
        self.wish(tree)?;
        Ok(false)
    }

    /// Goes back to the last gift in whose place another one can be; whether there is one.
    ///
    /// # Errors
    /// Where memory is short.
    pub fn go_back(&mut self) -> Result<bool, AllocError> {
        for _ in 0..self.gifts.len() {
            let Some(gift) = self.gifts.pop() else {
                return Ok(false);
            };
            self.undo(gift)?;
            if !self.take(gift.tree, gift.track)? {
                return Ok(true);
            }
        }
        Ok(false)
    }

    /// Takes all gifts back, so that all that was lost is there again, and no tree wants a track.
    ///
    /// # Errors
    /// Where memory is short.
    pub fn begin_anew(&mut self) -> Result<(), AllocError> {
        for _ in 0..self.gifts.len() {
            if let Some(gift) = self.gifts.pop() {
                self.undo(gift)?;
            }
        }
        self.give_back(0)?;
        self.wishes.clear();
        Ok(())
    }

    /// Takes a gift back, and with it what was lost since.
    fn undo(&mut self, gift: Gift) -> Result<(), AllocError> {
        self.give_back(gift.losses)?;
        let was = self.tree(gift.tree);
        self.set(gift.tree, Tree { given: None, ..was });
        Ok(())
    }

    /// Gives back what was lost, but for so many losses. A tree that had none left is more urgent
    /// than its wishes say.
    fn give_back(&mut self, losses: usize) -> Result<(), AllocError> {
        for _ in losses..self.losses.len() {
            if let Some(Loss { tree, left }) = self.losses.pop() {
                let was = self.tree(tree);
                self.set(tree, Tree { left, ..was });
                if was.left == 0 {
                    self.wish(tree)?;
                }
            }
        }
        Ok(())
    }

    /// The track that a tree has.
    pub fn given(&self, tree: u32) -> Option<u32> {
        self.tree(tree).given
    }
}

impl Tree {
    /// How urgent it is that the tree gets a track.
    fn urgency(self) -> u64 {
        let count = (self.left.count_ones() as u64).max(1);
        self.weight.saturating_mul(65_536) / count
    }

    /// Of the tracks that are left to the tree the one that it had last, or else the lowest.
    fn choice(self) -> Option<u32> {
        if self.left & bit(self.last) != 0 {
            return Some(self.last);
        }
        let lowest = self.left.trailing_zeros();
        if lowest < 64 { Some(lowest) } else { None }
    }
}

/// The bit of a track.
pub(crate) fn bit(track: u32) -> u64 {
    1 << (track % 64)
}

/// The bits of all tracks of a channel.
fn all_tracks(width: u32) -> u64 {
    let mut tracks = 0;
    for track in 0..width {
        tracks |= bit(track);
    }
    tracks
}
