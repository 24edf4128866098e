// How far something is played that is played one after another.
use std::num::wrapping_add_u32;

#[derive(Clone, Copy)]
pub(super) struct Progress<T> {
    // where it goes on
    pub at: T,
    pub played: u32,
    // how many of these differ
    pub differ: u32,
}

impl<T: Drop> Progress<T> {
    pub(super) fn new(at: T) -> Self {
        Progress {
            at,
            played: 0,
            differ: 0,
        }
    }

    // One more is played, which was as it must be, or not.
    pub(super) fn and(self, same: bool, at: T) -> Self {
        Progress {
            at,
            played: wrapping_add_u32(self.played, 1),
            differ: wrapping_add_u32(self.differ, u32::from(!same)),
        }
    }
}
