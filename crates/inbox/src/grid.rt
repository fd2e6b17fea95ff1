ghost use Rattle.std.specs.Prelude.{◌≡◌, ◌/◌, ◌%◌, max, Some, IsTrue};
ghost use Rattle.inbox.specs.inside.Grids.{AreOfBlock, spot, spot_at, spot_for, spot_of};

// Ids that rise by one gap, such as those of a part whose graph has every id.
#[derive(Clone, Copy)]
pub struct Grid {
    first: u64,
    gap: u64,
}

// The number of an id's block, and its place among the 4,096 ids of that block. Both count from 0.
#[derive(Clone, Copy)]
pub struct Spot {
    pub block: usize,
    pub place: u16,
}

impl Grid {
    // Makes the grid of the first two ids.
    pub fn of(ids: &[u64]) -> Grid {
        match ids {
            [first, second, ..] => Grid {
                first: *first,
                gap: second.saturating_sub(*first),
            },
            [first] => Grid {
                first: *first,
                gap: 1,
            },
            [] => Grid { first: 0, gap: 1 },
        }
    }

    // Checks that the gap between any two consecutive ids is the grid's.
    pub fn is_even(self, ids: &[u64]) -> bool {
        for index in 1..ids.len() {
            if ids[index].wrapping_sub(ids[index - 1]) != self.gap {
                return false;
            }
        }
        true
    }

    // Returns the spot of the target, or `None` if the target is not in the grid. The grid has no last id.
    pub fn spot_for(self, target: i64) -> Option<Spot>
        ensures { result ≡ spot_for self target }
    {
        match u64::try_from(target) {
            Ok(target) => self.spot_of(target),
            Err(_) => None,
        }
    }

    fn spot_of(self, id: u64) -> Option<Spot>
        ensures { result ≡ spot_of self id }
    {
        if self.first <= id {
            self.spot_at(id - self.first)
        } else {
            None
        }
    }

    fn spot_at(self, far: u64) -> Option<Spot>
        ensures { result ≡ spot_at self far }
    {
        let (row, rest) = divided(far, self.gap);
        if rest == 0 {
            Some(Spot {
                block: (row / 4096) as usize,
                place: (row % 4096) as u16,
            })
        } else {
            None
        }
    }

    // Checks that these are the ids of the block of this number, from its first one on.
    pub fn has_in_order(self, number: usize, ids: &[u64]) -> bool
        ensures { IsTrue result → AreOfBlock self number ids.now }
    {
        for place in 0..ids.len() {
            if !self.has_at(number, place, ids[place]) {
                return false;
            }
        }
        true
    }

    fn has_at(self, number: usize, place: usize, id: u64) -> bool
        ensures { IsTrue result → spot_of self id ≡ Some (spot number place) }
    {
        match self.spot_of(id) {
            Some(spot) => spot.block == number && usize::from(spot.place) == place,
            None => false,
        }
    }
}

// Returns the quotient and the remainder. For small powers of two it avoids the division, which is slow.
fn divided(far: u64, gap: u64) -> (u64, u64)
    ensures quotient { result.0 ≡ far / max gap 1 }
    ensures rest { result.1 ≡ far % max gap 1 }
{
    match gap {
        1 => (far / 1, far % 1),
        2 => (far / 2, far % 2),
        4 => (far / 4, far % 4),
        8 => (far / 8, far % 8),
        16 => (far / 16, far % 16),
        _ => (far / gap.max(1), far % gap.max(1)),
    }
}
