// Which cells the values of a ring stand in.
ghost use Rattle.std.specs.Prelude.{◌≡◌, ◌<◌, length};
ghost use Rattle.ring.specs.Queue.{items, places, start, back};

use super::Ring;

impl<'a, T: Copy> Ring<'a, T> {
    // A ring over the cells whose values stand in the first `count`.
    pub(super) fn over(cells: &'a mut [T], count: usize) -> Ring<'a, T>
        ensures { result ≡ record { cells = cells.entry; head = 0; count = count } }
    {
        Ring {
            cells,
            head: 0,
            count,
        }
    }

    // The cell of the front value, or where it would stand.
    pub(super) fn front_cell(&self) -> usize
        ensures { result ≡ start self.now.head (places self.now) }
    {
        if self.head < self.cells.len() {
            self.head
        } else {
            0
        }
    }

    // The cell behind the last value.
    pub(super) fn back_cell(&self) -> usize
        ensures cell { result ≡ back self.now }
        ensures within { length (items self.now) < places self.now → result < places self.now }
    {
        let head = self.front_cell();
        let count = self.len();
        let room = self.cells.len() - head;
        if count < room {
            head + count
        } else {
            count - room
        }
    }
}
