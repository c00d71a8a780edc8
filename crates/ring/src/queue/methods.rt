// What a ring is made from, what it holds, and how a value enters and leaves it.
ghost use Rattle.std.specs.Prelude.{◌≡◌, ◌≤◌, length};
ghost use Rattle.std.specs.List.{slice_get};
ghost use Rattle.ring.specs.Queue.{items, places, Empty, Full, Pushes, Pops};

use super::Ring;

impl<'a, T: Copy> Ring<'a, T> {
    // An empty queue over the cells.
    pub fn new(cells: &'a mut [T]) -> Ring<'a, T>
        ensures { Empty cells.entry result }
    {
        Ring::over(cells, 0)
    }

    // A queue that holds what all the cells hold, the first cell at the front.
    pub fn full(cells: &'a mut [T]) -> Ring<'a, T>
        ensures { Full cells.entry result }
    {
        let count = cells.len();
        Ring::over(cells, count)
    }

    // How many values wait.
    pub fn len(&self) -> usize
        ensures count { result ≡ length (items self.now) }
        ensures bound { result ≤ places self.now }
    {
        self.count.min(self.cells.len())
    }

    // How many values there is room for, counting those that wait.
    pub fn capacity(&self) -> usize
        ensures { result ≡ places self.now }
    {
        self.cells.len()
    }

    // The value that would leave next.
    pub fn front(&self) -> Option<T>
        ensures { result ≡ slice_get (items self.now) 0 }
    {
        if self.len() == 0 {
            return None;
        }
        let at = self.front_cell();
        Some(self.cells[at])
    }

    // Puts x at the back; where every cell is taken, x comes back and nothing changed.
    pub fn push_back(&mut self, x: T) -> Result<(), T>
        ensures { Pushes self.old x result self.new }
    {
        let count = self.len();
        if count >= self.capacity() {
            return Err(x);
        }
        let head = self.front_cell();
        let at = self.back_cell();
        self.cells[at] = x;
        self.head = head;
        self.count = count + 1;
        Ok(())
    }

    // Takes the value at the front; `None`, and nothing changed, where none waits.
    pub fn pop_front(&mut self) -> Option<T>
        ensures { Pops self.old result self.new }
    {
        let x = self.front()?;
        let at = self.front_cell();
        let count = self.len();
        self.head = at + 1;
        self.count = count - 1;
        Some(x)
    }
}
