// The queue itself: a ring buffer over a lent slice of cells, since the service has no heap.
mod cells;
mod methods;

// The values stand in `count` cells from `head` on, and go on at the first cell after the last.
// A head past the cells stands for the first cell, and a count past them for all of them, so every state has a meaning.
#[derive(Drop)]
pub struct Ring<'a, T> {
    cells: &'a mut [T],
    head: usize,
    count: usize,
}
