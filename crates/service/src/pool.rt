// The pool of waiting blocks, and the mark of each block.
ghost use Rattle.std.specs.Prelude.{◌≡◌, ◌+◌, ◌-◌, ◌≤◌, length};
ghost use Rattle.std.specs.List.{range_with_len};
ghost use Rattle.service.specs.Pool.{Released, marked, condemned_with};

use ring::Ring;

/// Whether a block may be given again.
#[derive(Clone, Copy, PartialEq, Eq, Debug)]
pub enum Mark {
    Sound,
    Condemned,
}

/// A mark for each block, in the caller's area.
#[derive(Drop)]
pub struct Marks<'a> {
    pub(crate) cells: &'a mut [Mark],
}

// A block that comes back joins the waiting at their back.
pub(crate) fn release(pool: &mut Ring<'_, u32>, back: Option<u32>)
    ensures { Released pool.old back pool.new }
{
    if let Some(b) = back {
        // There is a cell for each block, so the pool has room.
        let _ = pool.push_back(b);
    }
}

impl Marks<'_> {
    // A block that is lost is marked, and never given again.
    pub(crate) fn condemn(&mut self, lost: Option<u32>)
        ensures cells { self.new.cells.now ≡ marked lost self.old.cells.now }
        ensures area { self.new.cells.ghost_name ≡ self.old.cells.ghost_name }
    {
        if let Some(b) = lost {
            // An index, since a `get_mut` through the struct tells a proof nothing of the cells afterwards.
            let i = b as usize;
            if i < self.cells.len() {
                self.cells[i] = Mark::Condemned;
            }
        }
    }
}

// Numbers the cells in rising order.
pub(crate) fn number(cells: &mut [u32])
    requires { length cells.old ≤ 4096 }
    ensures { cells.new ≡ range_with_len 0 (length cells.old) }
{
    for (i, cell) in cells.iter_mut().enumerate() {
        *cell = i as u32;
    }
}

// The number of condemned blocks, once a block, if any, is lost.
pub(crate) fn count_lost(condemned: usize, lost: Option<u32>) -> usize
    ensures { result ≡ condemned_with lost condemned }
{
    match lost {
        Some(_) => condemned.saturating_add(1),
        None => condemned,
    }
}

// How many of all blocks are in none of three places.
pub(crate) fn others(all: usize, waiting: usize, out: usize, condemned: usize) -> usize
    ensures { result ≡ all - (waiting + out + condemned) }
{
    all.saturating_sub(waiting)
        .saturating_sub(out)
        .saturating_sub(condemned)
}
