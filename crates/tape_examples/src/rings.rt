// Rings of three cells, of one and of none.
use checks::check_eq;
use ring::Ring;
use std::test::*;

#[test]
fn goes_round_the_end() -> Result<(), Fail> {
    let mut cells = [0u16; 3];
    let mut ring = Ring::new(&mut cells);
    check_eq(ring.push_back(1), Ok(()))?;
    check_eq(ring.push_back(2), Ok(()))?;
    check_eq(ring.push_back(3), Ok(()))?;
    check_eq(ring.push_back(9), Err(9))?;
    check_eq(ring.pop_front(), Some(1))?;
    check_eq(ring.push_back(4), Ok(()))?;
    check_eq(ring.front(), Some(2))?;
    check_eq(ring.len(), 3)?;
    check_eq(ring.pop_front(), Some(2))?;
    check_eq(ring.pop_front(), Some(3))?;
    check_eq(ring.pop_front(), Some(4))?;
    check_eq(ring.pop_front(), None)
}

#[test]
fn holds_all_cells() -> Result<(), Fail> {
    let mut cells = [7u16, 8];
    let mut ring = Ring::full(&mut cells);
    check_eq(ring.len(), 2)?;
    check_eq(ring.push_back(9), Err(9))?;
    check_eq(ring.pop_front(), Some(7))?;
    check_eq(ring.pop_front(), Some(8))?;
    check_eq(ring.front(), None)
}

#[test]
fn has_one_cell() -> Result<(), Fail> {
    let mut cells = [0u16; 1];
    let mut ring = Ring::new(&mut cells);
    check_eq(ring.push_back(5), Ok(()))?;
    check_eq(ring.push_back(6), Err(6))?;
    check_eq(ring.pop_front(), Some(5))?;
    check_eq(ring.push_back(6), Ok(()))?;
    check_eq(ring.pop_front(), Some(6))?;
    check_eq(ring.capacity(), 1)
}

#[test]
fn has_no_cell() -> Result<(), Fail> {
    let mut cells = [0u16; 0];
    let mut ring = Ring::full(&mut cells);
    check_eq(ring.capacity(), 0)?;
    check_eq(ring.len(), 0)?;
    check_eq(ring.push_back(5), Err(5))?;
    check_eq(ring.front(), None)?;
    check_eq(ring.pop_front(), None)
}
