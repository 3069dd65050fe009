// Cells at their edges: the ends of the ground, around zero, and outside.
use crate::printing::Shown;
use std::io;

pub(crate) fn cells_at_ends(rt: &impl Print) -> io::Result<()> {
    for (longitude, latitude) in [
        (-1_800_000_000, -900_000_000),
        (-1_799_999_999, -899_999_999),
        (1_799_999_999, 899_999_999),
        (1_800_000_000, 900_000_000),
        (-1_800_000_000, 900_000_000),
        (1_800_000_000, -900_000_000),
    ] {
        place(rt, longitude, latitude)?;
    }
    Ok(())
}

pub(crate) fn cells_around_zero(rt: &impl Print) -> io::Result<()> {
    for (longitude, latitude) in [(0, 0), (-1, 0), (1, 0), (0, -1), (0, 1), (-1, -1), (1, 1)] {
        place(rt, longitude, latitude)?;
    }
    Ok(())
}

pub(crate) fn cells_outside(rt: &impl Print) -> io::Result<()> {
    for (longitude, latitude) in [
        (-1_800_000_001, 0),
        (1_800_000_001, 0),
        (0, -900_000_001),
        (0, 900_000_001),
        (i32::MIN, 0),
        (i32::MAX, i32::MAX),
    ] {
        place(rt, longitude, latitude)?;
    }
    Ok(())
}

fn place(rt: &impl Print, longitude: i32, latitude: i32) -> io::Result<()> {
    print!(rt; "{longitude} {latitude}: ")?;
    match ground::cell(longitude, latitude) {
        Ok(p) => println!(rt; "{}", Shown(p)),
        Err(e) => println!(rt; "{e}"),
    }
}
