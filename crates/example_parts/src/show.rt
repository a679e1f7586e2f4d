// How answers are written.
use query::{Cell, Entry};
use std::io;

// Writes the entry of a cell after a blank.
pub fn cell(rt: &impl Print, c: Cell) -> io::Result<()> {
    match c.entry {
        Entry::Constant(n) => print!(rt; " {n}"),
        Entry::Variable(v) => print!(rt; " v{v}"),
    }
}

// Writes the images of v0, v1, v2.
pub fn images(rt: &impl Print, cells: &[Cell; 96]) -> io::Result<()> {
    print!(rt; " images")?;
    for c in &cells[..3] {
        cell(rt, *c)?;
    }
    Ok(())
}
