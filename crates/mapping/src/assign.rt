// The images of a source's variables, from the images of its rows.
ghost use Rattle.std.specs.Prelude.{ℕ, ◌+◌, ◌≤◌, ◌<◌, get_or};
ghost use Rattle.mapping.specs.internal.Lines.{choice_of, RowAssigned, Assigned};

use candidates::table::{image_at, row_at};
use query::{Cell, Entry};

// The images with those of the variables of one row, whose codes start at `row`, from the cells that start at `image`.
pub fn assign_row(
    images: [Cell; 96],
    source: &[u32; 104],
    target: &[Cell; 200],
    row: usize,
    image: usize,
) -> [Cell; 96]
    requires { (row + 8 ≤ 104) × (image + 8 ≤ 200) × ((k : ℕ) → k < 104 → get_or source.now k 0 < 2147483744) }
    ensures { RowAssigned images source.now target.now row image 8 result }
{
    let mut out = images;
    // Kept as it is: a `for` over a `zip` of two slices was tried; its proof has two iterators in place of the index, and did not close.
    for i in 0..8 {
        let own = Entry::from(source[row + i]);
        match own {
            Entry::Constant(_) => {}
            Entry::Variable(v) => {
                out[v as usize] = target[image + i];
            }
        }
    }
    out
}

// The images that a choice of a candidate for each row gives.
pub fn assign(
    source: &[u32; 104],
    target: &[Cell; 200],
    size: usize,
    chosen: [u8; 13],
) -> [Cell; 96]
    requires { (size ≤ 12) × ((r : ℕ) → r ≤ size → get_or chosen r 0 < 24) × ((k : ℕ) → k < 104 → get_or source.now k 0 < 2147483744) }
    ensures { Assigned source.now target.now size (choice_of chosen) (size + 1) result }
{
    let mut images = [query::NO_CELL; 96];
    for (r, &d) in chosen[..size + 1].iter().enumerate() {
        let image = image_at(size, r, usize::from(d));
        let next = assign_row(images, source, target, row_at(size, r), image);
        images = next;
    }
    images
}
