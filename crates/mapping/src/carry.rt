// Whether given images carry entries, rows and a head of a source to those of a target.
ghost use Rattle.std.specs.Prelude.{◌≡◌, ℕ, ◌+◌, ◌≤◌, ◌<◌, get_or, length};
ghost use Rattle.theory.specs.Query.{constant};
ghost use Rattle.theory.specs.Answer.{value_of};
ghost use Rattle.lists.specs.internal.Tells.{Tells};
ghost use Rattle.query.specs.View.{entry_of, images_of};
ghost use Rattle.mapping.specs.internal.Lines.{Carried, Lands, Stands, RestBlank};

use query::{Cell, Entry};

// An entry with each variable replaced by its image: a variable above 95 has constant 0.
pub fn image_of(images: &[Cell; 96], e: Entry) -> Entry
    ensures { entry_of result ≡ value_of constant (images_of images.now) (entry_of e) }
{
    match e {
        Entry::Constant(n) => Entry::Constant(n),
        Entry::Variable(v) => images
            .get(usize::from(v))
            .map_or(Entry::Constant(0), |c| c.entry),
    }
}

// Whether the images carry the 8 entries from `row` on to those from `image` on.
pub fn carries(
    source: &[Cell; 104],
    target: &[Cell; 104],
    images: &[Cell; 96],
    row: usize,
    image: usize,
) -> bool
    requires { (row + 8 ≤ 104) × (image + 8 ≤ 104) }
    ensures { Tells result (Carried source.now target.now images.now row image) }
{
    let from = &source[row..row + 8];
    let to = &target[image..image + 8];
    from.iter()
        .zip(to)
        .all(|(c, d)| image_of(images, c.entry) == d.entry)
}

// Whether the images carry row r, of relation `named`, to one of the target's rows, of the relations `offered`.
// Kept as it is: a chain would number the items and test each by the same condition.
pub fn lands(
    source: &[Cell; 104],
    target: &[Cell; 104],
    images: &[Cell; 96],
    named: u8,
    offered: &[u8],
    r: usize,
) -> bool
    requires { (length offered.now ≤ 12) × (r < 12) }
    ensures { Tells result (Lands source.now target.now images.now named offered.now r) }
{
    for (d, &relation) in offered.iter().enumerate() {
        if relation == named && carries(source, target, images, 8 * r, 8 * d) {
            return true;
        }
    }
    false
}

// Whether the images carry each of the source's rows, of the relations `named`, to one of the target's.
// Kept as it is: a chain would number the items and test each by the same condition.
pub fn all_land(
    source: &[Cell; 104],
    target: &[Cell; 104],
    images: &[Cell; 96],
    named: &[u8],
    offered: &[u8],
) -> bool
    requires { (length named.now ≤ 12) × (length offered.now ≤ 12) }
    ensures { Tells result ((r : ℕ) → r < length named.now → Lands source.now target.now images.now (get_or named.now r 0) offered.now r) }
{
    for (r, &relation) in named.iter().enumerate() {
        if !lands(source, target, images, relation, offered, r) {
            return false;
        }
    }
    true
}

// Whether variable v stands among the cells.
// Kept as it is: `cells_have` of `limits` and `stands` of `replacement` test the same, each for a clause in words of its own.
pub fn stands(cells: &[Cell; 104], v: u8) -> bool
    ensures { Tells result (Stands cells.now v) }
{
    cells.iter().any(|c| c.entry == Entry::Variable(v))
}

// Whether each variable that does not stand among the cells has constant 0 for its image.
// Kept as it is: a chain would number the items and test each by the same condition.
pub fn rest_blank(cells: &[Cell; 104], images: &[Cell; 96]) -> bool
    ensures { Tells result (RestBlank cells.now images.now) }
{
    for (v, image) in images.iter().enumerate() {
        if image.entry != Entry::Constant(0) && !stands(cells, v as u8) {
            return false;
        }
    }
    true
}
