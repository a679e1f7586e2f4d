// A table in the making, cut to the candidates that meet in two columns: that have one code there, where their rows share a variable.
// Kept as it is: source and target are slices, as in `agree`, and their lengths stand in `Laid` beside the counts, a clause that arrays would leave in each contract.
ghost use Rattle.std.specs.Prelude.{◌≡◌, ◌↔◌, ℕ, ◌+◌, ◌≤◌, ◌<◌, get_or, length};
ghost use Rattle.std.specs.Option.{ForSome};
ghost use Rattle.consistency.specs.internal.Solution.{Bit};
ghost use Rattle.candidates.specs.internal.Candidates.{Marks, row_start, image_start, candidates_of, Laid};
ghost use Rattle.candidates.specs.internal.Sharing.{Column, Meets, Alike, Cut, Joins};

use crate::marks::marks_where;
use crate::shared::{column, no_other_has, other_has};
use crate::table::{candidates, image_at, row_at};
use query::Entry;

// The candidates of row q that have the code `code` in column j.
fn with_code(target: &[u32], size: usize, count: usize, q: usize, j: usize, code: u32) -> u32
    requires { (length target.now ≡ 200) × (count ≤ 24) × (j < 8) }
    ensures { Marks (candidates_of size count q) result (λ e. get_or target.now (image_start size q e + j) 0 ≡ code) }
{
    marks_where(candidates(size, count, q), |e| {
        target[image_at(size, q, e) + j] == code
    })
}

// For each row of the target the rows that have in column j its code of column i.
fn alike(target: &[u32], count: usize, i: usize, j: usize) -> [u32; 24]
    requires { (length target.now ≡ 200) × (count ≤ 24) × (i < 8) × (j < 8) }
    ensures { Alike target.now count i j result }
{
    let mut all = [0u32; 24];
    for (d, mask) in all[..count].iter_mut().enumerate() {
        let code = target[8 * d + i];
        *mask = marks_where(count, |e| target[8 * e + j] == code);
    }
    all
}

// The masks of `alike`, made where rows r and q, neither of them the head, are the first to want them.
fn make_masks(
    masks: &mut Option<[u32; 24]>,
    target: &[u32],
    size: usize,
    count: usize,
    i: usize,
    j: usize,
    r: usize,
    q: usize,
)
    requires laid { (length target.now ≡ 200) × (count ≤ 24) × (i < 8) × (j < 8) }
    requires alike { ForSome masks.old (Alike target.now count i j) }
    ensures { ForSome masks.new (Alike target.now count i j) }
{
    if r < size && q < size && masks.is_none() {
        *masks = Some(alike(target, count, i, j));
    }
}

// The table cut to candidates of rows r and q that meet in columns i and j: as `masks` says of rows, and else looked up.
// Kept as it is: what it is given stays apart, here and below, as in `consistency`: each function reads others of them, and the codes and, where they are
// wanted, the masks are made once for all rows.
fn cut_pair(
    table: &mut [u32; 4056],
    target: &[u32],
    masks: &Option<[u32; 24]>,
    size: usize,
    count: usize,
    i: usize,
    j: usize,
    r: usize,
    q: usize,
)
    requires laid { (length target.now ≡ 200) × (size ≤ 12) × (count ≤ 24) × (i < 8) × (j < 8) × (r ≤ size) × (q ≤ size) }
    requires alike { ForSome masks.now (Alike target.now count i j) }
    ensures { Cut size count (λ r' d q' e. q' ≡ q → r' ≡ r → Meets target.now size i j r' d q' e) table.old table.new }
{
    if r < size && q < size {
        if let Some(masks) = masks {
            // Kept as it is: d is a candidate's number, and a mask's place is made of three numbers.
            for d in 0..count {
                table[(r * 24 + d) * 13 + q] &= masks[d];
            }
            return;
        }
    }
    // Kept as it is: a mask's place is made of three numbers, and so is the mask.
    for d in 0..candidates(size, count, r) {
        let code = target[image_at(size, r, d) + i];
        table[(r * 24 + d) * 13 + q] &= with_code(target, size, count, q, j, code);
    }
}

// The table cut to candidates of row r and of others that meet in columns i and j, where the two rows share a variable there. `codes` is column j.
fn cut_row(
    table: &mut [u32; 4056],
    source: &[u32],
    target: &[u32],
    codes: &[u32; 13],
    masks: &mut Option<[u32; 24]>,
    size: usize,
    count: usize,
    i: usize,
    j: usize,
    r: usize,
)
    requires laid { Laid source.now target.now size count × (i < 8) × (j < 8) × (r ≤ size) }
    requires column { Column source.now size j codes.now }
    requires alike { ForSome masks.old (Alike target.now count i j) }
    ensures cut { Cut size count (λ r' d q e. r' ≡ r → Joins source.now target.now size i j r' d q e) table.old table.new }
    ensures alike { ForSome masks.new (Alike target.now count i j) }
{
    let code = source[row_at(size, r) + i];
    let Entry::Variable(_) = Entry::from(code) else {
        return;
    };
    if no_other_has(codes, code, r) {
        return;
    }
    // Kept as it is: q is a row's number and indexes nothing here.
    for q in 0..size + 1 {
        if other_has(codes, code, r, q) {
            make_masks(masks, target, size, count, i, j, r, q);
            cut_pair(table, target, masks, size, count, i, j, r, q);
        }
    }
}

// The table cut to candidates that meet in columns i and j, where their rows share a variable there.
pub fn cut_columns(
    table: &mut [u32; 4056],
    source: &[u32],
    target: &[u32],
    size: usize,
    count: usize,
    i: usize,
    j: usize,
)
    requires { Laid source.now target.now size count × (i < 8) × (j < 8) }
    ensures { Cut size count (Joins source.now target.now size i j) table.old table.new }
{
    let codes = column(source, size, j);
    let mut masks = None;
    // Kept as it is: r is a row's number and indexes nothing here.
    for r in 0..size + 1 {
        cut_row(
            table, source, target, &codes, &mut masks, size, count, i, j, r,
        );
    }
}
