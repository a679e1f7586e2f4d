// What the search is given: the candidates of each row, and which candidates of one row go together with a candidate of another. Rows 0 to size - 1
// are the source's rows, whose candidates are the target's rows; row `size` is its head, whose one candidate is the target's head.
// Kept as it is: that there are at most 12 rows is a fact about a number, as in `consistency`.
ghost use Rattle.std.specs.Prelude.{◌≡◌, true, ℕ, ◌+◌, ◌≤◌, ◌<◌, length};
ghost use Rattle.lists.specs.internal.Tells.{Tells};
ghost use Rattle.candidates.specs.internal.Candidates.{Marks, Repeats, row_start, image_start, candidates_of, Laid, IsFirstLike, Possible, IsDomain, IsTable};
ghost use Rattle.candidates.specs.internal.Sharing.{Once};

use crate::agree::{agrees, fixes, once, same_row};
use crate::cuts::cut_columns;
use crate::marks::marks_where;
use crate::shared::{share, shared_columns};

// Where the numbers of row r start: the head's after those of 12 rows.
pub fn row_at(size: usize, r: usize) -> usize
    requires { (size ≤ 12) × (r ≤ size) }
    ensures { (result ≡ row_start size r) × (result + 8 ≤ 104) }
{
    if r == size { 96 } else { 8 * r }
}

// Where the numbers of candidate d of row r start: the head's after those of 24 rows.
pub fn image_at(size: usize, r: usize, d: usize) -> usize
    requires { d < 24 }
    ensures { (result ≡ image_start size r d) × (result + 8 ≤ 200) }
{
    if r == size { 192 } else { 8 * d }
}

// How many candidates row r has, of a target with `count` rows.
pub fn candidates(size: usize, count: usize, r: usize) -> usize
    requires { count ≤ 24 }
    ensures { (result ≡ candidates_of size count r) × (result ≤ 24) }
{
    if r == size { 1 } else { count }
}

// The first row of the target that is the same as row d.
// Kept as it is: a chain would number the relations and test both, by the same two conditions.
pub fn first_like(target: &[u32], offered: [u8; 24], d: usize) -> usize
    requires { (length target.now ≡ 200) × (d < 24) }
    ensures { IsFirstLike target.now offered d result }
{
    for (e, &relation) in offered[..d].iter().enumerate() {
        if relation == offered[d] && same_row(target, 8 * e, 8 * d) {
            return e;
        }
    }
    d
}

// Whether row d of the target is the same as an earlier one.
pub fn repeats(target: &[u32], offered: [u8; 24], d: usize) -> bool
    requires { (length target.now ≡ 200) × (d < 24) }
    ensures { Tells result (Repeats target.now offered d) }
{
    first_like(target, offered, d) < d
}

// The rows of the target that are no repeats of earlier ones.
pub fn distinct(target: &[u32], offered: [u8; 24], count: usize) -> u32
    requires { (length target.now ≡ 200) × (count ≤ 24) }
    ensures { Marks count result (λ d. Repeats target.now offered d → ⊥) }
{
    marks_where(count, |d| !repeats(target, offered, d))
}

// Whether row r can go to candidate d at all: a row of the same relation, the first of its like, of which `fresh` are the numbers, with the row's constants
// in their places and one entry for each of its variables, as it has where no variable stands twice in the row, `plain`.
fn possible(
    source: &[u32],
    target: &[u32],
    named: [u8; 12],
    offered: [u8; 24],
    size: usize,
    count: usize,
    fresh: u32,
    plain: bool,
    r: usize,
    d: usize,
) -> bool
    requires laid { Laid source.now target.now size count × (r ≤ size) × (d < candidates_of size count r) }
    requires distinct { Marks count fresh (λ d. Repeats target.now offered d → ⊥) }
    requires once { plain ≡ true → Once source.now (row_start size r) }
    ensures { Tells result (Possible source.now target.now named offered size r d) }
{
    if r < size && (named[r] != offered[d] || (fresh >> d) % 2 == 0) {
        return false;
    }
    let row = row_at(size, r);
    let image = image_at(size, r, d);
    if !fixes(source, target, row, image) {
        return false;
    }
    plain || agrees(source, target, row, image, row, image)
}

// The candidates of row r, where `fresh` are the rows of the target that are no repeats.
fn domain(
    source: &[u32],
    target: &[u32],
    named: [u8; 12],
    offered: [u8; 24],
    size: usize,
    count: usize,
    fresh: u32,
    r: usize,
) -> u32
    requires laid { Laid source.now target.now size count × (r ≤ size) }
    requires distinct { Marks count fresh (λ d. Repeats target.now offered d → ⊥) }
    ensures { Marks (candidates_of size count r) result (Possible source.now target.now named offered size r) }
{
    let plain = once(source, row_at(size, r));
    marks_where(candidates(size, count, r), |d| {
        possible(
            source, target, named, offered, size, count, fresh, plain, r, d,
        )
    })
}

// The candidates of every row.
// Kept as it is: named and offered come whole beside size and count, which say how many rows of the codes are in use too: slices would say it twice.
pub fn domains(
    source: &[u32],
    target: &[u32],
    named: [u8; 12],
    offered: [u8; 24],
    size: usize,
    count: usize,
) -> [u32; 13]
    requires { Laid source.now target.now size count }
    ensures { IsDomain source.now target.now named offered size count result }
{
    let mut all = [0u32; 13];
    let fresh = distinct(target, offered, count);
    for (r, mask) in all[..size + 1].iter_mut().enumerate() {
        *mask = domain(source, target, named, offered, size, count, fresh, r);
    }
    all
}

// The whole table: from all candidates, those that meet in every two columns where rows share a variable.
// Kept as it is: it is written in its place: a result of 16 KB would be copied twice on its way.
pub fn table(table: &mut [u32; 4056], source: &[u32], target: &[u32], size: usize, count: usize)
    requires { Laid source.now target.now size count }
    ensures { IsTable source.now target.now size count table.new }
{
    table.fill(16777215);
    let columns = shared_columns(source);
    // Kept as it is: k is two columns' numbers and indexes nothing here.
    for k in 0..64 {
        let i = k / 8;
        let j = k % 8;
        if share(&columns, i, j) {
            cut_columns(table, source, target, size, count, i, j);
        }
    }
}
