// A stored query as a tableau, which has room for more rows, and back; and a tableau's cells as codes, in which rows are compared.
#![tactic(auto)]

ghost use Rattle.std.specs.Prelude.{◌≡◌, ◌++◌, ◌<◌, length, take, drop};
ghost use Rattle.tableaux.specs.internal.Tableaux.{with_room, tableau_of, stored_of};
ghost use Rattle.tableaux.specs.internal.Codes.{codes_of, same_on};

use query::{Cell, ConjunctiveQuery, Query, Tableau};

// Puts the first of some elements over others, as many as there is room for.
fn put_fitting<T: Copy>(out: &mut [T], xs: &[T])
    ensures { out.new ≡ take (length out.old) xs.now ++ drop (length xs.now) out.old }
{
    let n = usize::min(out.len(), xs.len());
    out[..n].copy_from_slice(&xs[..n]);
}

// A query with room for another number of rows.
fn with_room<const ROWS: usize, const CELLS: usize, const TO_ROWS: usize, const TO_CELLS: usize>(
    q: ConjunctiveQuery<ROWS, CELLS>,
) -> ConjunctiveQuery<TO_ROWS, TO_CELLS>
    ensures { result ≡ with_room ROWS CELLS TO_ROWS TO_CELLS q.entry }
{
    let mut out = ConjunctiveQuery::never(q.arity);
    out.size = q.size;
    out.head = q.head;
    put_fitting(&mut out.relations, &q.relations);
    put_fitting(&mut out.cells, &q.cells);
    out
}

// A stored query as a tableau.
// Kept as it is: `From` would have to stand in `query`, with `with_room` and its proof; and `to_query` cuts rows, so it is none.
pub fn from_query(q: Query) -> Tableau
    ensures { result ≡ tableau_of q }
{
    with_room(q)
}

// A tableau of at most 12 rows as a stored query.
pub fn to_query(t: Tableau) -> Query
    ensures { result ≡ stored_of t }
{
    with_room(t)
}

// The codes of cells.
// Kept as it is: a `for`, since the arrays' `map` asks that its iterator fits in memory, which is not known of every N; and for cells it takes eight times as
// many instructions.
pub fn codes_of<const N: usize>(cells: &[Cell; N]) -> [u32; N]
    ensures { result ≡ codes_of cells.now }
{
    let mut codes = [0u32; N];
    for (k, cell) in cells.iter().enumerate() {
        codes[k] = u32::from(cell.entry);
    }
    codes
}

// Whether two rows have the same codes in the columns of a set.
// Kept as it is: that a row is below 24 is a fact about a number, and a type of its own would be taken apart at each index.
pub fn same_on(codes: &[u32; 192], set: u8, i: usize, e: usize) -> bool
    requires { (i < 24) × (e < 24) }
    ensures { result ≡ same_on codes.now set i e }
{
    (0..8usize).all(|c| (set >> c) % 2 == 0 || codes[8 * i + c] == codes[8 * e + c])
}
