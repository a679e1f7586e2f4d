// What a round of the chase with join dependencies does to a tableau after the functional chase (SPECIFICATION, The chase with join dependencies): repeated rows go, and the
// first row that a join dependency asks for and that is not there is added at the end.
#![tactic(auto)]

ghost use Rattle.std.specs.Prelude.{◌≡◌, true, List, map, ℕ, ◌*◌, ◌≤◌, ◌<◌, take, drop, get_or};
ghost use Rattle.query.specs.Rule.{good_tableau, good_join};
ghost use Rattle.lists.specs.Tests.{every};
ghost use Rattle.join_step.specs.internal.Step.{cell_of, with_row, distinct_to, Joinable, IsNext};

use join_search::{first_missing, is_first};
use query::{Cell, Entry, JoinDependency, Tableau};
use tableaux::codes_of;

// A row that is to be added: its relation, and its cells.
#[derive(Clone, Copy)]
pub struct NextRow {
    pub relation: u8,
    pub row: [Cell; 8],
}

// The cell of a code. One that is free is a column that the relation does not have.
fn cell_of(code: u32) -> Cell
    ensures { result ≡ cell_of code }
{
    if code == join_search::FREE {
        return query::NO_CELL;
    }
    Cell {
        entry: Entry::from(code),
    }
}

// The cells of the codes of a row.
fn cells_of(row: [u32; 8]) -> [Cell; 8]
    ensures { result ≡ map cell_of row }
{
    row.map(|code| cell_of(code))
}

// The first row that a choice of rows yields and that is not there, of the first join dependency in held order that has one.
pub fn next_row(t: Tableau, joins: &[JoinDependency]) -> Option<NextRow>
    requires { Joinable t joins.now }
    ensures { (schema : List ℕ) → ((i : ℕ) → get_or schema i 0 ≤ 8) → good_tableau schema t ≡ true → every (good_join schema) joins.now ≡ true
        → IsNext schema t joins.now result }
{
    let codes = codes_of(&t.cells);
    let size = t.size as usize;
    for j in joins {
        if let Some(row) = first_missing(&codes, &t.relations, size, *j) {
            return Some(NextRow {
                relation: j.relation,
                row: cells_of(row),
            });
        }
    }
    None
}

// The cells of row i.
// Kept as it is: `chains::padded` takes five instructions more for each row.
fn row_at(cells: [Cell; 192], i: usize) -> [Cell; 8]
    requires { i < 24 }
    ensures { result ≡ take 8 (drop (8 * i) cells) }
{
    let mut row = [query::NO_CELL; 8];
    row.copy_from_slice(&cells[8 * i..8 * i + 8]);
    row
}

// The tableau with one row more, at the end.
pub fn with_row(t: Tableau, relation: u8, row: [Cell; 8]) -> Tableau
    requires { t.size < 24 }
    ensures { result ≡ with_row t relation row }
{
    let size = t.size as usize;
    let mut relations = t.relations;
    let mut cells = t.cells;
    relations[size] = relation;
    cells[8 * size..8 * size + 8].copy_from_slice(&row);
    Tableau {
        size: t.size + 1,
        relations,
        cells,
        ..t
    }
}

// The tableau without repeated rows: of those that are the same the earliest stays.
pub fn without_repeats(t: Tableau) -> Tableau
    requires { t.size ≤ 24 }
    ensures { result ≡ distinct_to t t.size }
{
    let codes = codes_of(&t.cells);
    let size = t.size as usize;
    let mut kept = Tableau {
        size: 0,
        relations: [0; 24],
        cells: [query::NO_CELL; 192],
        ..t
    };
    for (i, &relation) in t.relations[..size].iter().enumerate() {
        if is_first(&codes, &t.relations, relation, 255, i) {
            kept = with_row(kept, relation, row_at(t.cells, i));
        }
    }
    kept
}
