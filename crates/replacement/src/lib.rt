// What a step of the chase does with the two entries that it finds (SPECIFICATION, The chase): which of them survives, and the replacement of the other.
#![tactic(auto)]

ghost use Rattle.std.specs.Prelude.{◌≡◌, true, map, ◌*◌, ◌≤◌, drop};
ghost use Rattle.query.specs.View.{entry_of, as_query};
ghost use Rattle.query.specs.Rule.{blank_cell, good_entry};
ghost use Rattle.lists.specs.Tests.{every};
ghost use Rattle.replacement.specs.internal.Replacement.{stands_in, head_holds, resolution_of, substitute_cell, map_cells};
ghost use Rattle.replacement.specs.Keys as keys;
ghost use Rattle.theory.specs.Chase as chasing;

use query::{Cell, Entry, Tableau};

// A variable that goes, and the entry that takes its place.
#[derive(Clone, Copy)]
pub struct Replacement {
    pub variable: u8,
    pub entry: Entry,
}

// Whether variable v stands in some cells.
// Kept as it is: an entry taken apart by `match` is a form of the project's scope in the chase.
fn stands(cells: &[Cell], v: u8) -> bool
    ensures { result ≡ stands_in cells.now v }
{
    cells.iter().any(|cell| match cell.entry {
        Entry::Constant(_) => false,
        Entry::Variable(w) => v == w,
    })
}

// The key of an entry (SPECIFICATION, The chase), by the head of its query. Of entries within the limits, constants have the smallest keys, then come the
// variables in the head.
fn key(head: &[Cell], e: Entry) -> u32
    ensures { result ≡ keys.key (stands_in head.now) (entry_of e) }
{
    match e {
        Entry::Constant(n) => n,
        Entry::Variable(v) => {
            if stands(head, v) {
                2_147_483_648 + u32::from(v)
            } else {
                2_147_483_744 + u32::from(v)
            }
        }
    }
}

// The replacement that makes two different entries of a tableau equal, or none where they clash: the entry with the smaller key survives. Where the larger
// key is a constant's both entries are constants, and clash.
pub fn resolve(t: &Tableau, a: Entry, b: Entry) -> Option<Replacement>
    requires { (t.now.arity ≤ 8) × (good_entry a ≡ true) × (good_entry b ≡ true) }
    ensures { resolution_of result ≡ chasing.resolve (head_holds (as_query t.now)) (entry_of a) (entry_of b) }
{
    let head = &t.head[..usize::from(t.arity)];
    let (survivor, other) = if key(head, a) < key(head, b) {
        (a, b)
    } else {
        (b, a)
    };
    match other {
        Entry::Constant(_) => None,
        Entry::Variable(v) => Some(Replacement {
            variable: v,
            entry: survivor,
        }),
    }
}

// A cell after a replacement.
fn substitute(cell: Cell, replacement: Replacement) -> Cell
    ensures { result ≡ substitute_cell replacement.variable replacement.entry cell }
{
    match cell.entry {
        Entry::Constant(_) => cell,
        Entry::Variable(w) => {
            if w == replacement.variable {
                Cell {
                    entry: replacement.entry,
                }
            } else {
                cell
            }
        }
    }
}

// The same in each of some cells.
fn substitute_all(cells: &mut [Cell], replacement: Replacement)
    ensures { cells.new ≡ map (substitute_cell replacement.variable replacement.entry) cells.old }
{
    for cell in cells.iter_mut() {
        *cell = substitute(*cell, replacement);
    }
}

// The same in the head and in all rows. The cells that are not in use hold a constant, which stays.
pub fn replace(t: Tableau, replacement: Replacement) -> Tableau
    requires { (t.size ≤ 24) × (every blank_cell (drop (8 * t.size) t.cells) ≡ true) }
    ensures { as_query result ≡ map_cells (substitute_cell replacement.variable replacement.entry) (as_query t) }
{
    let mut head = t.head;
    let mut cells = t.cells;
    substitute_all(&mut head, replacement);
    substitute_all(&mut cells[..8 * usize::from(t.size)], replacement);
    Tableau { head, cells, ..t }
}
