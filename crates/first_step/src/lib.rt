// The search for the next step of the chase of a tableau (SPECIFICATION, The chase): the first broken pair of rows.
// The widths of the relations play no part: where a row has no column its cell holds constant 0, as in every row of its relation.
#![tactic(auto)]

ghost use Rattle.std.specs.Prelude.{◌≡◌, true, List, map};
ghost use Rattle.query.specs.declared.Cell.{Cell};
ghost use Rattle.query.specs.View.{as_query, dependency_of};
ghost use Rattle.query.specs.Rule.{good_cell};
ghost use Rattle.lists.specs.Tests.{every};
ghost use Rattle.first_step.specs.internal.Wide.{row_in, wide_query, first_differing, next_step_of, good_next_step, Laid, Chasable};
ghost use Rattle.tableaux.specs.internal.Codes.{codes_of};
ghost use Rattle.theory.specs.Chase as chasing;

use query::{Dependency, Entry, Tableau};
use tableaux::{codes_of, same_on};

// Whether the rows at i and j break a dependency, of whose relation the first is: so is the second, they agree on every left column and differ on the right.
fn breaks(codes: &[u32; 192], relations: &[u8; 24], d: Dependency, i: usize, j: usize) -> bool
    requires { Laid relations.now d i j }
    ensures { (cells : List Cell) → every good_cell cells ≡ true → codes.now ≡ codes_of cells
        → result ≡ chasing.breaks (dependency_of d) (row_in relations.now cells i) (row_in relations.now cells j) }
{
    let right = d.right as usize;
    if relations[j] != d.relation {
        return false;
    }
    if codes[8 * i + right] == codes[8 * j + right] {
        return false;
    }
    same_on(codes, d.left, i, j)
}

// The first broken pair: by dependency in held order, then by the rows' positions i < j, by i and then j.
pub fn find_step(t: Tableau, dependencies: &[Dependency]) -> Option<(Entry, Entry)>
    requires { Chasable t dependencies.now }
    ensures { (next_step_of result ≡ first_differing (map dependency_of dependencies.now) (wide_query (as_query t)).rows) × (good_next_step result ≡ true) }
{
    let size = t.size as usize;
    let codes = codes_of(&t.cells);
    // Kept as it is: i and j are positions in `relations` and of eight codes or cells, and j goes on from i.
    'search: loop {
        for d in dependencies {
            let right = d.right as usize;
            for i in 0..size {
                if t.relations[i] == d.relation {
                    for j in i + 1..size {
                        if breaks(&codes, &t.relations, *d, i, j) {
                            break 'search Some((
                                t.cells[8 * i + right].entry,
                                t.cells[8 * j + right].entry,
                            ));
                        }
                    }
                }
            }
        }
        break 'search None;
    }
}
