// Mappings from a stored query: found by search to a tableau, and checked to a stored query. A query without rows has none.
#![tactic(auto)]

mod assign; // assign.rt: the images of the variables, from the images of the rows
mod carry; // carry.rt: whether given images carry entries, rows and a head
pub mod cells; // cells.rt: a query or a tableau in one line of cells

ghost use Rattle.mapping.specs.internal.Mapped.{Storable, StorableTableau, Finds, Checks};

use crate::assign::assign;
use crate::carry::{all_land, carries, rest_blank};
use crate::cells::flat;
use candidates::table::{domains, table};
use query::{Cell, Query, Tableau};
use tableaux::codes_of;

// The image of each variable under a mapping from a query to a tableau of the same arity, if there is one. Which one is free.
pub fn find(source: Query, target: Tableau) -> Option<[Cell; 96]>
    requires { Storable source × StorableTableau target }
    ensures { Finds source target result }
{
    let size = source.size as usize;
    let count = target.size as usize;
    if size == 0 {
        return None;
    }
    let line: [Cell; 104] = flat(&source.cells, &source.head);
    let cells: [Cell; 200] = flat(&target.cells, &target.head);
    let from = codes_of(&line);
    let to = codes_of(&cells);
    let domain = domains(&from, &to, source.relations, target.relations, size, count);
    let mut pairs = [0u32; 4056];
    table(&mut pairs, &from, &to, size, count);
    let chosen = search::solve(&domain, &pairs, size + 1)?;
    Some(assign(&from, &cells, size, chosen))
}

// Whether the images are a mapping from one query to another, as they stand. There is none from or to a query without rows.
pub fn check(source: Query, target: Query, images: [Cell; 96]) -> bool
    requires { Storable source × Storable target }
    ensures { Checks source target images result }
{
    let size = source.size as usize;
    let count = target.size as usize;
    if source.arity != target.arity || size == 0 {
        return false;
    }
    let from = flat(&source.cells, &source.head);
    let to = flat(&target.cells, &target.head);
    carries(&from, &to, &images, 96, 96)
        && all_land(
            &from,
            &to,
            &images,
            &source.relations[..size],
            &target.relations[..count],
        )
        && rest_blank(&from, &images)
}
