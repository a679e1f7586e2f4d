// Mappings of a stored query into some of its own rows (SPECIFICATION, Reduction): the rows without which it can be mapped into the others go, each tried
// once, from the last to the first. The candidates, the table and the links of the search are made once; a trial only leaves rows out. Masks have bit d for row d.
#![tactic(auto)]

mod guess; // guess.rt: guessing a mapping into fewer rows

ghost use Rattle.std.specs.Prelude.{◌≡◌, true, IfSome, IsNone, List, ℕ, ◌+◌, ◌^◌, ◌≤◌, ◌<◌, get_or};
ghost use Rattle.query.specs.Rule.{good_query};
ghost use Rattle.lists.specs.internal.Tells.{Tells};
ghost use Rattle.consistency.specs.internal.Solution.{Bit, Solution};
ghost use Rattle.candidates.specs.internal.Candidates.{Marks};
ghost use Rattle.mapping.specs.internal.Mapped.{Narrow};
ghost use Rattle.folding.specs.internal.Folding.{LeftBut, Among, Tried};
ghost use Rattle.folding.specs.internal.Kept.{Readable, IsKept};

use crate::guess::{guess, originals};
use candidates::marks::marks_where;
use candidates::table::{distinct, domains, table};
use consistency::all_links;
use mapping::cells::flat;
use query::{Cell, Query};
use search::{consistent, solve_linked};
use tableaux::codes_of;

// The rows that are left, and a mapping into them, as the row that each goes to.
// Kept as it is: the mapping is only a start for guesses, and is tested wherever it is used: nothing is said of it.
#[derive(Clone, Copy)]
struct Folding {
    left: u32,
    fold: [u8; 13],
}

// The candidates of each row that are left. The head keeps its own.
// Kept as it is: that there are at most 12 rows is a fact about a number, as in `consistency`.
fn among(domain: &[u32; 13], size: usize, left: u32) -> [u32; 13]
    requires { size ≤ 12 }
    ensures { Among domain.now size left result }
{
    let mut all = *domain;
    for mask in all[..size].iter_mut() {
        *mask &= left;
    }
    all
}

// A solution over candidates that are left, if there is one: guessed from another, or searched for.
// Kept as it is: domain, pairs, links and size stay parameters: `kept` alone makes them, the search takes them one by one, and the domain is another here.
fn folded(
    domain: &[u32; 13],
    pairs: &[u32; 4056],
    links: &[u16; 13],
    size: usize,
    fold: [u8; 13],
    rest: u32,
    i: usize,
) -> Option<[u8; 13]>
    requires { (size ≤ 12) × (i < size) }
    ensures some { IfSome result (λ chosen. Solution (size + 1) domain.now pairs.now (λ r. get_or chosen r 0)) }
    ensures none { IsNone result → (f : ℕ → ℕ) → Solution (size + 1) domain.now pairs.now f → ⊥ }
{
    if domain[i] == 0 {
        return None;
    }
    let guessed = guess(domain, pairs, size, fold, rest, i);
    if guessed.is_some() {
        return guessed;
    }
    solve_linked(domain, pairs, links, size + 1, 1 << i)
}

// Whether row d is left and is not row i.
fn stays(left: u32, i: usize, d: usize) -> bool
    requires { d < 12 }
    ensures { Tells result (LeftBut left i d) }
{
    if d == i {
        return false;
    }
    (left >> d) % 2 == 1
}

// The rows that are left, without row i.
fn without(left: u32, size: usize, i: usize) -> u32
    requires { size ≤ 12 }
    ensures { Marks size result (LeftBut left i) }
{
    marks_where(size, |d| stays(left, i, d))
}

// The state once row i is tried.
fn tried(
    domain: &[u32; 13],
    pairs: &[u32; 4056],
    links: &[u16; 13],
    size: usize,
    state: Folding,
    i: usize,
) -> Folding
    requires { (size ≤ 12) × (i < size) × (state.left < 2 ^ size) }
    ensures { Tried domain.now pairs.now size state.left i result.left }
{
    if (state.left >> i) % 2 == 0 {
        return state;
    }
    let rest = without(state.left, size, i);
    let narrowed = among(domain, size, rest);
    match folded(&narrowed, pairs, links, size, state.fold, rest, i) {
        Some(fold) => Folding { left: rest, fold },
        None => state,
    }
}

// The rows that are kept. Those that repeat earlier ones go at once, as they would in their turn.
pub fn kept(q: Query) -> u32
    requires { Readable q }
    ensures value { (schema : List ℕ) → Narrow schema → good_query schema q ≡ true → IsKept schema q result }
    ensures in_bounds { result < 2 ^ q.size }
{
    // Kept as it is: made first, since an array is blanked as the function begins too, and here that is once.
    let mut pairs = [0u32; 4056];
    let size = q.size as usize;
    let target = tableaux::from_query(q);
    let line: [Cell; 104] = flat(&q.cells, &q.head);
    let cells: [Cell; 200] = flat(&target.cells, &target.head);
    let from = codes_of(&line);
    let to = codes_of(&cells);
    let offered = target.relations;
    let domain = domains(&from, &to, q.relations, offered, size, size);
    table(&mut pairs, &from, &to, size, size);
    let links = all_links(&domain, &pairs, size + 1);
    let open = consistent(&domain, &pairs, &links, size + 1);
    let mut state = Folding {
        left: distinct(&to, offered, size),
        fold: originals(&to, offered, size),
    };
    // Kept as it is: i is a row's number and indexes nothing; a `fold` would have to say of its closure that the mask stays below 2 to the size.
    for i in (0..size).rev() {
        state = tried(&open, &pairs, &links, size, state, i);
    }
    state.left
}
