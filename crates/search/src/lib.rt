// The backtracking search for a choice of one candidate a row, any two of which go together.
//
// Conflict-directed backjumping over rows that are kept arc consistent (`consistency`): the row with the fewest candidates is
// placed next; a failure names rows to blame, and a row that is not among them hands the failure on at once. First one step of
// the search, then the two functions that call each other, and last the call for other crates. Rows, candidates, masks and the
// table are as in `consistency`.
#![tactic(auto)]

ghost use Rattle.std.specs.Prelude.{◌≡◌, true, IfSome, IsNone, ℕ, ◌<◌, ◌≤◌, get_or};
ghost use Rattle.consistency.specs.internal.Solution.{Solution, SameSolutions};
ghost use Rattle.consistency.specs.internal.Consistent.{Below};
ghost use Rattle.search.specs.internal.Invariant.{IsNext, IsCandidate, RowFits, TestSays, Attempted, Placeable, Tryable};

use consistency::{State, all_links, choose, settled, start};

// A row that is not placed, with its rank.
#[derive(Clone, Copy)]
struct Best {
    row: usize,
    rank: u32,
}

// How late a row is placed: the fewest candidates first, and of two with as many the one with more links.
fn rank(candidates: u32, links: u16) -> u32 {
    candidates.count_ones() * 32 + (16 - links.count_ones())
}

// The row to be placed next, or none where all are placed. Only links to rows that are not placed count.
fn next_row(links: &[u16; 13], rows: usize, state: State) -> Option<usize>
    requires { rows ≤ 13 }
    ensures { IsNext rows state.placed result }
{
    let mut best: Option<Best> = None;
    // Kept as it is: `filter` and `min_by_key` over the numbers, as fast, was tried: that none is left only where all are placed did not prove.
    for q in 0..rows {
        if (state.placed >> q) % 2 == 0 {
            let rank = rank(state.current[q], links[q] & !state.placed);
            if best.is_none_or(|other| rank < other.rank) {
                best = Some(Best { row: q, rank });
            }
        }
    }
    best.map(|best| best.row)
}

// The first candidate of the mask from c on. Those from 24 on are passed over.
fn next_candidate(mask: u32, c: usize) -> Option<usize>
    requires { c ≤ 24 }
    ensures { IsCandidate mask c result }
{
    let d = c + (mask >> c).trailing_zeros() as usize;
    if d < 24 { Some(d) } else { None }
}

// Whether row r has one of its candidates and goes together with every row. If not, the mask of rows whose choices are in no solution.
fn test_row(
    domain: &[u32; 13],
    table: &[u32; 4056],
    rows: usize,
    chosen: [u8; 13],
    r: usize,
) -> Result<(), u16>
    requires { (rows ≤ 13) × (r < rows) × Below chosen }
    ensures { TestSays rows domain.now table.now chosen (RowFits rows domain.now table.now chosen r) result }
{
    let d = chosen[r] as usize;
    if (domain[r] >> d) % 2 == 0 {
        return Err(1 << r);
    }
    // Kept as it is: the index serves the table and the choices.
    for q in 0..rows {
        if (table[(r * 24 + d) * 13 + q] >> chosen[q]) % 2 == 0 {
            return Err((1 << r) | (1 << q));
        }
    }
    Ok(())
}

// Whether the choices are a solution. If not, as above.
fn test_choices(
    domain: &[u32; 13],
    table: &[u32; 4056],
    rows: usize,
    chosen: [u8; 13],
) -> Result<(), u16>
    requires { (rows ≤ 13) × Below chosen }
    ensures { TestSays rows domain.now table.now chosen (Solution rows domain.now table.now (λ q. get_or chosen q 0)) result }
{
    // Kept as it is: r is a row's number and indexes nothing here, and `?` leaves the function.
    for r in 0..rows {
        test_row(domain, table, rows, chosen, r)?;
    }
    Ok(())
}

// Place the next row, or test the choices where all rows are placed: a solution, or a mask of rows to blame, such that no solution
// has what is chosen at the placed ones of them. (Where the table says the same both ways round, and each
// candidate goes together with itself, the test finds nothing.)
//
// The work left falls with each call, and a row takes at most 26 of it. Calls go at most 326 deep: for each of 13 rows one that
// places it and 24 that try a candidate, and the last. Compiled, placing takes 0.41 KB and trying 0.61 KB, so 196 KB of stack
// at the deepest, and 101 KB where there are at most 12 candidates.
// Kept as it is: domain, table, links and rows stay parameters: `next_row`, `test_choices` and `choose` take two or three of them, and `folding` searches
// with other domains beside the same table and links, so that a struct of the four would be made anew for each of its searches.
#[cycle(place_row_try_candidate)]
fn place_row(
    domain: &[u32; 13],
    table: &[u32; 4056],
    links: &[u16; 13],
    rows: usize,
    state: State,
    work: usize,
) -> Result<[u8; 13], u16>
    requires { Placeable rows domain.now table.now state work }
    ensures { Attempted rows domain.now table.now state result }
{
    let Some(row) = next_row(links, rows, state) else {
        test_choices(domain, table, rows, state.chosen)?;
        return Ok(state.chosen);
    };
    let blame = state.culprits[row];
    try_candidate(domain, table, links, rows, state, work - 1, row, 0, blame)
}

// Try the next candidate of the row, from c on. The placed rows of `blame` exclude each one before c and each that is not current.
#[cycle(place_row_try_candidate)]
fn try_candidate(
    domain: &[u32; 13],
    table: &[u32; 4056],
    links: &[u16; 13],
    rows: usize,
    state: State,
    work: usize,
    row: usize,
    c: usize,
    blame: u16,
) -> Result<[u8; 13], u16>
    requires { Tryable rows domain.now table.now state work row c blame }
    ensures { Attempted rows domain.now table.now state result }
{
    let Some(d) = next_candidate(state.current[row], c) else {
        return Err(blame);
    };
    let next = choose(links, table, rows, state, row, d);
    match place_row(domain, table, links, rows, next, work - 1) {
        Err(more) if (more >> row) % 2 == 1 => try_candidate(
            domain,
            table,
            links,
            rows,
            state,
            work - 1,
            row,
            d + 1,
            blame | more,
        ),
        outcome => outcome,
    }
}

// A solution, where there is one. Candidates from 24 on are passed over. Of the links nothing is asked: they say which rows are looked
// at when one loses candidates. Nor is anything of `gone`: candidates that rows may have lost since they were compared, as in `settled`.
pub fn solve_linked(
    domain: &[u32; 13],
    table: &[u32; 4056],
    links: &[u16; 13],
    rows: usize,
    gone: u32,
) -> Option<[u8; 13]>
    requires { rows ≤ 13 }
    ensures found { IfSome result (λ chosen. Solution rows domain.now table.now (λ r. get_or chosen r 0)) }
    ensures none { IsNone result → (f : ℕ → ℕ) → Solution rows domain.now table.now f → ⊥ }
{
    let state = settled(links, table, rows, start(domain), gone);
    place_row(domain, table, links, rows, state, 26 * rows + 1).ok()
}

// Whether the choices are a solution. They may not be one though the answer is no: of a no nothing is said.
pub fn solves(domain: &[u32; 13], table: &[u32; 4056], rows: usize, chosen: [u8; 13]) -> bool
    requires { (rows ≤ 13) × Below chosen }
    ensures { result ≡ true → Solution rows domain.now table.now (λ q. get_or chosen q 0) }
{
    test_choices(domain, table, rows, chosen).is_ok()
}

// The candidates that are left when the rows are compared with each other: the solutions are the same.
pub fn consistent(
    domain: &[u32; 13],
    table: &[u32; 4056],
    links: &[u16; 13],
    rows: usize,
) -> [u32; 13]
    requires { rows ≤ 13 }
    ensures { SameSolutions rows domain.now result table.now }
{
    let state = settled(links, table, rows, start(domain), u32::MAX);
    let mut all = *domain;
    for (r, mask) in all.iter_mut().enumerate() {
        *mask &= state.current[r];
    }
    all
}

// A solution, where there is one, with the links of the candidates.
pub fn solve(domain: &[u32; 13], table: &[u32; 4056], rows: usize) -> Option<[u8; 13]>
    requires { rows ≤ 13 }
    ensures found { IfSome result (λ chosen. Solution rows domain.now table.now (λ r. get_or chosen r 0)) }
    ensures none { IsNone result → (f : ℕ → ℕ) → Solution rows domain.now table.now f → ⊥ }
{
    let links = all_links(domain, table, rows);
    solve_linked(domain, table, &links, rows, u32::MAX)
}
