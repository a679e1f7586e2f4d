// Arc consistency of the rows of a search and their candidates: the candidates that each row has left, and the placed rows that
// removed the others. A candidate with which no candidate of some other row goes together is removed.
//
// There are at most 13 rows with at most 24 candidates each, by number. A mask has bit i for row or candidate i. Entry
// (r * 24 + d) * 13 + q of a table is the mask of the candidates of row q that go together with candidate d of row r.
// Kept as it is: that there are so few rows is a fact about a number, and a type of its own would be taken apart at each index.
#![tactic(auto)]

ghost use Rattle.std.specs.Prelude.{◌≡◌, IfSome, ◌<◌, ◌≤◌};
ghost use Rattle.consistency.specs.internal.Consistent.{NoBit, Below, Settles, Follows};
ghost use Rattle.consistency.specs.internal.Steps.{After, Supports, Apart};

// The rows of placed have the candidate that chosen says. Row q has the candidates of current[q] left, and the placed rows of
// culprits[q] removed the others.
// Kept as it is: three arrays by row, since `start` takes `current` whole from the domains, and the search hands `chosen` back whole.
#[derive(Clone, Copy)]
pub struct State {
    pub chosen: [u8; 13],
    pub placed: u16,
    pub current: [u32; 13],
    pub culprits: [u16; 13],
}

// The candidates that each row has lost since other rows were last compared with it, and the rows that have lost some. All ones
// where other rows were never compared with it.
// Kept as it is: nothing is said of it, since what it leaves out is only not looked at.
#[derive(Drop)]
struct Lost {
    rows: u16,
    candidates: [u32; 13],
}

// The candidates of each row that every candidate of row r goes together with.
// Kept as it is: domain, table, links, rows and state stay parameters here and below: each function reads others of them, and none all five.
fn common(domain: &[u32; 13], table: &[u32; 4056], r: usize) -> [u32; 13]
    requires { r < 13 }
{
    let mut all = *domain;
    let mut rest = domain[r] & 0xff_ffff;
    while rest != 0 {
        let d = rest.trailing_zeros() as usize;
        let start = (r * 24 + d) * 13;
        // Kept as it is: the index serves the table and the masks. A `zip` with a part of the table, which takes as long, would owe where the part ends.
        for q in 0..13 {
            all[q] &= table[start + q];
        }
        rest &= !(1 << d);
    }
    all
}

// The other rows that have candidates which some candidate of row r excludes.
fn links_of(domain: &[u32; 13], table: &[u32; 4056], rows: usize, r: usize) -> u16
    requires { (rows ≤ 13) × (r < rows) }
{
    let left = common(domain, table, r);
    let mut mask: u16 = 0;
    // Kept as it is: the index serves two arrays, and is a bit of the mask.
    for q in 0..rows {
        if left[q] != domain[q] {
            mask |= 1 << q;
        }
    }
    mask & !(1 << r)
}

// The links of each row.
pub fn all_links(domain: &[u32; 13], table: &[u32; 4056], rows: usize) -> [u16; 13]
    requires { rows ≤ 13 }
{
    let mut all = [0u16; 13];
    for (r, links) in all[..rows].iter_mut().enumerate() {
        *links = links_of(domain, table, rows, r);
    }
    all
}

// The state after the choice of candidate d for row r, and what rows have lost.
fn narrowed(table: &[u32; 4056], rows: usize, state: &mut State, r: usize, d: usize) -> Lost
    requires { (rows ≤ 13) × (r < rows) × (d < 24) }
    ensures { After rows table.now state.old state.new r d }
{
    let mut lost = Lost {
        rows: 0,
        candidates: [0u32; 13],
    };
    state.chosen[r] = d as u8;
    state.placed |= 1 << r;
    // Kept as it is: the index serves the table and three arrays, and is a bit of a mask.
    for q in 0..rows {
        let old = state.current[q];
        let left = old & table[(r * 24 + d) * 13 + q];
        if left != old {
            state.current[q] = left;
            state.culprits[q] |= 1 << r;
            lost.candidates[q] = old ^ left;
            lost.rows |= 1 << q;
        }
    }
    lost
}

// The candidates of row q that go together with some candidate of row p, of those in `own`.
// Kept as it is: a `while` that clears one bit a turn, here and in `alone`: a `for` of 24 turns, each of which tests for the end, makes
// `settle` take 13 percent more instructions (callgrind).
fn support(table: &[u32; 4056], own: u32, p: usize, q: usize) -> u32
    requires { (p < 13) × (q < 13) }
    ensures { Supports table.now own p q 24 result }
{
    let mut mask: u32 = 0;
    let mut rest = own & 0xff_ffff;
    while rest != 0 {
        let d = rest.trailing_zeros() as usize;
        mask |= table[(p * 24 + d) * 13 + q];
        rest &= !(1 << d);
    }
    mask
}

// Of the candidates `asked` of row q those that go together with no candidate of row p, whose candidates are `own`.
fn alone(table: &[u32; 4056], own: u32, p: usize, q: usize, asked: u32) -> u32
    requires { (p < 13) × (q < 13) }
    ensures { Apart table.now own p q result }
{
    let mut mask: u32 = 0;
    let mut rest = asked & 0xff_ffff;
    while rest != 0 {
        let e = rest.trailing_zeros() as usize;
        if table[(q * 24 + e) * 13 + p] & own == 0 {
            mask |= 1 << e;
        }
        rest &= !(1 << e);
    }
    mask
}

// Whether the mask has at most two members, by clearing the lowest twice.
fn has_few(mask: u32) -> bool {
    let rest = mask & mask.wrapping_sub(1);
    rest & rest.wrapping_sub(1) == 0
}

// Candidates of row q that go together with no candidate of row p, which has lost `gone` since they were compared with it. Only
// those that went together with one that is gone are asked, unless `gone` is all ones.
fn refused(table: &[u32; 4056], own: u32, gone: u32, p: usize, q: usize, old: u32) -> u32
    requires { (p < 13) × (q < 13) }
    ensures { Apart table.now own p q result }
{
    if gone == u32::MAX {
        old & !support(table, own, p, q)
    } else {
        alone(table, own, p, q, old & support(table, gone, p, q))
    }
}

// Row q, which has been compared with row p when that had the candidates `gone` too, loses those with which none of row p goes together.
fn revise(
    table: &[u32; 4056],
    rows: usize,
    state: &mut State,
    lost: &mut Lost,
    gone: u32,
    p: usize,
    q: usize,
)
    requires { (rows ≤ 13) × (p < rows) × (q < rows) }
    ensures { Settles rows table.now state.old state.new }
{
    let old = state.current[q];
    let out = refused(table, state.current[p], gone, p, q, old);
    if out == 0 {
        return;
    }
    state.current[q] = old ^ out;
    state.culprits[q] |= state.culprits[p];
    lost.candidates[q] |= out;
    lost.rows |= 1 << q;
}

// The rows linked to row p are compared with it, but for placed ones: what is left to other rows goes together with their choices.
// With few candidates left to row p, it is less work to look at those than at what it has lost.
fn spread(
    links: &[u16; 13],
    table: &[u32; 4056],
    rows: usize,
    state: &mut State,
    lost: &mut Lost,
    p: usize,
)
    requires { (rows ≤ 13) × (p < rows) }
    ensures { Settles rows table.now state.old state.new }
{
    let gone = if has_few(state.current[p]) {
        u32::MAX
    } else {
        lost.candidates[p]
    };
    lost.candidates[p] = 0;
    lost.rows &= !(1 << p);
    let mut near = links[p] & !state.placed;
    for _ in 0..13 {
        let Some(q) = first_row(near, rows) else {
            return;
        };
        near &= near.wrapping_sub(1);
        revise(table, rows, state, lost, gone, p, q);
    }
}

// The first row of the mask, or none.
fn first_row(mask: u16, rows: usize) -> Option<usize>
    ensures { IfSome result (λ p. p < rows) }
{
    let p = mask.trailing_zeros() as usize;
    if p < rows { Some(p) } else { None }
}

// The first row of the mask among those ahead, or else the first, or none.
fn next_turn(mask: u16, ahead: u16, rows: usize) -> Option<usize>
    ensures { IfSome result (λ p. p < rows) }
{
    let rest = mask & ahead;
    first_row(if rest == 0 { mask } else { rest }, rows)
}

// Rows are compared until none that is not placed has lost candidates, or one has none left. Each row's turn comes in order, over
// and over, so that what earlier rows have lost since its last one is looked at together. Each of 13 rows loses its candidates in
// at most 24 steps, so it has at most 25 turns.
fn settle(links: &[u16; 13], table: &[u32; 4056], rows: usize, state: &mut State, lost: &mut Lost)
    requires { rows ≤ 13 }
    ensures { Settles rows table.now state.old state.new }
{
    let mut ahead: u16 = 65535;
    // Kept as it is: so many turns at most, of which no number is used.
    'turns: for _ in 0..325 {
        let Some(p) = next_turn(lost.rows & !state.placed, ahead, rows) else {
            return;
        };
        ahead = 65534 << p;
        if state.current[p] == 0 {
            return;
        }
        spread(links, table, rows, state, lost, p);
    }
}

// The state in which all rows are compared with each other, as in `settle`, where each may have lost the candidates `gone` since it was: all ones where it
// never was.
pub fn settled(
    links: &[u16; 13],
    table: &[u32; 4056],
    rows: usize,
    state: State,
    gone: u32,
) -> State
    requires { rows ≤ 13 }
    ensures { Settles rows table.now state result }
{
    let mut next = state;
    let mut lost = Lost {
        rows: !(65535 << rows),
        candidates: [gone; 13],
    };
    settle(links, table, rows, &mut next, &mut lost);
    next
}

// The settled state after the choice of candidate d for row r.
pub fn choose(
    links: &[u16; 13],
    table: &[u32; 4056],
    rows: usize,
    state: State,
    r: usize,
    d: usize,
) -> State
    requires { (rows ≤ 13) × (r < rows) × (d < 24) × NoBit state.placed r }
    ensures { Follows rows table.now state result r d }
{
    let mut next = state;
    let mut lost = narrowed(table, rows, &mut next, r, d);
    settle(links, table, rows, &mut next, &mut lost);
    next
}

// The state in which no row is placed.
pub fn start(domain: &[u32; 13]) -> State
    ensures { (result.placed ≡ 0) × (result.current ≡ domain.now) × Below result.chosen }
{
    let current = *domain;
    State {
        chosen: [0u8; 13],
        placed: 0,
        current,
        culprits: [0u16; 13],
    }
}
