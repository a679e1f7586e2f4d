// The search for the row that a join dependency asks for (SPECIFICATION, The chase with join dependencies): over rows as codes of entries, 8 to a row, of which size are in use.
// What is chosen so far is one code for each column, or `FREE` where no set has the column yet. A column that a row's relation does not have
// stands in no set.
// Kept as it is: `size` ends the rows of both arrays, and `firsts` looks at all 24 of each, so that no slice of one of them stands for it.
#![tactic(auto)]

ghost use Rattle.std.specs.Prelude.{◌≡◌, true, ◌+◌, ◌*◌, ◌≤◌, ◌<◌, take, drop};
ghost use Rattle.join_search.specs.internal.Search.{goes, choose, some_goes, all_go, is_first, extend_of, found_of, free_row};
ghost use Rattle.join_search.specs.internal.Search.{Spare, Extendable};

use query::JoinDependency;
use tableaux::same_on;

// No entry has this code.
// Kept as it is: a number among codes, so that a column takes one word and one comparison; an Option of a code would take two.
pub const FREE: u32 = u32::MAX;

// Whether row i has what is chosen in the columns of a set.
// Kept as it is: that a row is below 24 is a fact about a number, and a type of its own would be taken apart at each index.
fn goes(codes: &[u32; 192], set: u8, chosen: [u32; 8], i: usize) -> bool
    requires { i < 24 }
    ensures { result ≡ goes codes.now set chosen i }
{
    (0..8usize).all(|c| {
        (set >> c) % 2 == 0 || chosen[c] == FREE || chosen[c] == codes[8 * i + c]
    })
}

// What is chosen with the columns of a set from row i.
fn choose(codes: &[u32; 192], set: u8, chosen: [u32; 8], i: usize) -> [u32; 8]
    requires { i < 24 }
    ensures { result ≡ choose codes.now set chosen i }
{
    let mut next = chosen;
    // Kept as it is: c is a bit of the set, a place in `next` and a place in row i.
    for c in 0..8usize {
        if (set >> c) % 2 == 1 {
            next[c] = codes[8 * i + c];
        }
    }
    next
}

// Whether some row of the relation has what is chosen in the columns of a set.
fn some_goes(
    codes: &[u32; 192],
    relations: &[u8; 24],
    size: usize,
    relation: u8,
    set: u8,
    chosen: [u32; 8],
) -> bool
    requires { size ≤ 24 }
    ensures { result ≡ some_goes codes.now relations.now size relation set chosen }
{
    (0..size).any(|i| relations[i] == relation && goes(codes, set, chosen, i))
}

// Whether each set from k on has a row that goes with what is chosen.
fn all_go(
    codes: &[u32; 192],
    relations: &[u8; 24],
    size: usize,
    j: JoinDependency,
    k: usize,
    chosen: [u32; 8],
) -> bool
    requires { (size ≤ 24) × (j.count ≤ 4) }
    ensures { result ≡ all_go codes.now relations.now size j.relation (drop k (take j.count j.sets)) chosen }
{
    let sets = j.sets;
    let count = j.count as usize;
    (k..count).all(|m| some_goes(codes, relations, size, j.relation, sets[m], chosen))
}

// Whether row i is of the relation, and no earlier row of the relation has the same codes in the columns of a set.
pub fn is_first(codes: &[u32; 192], relations: &[u8; 24], relation: u8, set: u8, i: usize) -> bool
    requires { i < 24 }
    ensures { result ≡ is_first codes.now relations.now relation set i }
{
    relations[i] == relation
        && !(0..i).any(|e| relations[e] == relation && same_on(codes, set, i, e))
}

// Which rows are to be tried for each set: at t whether row t % 24 is for set t / 24.
fn firsts(codes: &[u32; 192], relations: &[u8; 24], j: JoinDependency) -> [bool; 96]
    ensures { Spare codes.now relations.now j result }
{
    // Kept as it is: of `array::from_fn` the clauses do not say that each call finds what the closure captured, so its proof does not close.
    let mut tried = [false; 96];
    for (t, tried) in tried.iter_mut().enumerate() {
        *tried = is_first(codes, relations, j.relation, j.sets[t / 24], t % 24);
    }
    tried
}

// The first row that a choice for the sets from k on yields with what is chosen, and that is not there.
fn extend(
    codes: &[u32; 192],
    relations: &[u8; 24],
    size: usize,
    j: JoinDependency,
    tried: &[bool; 96],
    k: usize,
    chosen: [u32; 8],
) -> Option<[u32; 8]>
    requires { Extendable codes.now relations.now size j tried.now k }
    ensures { found_of result ≡ extend_of codes.now relations.now size j.relation (drop k (take j.count j.sets)) chosen }
{
    let count = j.count as usize;
    if k == count {
        return if some_goes(codes, relations, size, j.relation, 255, chosen) {
            None
        } else {
            Some(chosen)
        };
    }
    let sets = j.sets;
    let set = sets[k];
    if all_go(codes, relations, size, j, k, chosen) {
        // Kept as it is: a cycle of calls gets no proof where it goes through a closure, as `find_map` would have it.
        for i in 0..size {
            if tried[24 * k + i] {
                if goes(codes, set, chosen, i) {
                    let next = choose(codes, set, chosen, i);
                    let missing = extend(codes, relations, size, j, tried, k + 1, next);
                    if let Some(row) = missing {
                        return Some(row);
                    }
                }
            }
        }
    }
    None
}

// The codes of the first row that a choice of rows yields and that is not there. A column that its relation does not have is `FREE`.
pub fn first_missing(
    codes: &[u32; 192],
    relations: &[u8; 24],
    size: usize,
    j: JoinDependency,
) -> Option<[u32; 8]>
    requires { (size ≤ 24) × (j.count ≤ 4) }
    ensures { found_of result ≡ extend_of codes.now relations.now size j.relation (take j.count j.sets) free_row }
{
    let tried = firsts(codes, relations, j);
    extend(codes, relations, size, j, &tried, 0, [FREE; 8])
}
