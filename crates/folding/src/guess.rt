// Guessing a mapping into fewer rows: row i goes to another row, and with it only what must. What is guessed is tested: nothing is asked of a guess.
ghost use Rattle.std.specs.Prelude.{IfSome, ℕ, ◌+◌, ◌≤◌, ◌<◌, get_or};
ghost use Rattle.consistency.specs.internal.Solution.{Solution};
ghost use Rattle.consistency.specs.internal.Consistent.{Below};

use candidates::table::first_like;
use search::solves;

// Each row as it stands, or the first that is the same: the first mapping of a query into those of its rows that repeat none.
pub fn originals(target: &[u32; 200], offered: [u8; 24], size: usize) -> [u8; 13]
    requires { size ≤ 12 }
{
    let mut all = [0u8; 13];
    for (d, e) in all[..size].iter_mut().enumerate() {
        *e = first_like(target, offered, d) as u8;
    }
    all
}

// Whether row q, if it moves, goes together with the rows that are left as they go.
fn keeps_pace(pairs: &[u32; 4056], size: usize, rest: u32, step: &[u8; 13], q: usize) -> bool
    requires { (size ≤ 12) × (q < size) }
{
    let e = usize::from(step[q].min(23));
    if e == q || (rest >> q) % 2 == 0 {
        return true;
    }
    let row = &pairs[(q * 24 + e) * 13..(q * 24 + e) * 13 + 13];
    row.iter().zip(step).enumerate().all(|(p, (&mask, &f))| (rest >> p) % 2 == 0
        || (mask >> f.min(23)) % 2 == 1)
}

// Where the rows that are left go if row i goes to row d: each stays where it can, and one that cannot goes to the first row that it can go to. None where
// that one can go nowhere or does not go together with the others, and where more than one would have to go: then the search is as quick.
fn moves(
    domain: &[u32; 13],
    pairs: &[u32; 4056],
    size: usize,
    rest: u32,
    i: usize,
    d: usize,
) -> Option<[u8; 13]>
    requires { (size ≤ 12) × (i < size) × (d < size) }
{
    let mut step = [0u8; 13];
    let mut moved = false;
    for (q, e) in step[..size].iter_mut().enumerate() {
        let open = domain[q] & pairs[(i * 24 + d) * 13 + q];
        if (rest >> q) % 2 == 0 {
            continue;
        }
        if (open >> q) % 2 == 1 {
            *e = q as u8;
            continue;
        }
        if open == 0 || moved {
            return None;
        }
        *e = open.trailing_zeros() as u8;
        moved = true;
    }
    step[i] = d as u8;
    if (0..size).all(|q| keeps_pace(pairs, size, rest, &step, q)) {
        Some(step)
    } else {
        None
    }
}

// The one choice after the other, as a choice. The head stays.
fn followed(fold: [u8; 13], step: [u8; 13], size: usize) -> [u8; 13]
    requires { size ≤ 12 }
    ensures { Below result }
{
    let mut all = [0u8; 13];
    for (q, e) in all[..size].iter_mut().enumerate() {
        *e = step[usize::from(fold[q]).min(12)].min(23);
    }
    all
}

// The choice that leaves each row where it is.
const STAYING: [u8; 13] = [0, 1, 2, 3, 4, 5, 6, 7, 8, 9, 10, 11, 12];

// A solution guessed from one into the rows that are left: that one, where no row goes to row i, or else row i goes elsewhere. None says nothing.
pub fn guess(
    domain: &[u32; 13],
    pairs: &[u32; 4056],
    size: usize,
    fold: [u8; 13],
    rest: u32,
    i: usize,
) -> Option<[u8; 13]>
    requires { (size ≤ 12) × (i < size) }
    ensures { IfSome result (λ chosen. Solution (size + 1) domain.now pairs.now (λ r. get_or chosen r 0)) }
{
    if fold[..size].iter().all(|&d| usize::from(d) != i) {
        let same = followed(fold, STAYING, size);
        if solves(domain, pairs, size + 1, same) {
            return Some(same);
        }
    }
    // Kept as it is: d is a row's number and a bit of the mask, and indexes nothing here.
    for d in 0..size {
        if (domain[i] >> d) % 2 == 1 {
            if let Some(step) = moves(domain, pairs, size, rest, i, d) {
                let next = followed(fold, step, size);
                if solves(domain, pairs, size + 1, next) {
                    return Some(next);
                }
            }
        }
    }
    None
}
