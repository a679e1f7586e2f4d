// Pairs of codes that are ready to read by.
ghost use Rattle.std.specs.Prelude.{◌≡◌, true, ◌≤◌, leb, take};
ghost use Rattle.lists.specs.Tests.{every};
ghost use Rattle.codes.specs.internal.Found.{led};

use query::CodePair;

// The first `count` pairs. firsts[n % 256] is a position before which no pair has the old code n, and `count` where none has it at all, so that most numbers are
// read at one look.
#[derive(Clone, Copy)]
pub struct Codes {
    pub count: usize,
    pub pairs: [CodePair; 16],
    pub firsts: [u8; 256],
    pub ghost sure: { (count ≤ 16) × (every (λ k. leb k count) firsts ≡ true) × (led firsts 0 (take count pairs) ≡ true) },
}
