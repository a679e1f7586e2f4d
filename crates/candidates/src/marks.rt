// Masks with bit e for number e.
ghost use Rattle.std.specs.Prelude.{ℕ, ◌<◌, ◌≤◌};
ghost use Rattle.candidates.specs.internal.Candidates.{Tested};

// The numbers below n that pass a test.
// Kept as it is: e is what the test is asked of, and goes through nothing. `liveness::columns_where` is this for 8 columns, in a crate that knows no mappings.
pub fn marks_where<F: Fn(usize) -> bool>(n: usize, test: F) -> u32
    requires few { n ≤ 24 }
    requires callable { (e : ℕ) → e < n → F.pre test e }
    ensures { Tested (F.post test) n result }
{
    let mut mask: u32 = 0;
    for e in (0..n).rev() {
        mask = mask * 2 + u32::from(test(e));
    }
    mask
}
