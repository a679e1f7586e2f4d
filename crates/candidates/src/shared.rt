// The columns in which rows of a source share variables: rows as codes of entries, 8 to a row.
ghost use Rattle.std.specs.Prelude.{◌≡◌, ◌⊎◌, ℕ, ◌≤◌, ◌<◌, length, get_or};
ghost use Rattle.lists.specs.internal.Tells.{Tells};
ghost use Rattle.consistency.specs.internal.Solution.{Bit};
ghost use Rattle.candidates.specs.internal.Sharing.{Met, Column};

use crate::table::row_at;
use query::Entry;

// For each column the columns in which a variable of it stands earlier, as masks.
// Kept as it is: the remainder by 96 changes no variable of a query, which are below 96; a column that is marked by chance costs time alone.
pub fn shared_columns(source: &[u32]) -> [u8; 8]
    requires { length source.now ≡ 104 }
    ensures { Met source.now result }
{
    let mut columns = [0u8; 8];
    let mut seen = [0u8; 96];
    for (k, &code) in source.iter().enumerate() {
        let Entry::Variable(v) = Entry::from(code) else {
            continue;
        };
        let x = usize::from(v % 96);
        columns[k % 8] |= seen[x];
        seen[x] |= 1 << (k % 8);
    }
    columns
}

// Whether one of columns i and j is marked for the other.
pub fn share(columns: &[u8; 8], i: usize, j: usize) -> bool
    requires { (i < 8) × (j < 8) }
    ensures { Tells result (Bit (get_or columns.now i 0) j ⊎ Bit (get_or columns.now j 0) i) }
{
    (columns[i] >> j) % 2 == 1 || (columns[j] >> i) % 2 == 1
}

// The codes of column j.
pub fn column(source: &[u32], size: usize, j: usize) -> [u32; 13]
    requires { (length source.now ≡ 104) × (size ≤ 12) × (j < 8) }
    ensures { Column source.now size j result }
{
    let mut codes = [0u32; 13];
    for (q, code) in codes[..size + 1].iter_mut().enumerate() {
        *code = source[row_at(size, q) + j];
    }
    codes
}

// Whether row q is another than row r and has the code `code`, among the codes of a column.
pub fn other_has(codes: &[u32; 13], code: u32, r: usize, q: usize) -> bool
    requires { q < 13 }
    ensures { Tells result ((r ≡ q → ⊥) × (get_or codes.now q 0 ≡ code)) }
{
    r != q && codes[q] == code
}

// Whether no row but row r has the code `code`, among the codes of a column. No code of a variable is 0.
// Kept as it is: all 13 are compared at once, as in `agree::fixes`.
pub fn no_other_has(codes: &[u32; 13], code: u32, r: usize) -> bool
    requires { (r < 13) × (0 < code) }
    ensures { Tells result ((q : ℕ) → q < 13 → (r ≡ q → ⊥) → get_or codes.now q 0 ≡ code → ⊥) }
{
    let mut others = *codes;
    others[r] = 0;
    let mut none = true;
    for q in 0..13 {
        none &= others[q] != code;
    }
    none
}
