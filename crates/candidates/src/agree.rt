// Whether a choice of images is consistent: rows as codes of entries, 8 to a row.
ghost use Rattle.std.specs.Prelude.{◌≡◌, true, ◌+◌, ◌≤◌, length};
ghost use Rattle.lists.specs.internal.Tells.{Tells};
ghost use Rattle.candidates.specs.internal.Candidates.{Takes, Agrees, Fixes, SameRow};
ghost use Rattle.candidates.specs.internal.Sharing.{Once};

use query::Entry;

// Whether the row at q, with its image at e, takes the code `value` to `image` wherever it has it.
pub fn takes(source: &[u32], target: &[u32], value: u32, image: u32, q: usize, e: usize) -> bool
    requires { (q + 8 ≤ length source.now) × (e + 8 ≤ length target.now) }
    ensures { Tells result (Takes source.now target.now value image q e) }
{
    let row = &source[q..q + 8];
    let images = &target[e..e + 8];
    row.iter()
        .zip(images)
        .all(|(&code, &own)| code != value || own == image)
}

// Whether the rows at r and q, with their images at d and e, take each variable that they share to one entry.
pub fn agrees(source: &[u32], target: &[u32], r: usize, d: usize, q: usize, e: usize) -> bool
    requires { (r + 8 ≤ length source.now) × (d + 8 ≤ length target.now) × (q + 8 ≤ length source.now) × (e + 8 ≤ length target.now) }
    ensures { Tells result (Agrees source.now target.now r d q e) }
{
    let row = &source[r..r + 8];
    let images = &target[d..d + 8];
    row.iter().zip(images).all(|(&value, &image)| match Entry::from(value) {
        Entry::Constant(_) => true,
        Entry::Variable(_) => takes(source, target, value, image, q, e),
    })
}

// Whether no variable stands twice in the row at r. If so, each image of it takes each of its variables to one entry.
// Kept as it is: a chain would number the codes and test each by the same condition.
pub fn once(source: &[u32], r: usize) -> bool
    requires { r + 8 ≤ length source.now }
    ensures { result ≡ true → Once source.now r }
{
    for i in 0..8 {
        let code = source[r + i];
        let again = match Entry::from(code) {
            Entry::Constant(_) => false,
            Entry::Variable(_) => source[r..r + i].contains(&code),
        };
        if again {
            return false;
        }
    }
    true
}

// Whether the image at d has each constant of the row at r in its place.
// Kept as it is: all 8 are compared at once, with no test in between: a chain that ends early takes twice the instructions.
pub fn fixes(source: &[u32], target: &[u32], r: usize, d: usize) -> bool
    requires { (r + 8 ≤ length source.now) × (d + 8 ≤ length target.now) }
    ensures { Tells result (Fixes source.now target.now r d) }
{
    let mut all = true;
    for i in 0..8 {
        let value = source[r + i];
        all &= match Entry::from(value) {
            Entry::Constant(_) => target[d + i] == value,
            Entry::Variable(_) => true,
        };
    }
    all
}

// Whether the rows at a and b are the same.
pub fn same_row(target: &[u32], a: usize, b: usize) -> bool
    requires { (a + 8 ≤ length target.now) × (b + 8 ≤ length target.now) }
    ensures { Tells result (SameRow target.now a b) }
{
    target[a..a + 8] == target[b..b + 8]
}
