// The order in which a search goes through the sets of a join dependency: the next is the one that has most columns of those before it. That an arrangement has
// the same sets is promised, and nothing of how good it is.
#![tactic(auto)]

ghost use Rattle.std.specs.Prelude.{◌≡◌, ◌≤◌, ◌<◌, length};
ghost use Rattle.join_order.specs.internal.Arranged.{Arranged};

use query::JoinDependency;

// The set from set i on that has most of the columns in a mask; the first of those that have as many. Only that it is one of them is promised.
fn closest(j: JoinDependency, i: usize, filled: u8) -> usize
    requires { (i < j.count) × (j.count ≤ 4) × (length j.sets ≡ 4) }
    ensures { (i ≤ result) × (result < j.count) }
{
    (i..j.count as usize)
        .rev()
        .max_by_key(|l| (j.sets[*l] & filled).count_ones())
        .unwrap_or(i)
}

// The sets from set `first` on in the order of the search: the next is the one that has most columns of those before it.
pub fn arrange(j: JoinDependency, first: usize, filled: u8) -> JoinDependency
    requires { (first ≤ j.count) × (j.count ≤ 4) × (length j.sets ≡ 4) }
    ensures { Arranged j result first }
{
    let mut arranged = j;
    let mut known = filled;
    // Kept as it is: the sets from i on are searched and set i is changed, so that i is no mere index.
    for i in first..j.count as usize {
        let l = closest(arranged, i, known);
        arranged.sets.swap(l, i);
        known |= arranged.sets[i];
    }
    arranged
}
