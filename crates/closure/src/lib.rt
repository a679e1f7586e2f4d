// The columns that a set of columns determines, on masks: the closure under the held dependencies.
#![tactic(auto)]

ghost use Rattle.std.specs.Prelude.{◌≡◌, true, map, ◌<◌, length};
ghost use Rattle.determination.specs.Determined.{adds};
ghost use Rattle.query.specs.View.{columns_of, dependency_of};
ghost use Rattle.closure.specs.internal.Closure.{next_mask, grow_mask, right_narrow};
ghost use Rattle.lists.specs.Tests.{every};

use query::Dependency;

// Whether a dependency adds its right column to the known columns of a relation.
fn adds_column(d: Dependency, relation: u8, mask: u8) -> bool
    requires { d.right < 8 }
    ensures { result ≡ adds relation (columns_of mask) (dependency_of d) }
{
    d.relation == relation && d.left & mask == d.left && (mask >> d.right) % 2 != 1
}

// The known columns with the right column of the first dependency that adds one.
fn next_columns(dependencies: &[Dependency], relation: u8, mask: u8) -> u8
    requires { every right_narrow dependencies.now ≡ true }
    ensures { result ≡ next_mask (map dependency_of dependencies.now) relation mask }
{
    for d in dependencies {
        if adds_column(*d, relation, mask) {
            return mask | (1 << d.right);
        }
    }
    mask
}

// The columns that a set of columns determines: each dependency adds at most once.
pub fn closed_columns(dependencies: &[Dependency], relation: u8, left: u8) -> u8
    requires { every right_narrow dependencies.now ≡ true }
    ensures { result ≡ grow_mask (length dependencies.now) (map dependency_of dependencies.now) relation left }
{
    let mut mask = left;
    // Kept as it is: so many looks, of which no number is used.
    for _ in 0..dependencies.len() {
        mask = next_columns(dependencies, relation, mask);
    }
    mask
}
