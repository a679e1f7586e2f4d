// The first of some dependencies that rows break as they are read, with its first pair of rows: one walk over the rows for each dependency, which skips to
// a row that may be the first of a pair. A dependency whose left columns contain a key that an earlier walk has seen is obeyed, and needs no walk.
// The lent slices hold tables of `grouping`: the larger they are, the fewer walks. What they hold before does not matter.
#![tactic(auto)]

ghost use Rattle.std.specs.Prelude.{ℕ, ◌≡◌, true, ◌+◌, ◌≤◌, ◌<◌, length, map, get_or};
ghost use Rattle.query.specs.View.{dependency_of};
ghost use Rattle.codes.specs.internal.Codes.{codes_in};
ghost use Rattle.words.specs.Words.{spells_rows, database_read};
ghost use Rattle.words.specs.Testing.{first_pair_from, first_broken_from};
ghost use Rattle.words.specs.Broken.{violation_of};
ghost use Rattle.words.specs.internal.Found.{pair_of, Testable};
ghost use Rattle.query.specs.Rule.{no_dependency};
ghost use Rattle.theory.specs.Database.{Database};
ghost use Rattle.grouping.specs.internal.Groups.{Key};
ghost use Rattle.testing.specs.internal.Keyed.{KeyIn, Keyed};
ghost use Rattle.testing.specs.internal.Tested.{Tested};

use codes::pairs::Codes;
use grouping::End;
use query::Dependency;
use words::{Position, Violation};

// Whether the left columns of a dependency contain those of one that was seen to be a key.
fn contains_key(seen: Option<Dependency>, d: Dependency) -> bool
    ensures { result ≡ true → (D : Database) → KeyIn D seen → Key (dependency_of d) D }
{
    match seen {
        Some(key) => key.relation == d.relation && key.left & d.left == key.left,
        None => false,
    }
}

// Whether the left columns of the dependency contain a key that was seen.
fn has_key(keys: &[Option<Dependency>], d: Dependency) -> bool
    ensures { result ≡ true → (D : Database) → Keyed D keys.now → Key (dependency_of d) D }
{
    keys.iter().any(|seen| contains_key(*seen, d))
}

// The first pair of rows that break the dependency, by their positions. That the left columns are distinct is seen only by a walk over all rows.
fn first_pair(
    codes: &Codes,
    schema: &[u8],
    words: &[u32],
    d: Dependency,
    heads: &mut [u32],
    nodes: &mut [u32],
) -> End<(usize, usize)>
    requires testable { Testable schema.now d }
    requires words_value { spells_rows schema.now words.now ≡ true }
    ensures { Tested (dependency_of d) (database_read (codes_in codes.now) schema.now words.now) result }
{
    let relation = d.relation as u32;
    let mut place = words::FIRST;
    // Kept as it is: a skip may pass many rows, and the next search is of the words from there on.
    while place.at < words.len() {
        let row = match grouping::skip(codes, schema, &words[place.at..], d, heads, nodes) {
            End::Found(row) => row,
            End::Nothing => return End::Nothing,
            End::Distinct => {
                return if place.at == 0 {
                    End::Distinct
                } else {
                    End::Nothing
                };
            }
        };
        let first = Position {
            at: place.at + row.at,
            number: place.number + row.number,
        };
        let after = Position {
            at: words::next(schema, words, first.at),
            number: first.number + 1,
        };
        if words[first.at] == relation {
            if let Some(second) = words::first_partner(codes, schema, words, d, first.at, after) {
                return End::Found((first.number, second));
            }
        }
        place = after;
    }
    End::Nothing
}

// The first of the held dependencies that the rows break, with its first pair of rows.
pub fn first_violation(
    codes: &Codes,
    schema: &[u8],
    words: &[u32],
    dependencies: &[Dependency],
    heads: &mut [u32],
    nodes: &mut [u32],
) -> Option<Violation>
    requires held_bound { length dependencies.now ≤ 32 }
    requires by_index { (k : ℕ) → k < length dependencies.now → Testable schema.now (get_or dependencies.now k no_dependency) }
    requires words_value { spells_rows schema.now words.now ≡ true }
    ensures { result ≡ violation_of (first_broken_from 0 (map dependency_of dependencies.now) (database_read (codes_in codes.now) schema.now words.now)) }
{
    // few rows need few buckets, which are cleared for each dependency
    let buckets = heads.len().min(words.len());
    let used = &mut heads[..buckets];
    let mut keys: [Option<Dependency>; 32] = [None; 32];
    for (k, &d) in dependencies.iter().enumerate() {
        if has_key(&keys, d) {
            continue;
        }
        match first_pair(codes, schema, words, d, used, nodes) {
            End::Found((first, second)) => {
                return Some(Violation::Functional {
                    dependency: k,
                    first,
                    second,
                });
            }
            End::Nothing => {}
            End::Distinct => keys[k] = Some(d),
        }
    }
    None
}
