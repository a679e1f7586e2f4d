// Groups of rows and their leaders, by hashing. A row's left values give it a bucket and a tag, two hashes. A group is the rows of a dependency's
// relation that have the same bucket and the same tag; its leader is its first row. Rows that agree on the left columns are in one group, so if two
// of them differ on the right column, one of them differs from the leader: no row before the first leader that a row of its group differs from is
// the first row of a broken pair. Rows of a group that do not agree are rare; they cost time and never a wrong answer.
// The leaders stand in lent slices, as hash chains: `heads` has a word for each bucket, and `nodes` four for each leader: its link, its position
// among the rows, its right value and its tag; so the words of a leader are not looked at again. A leader is written as its number plus 1, and 0 is
// the end of a chain. A row for which there is no room, or whose position is beyond 32 bits, is one that may be the first of a broken pair.
// If every row of the relation is a leader, the left columns are a key: no two rows agree on them.
#![tactic(auto)]

ghost use Rattle.std.specs.Prelude.{◌≡◌, true, ℕ, ◌+◌, ◌*◌, ◌^◌, ◌≤◌, ◌<◌, length, get_or, set};
ghost use Rattle.query.specs.View.{dependency_of};
ghost use Rattle.codes.specs.internal.Codes.{codes_in};
ghost use Rattle.words.specs.Words.{spells_rows, database_of};
ghost use Rattle.words.specs.internal.Rows.{span_read, Next};
ghost use Rattle.words.specs.internal.Found.{Testable};
ghost use Rattle.grouping.specs.internal.Chains.{Chained};
ghost use Rattle.grouping.specs.internal.Leaders.{link_of, sought_of, BesideSays, with_leader};
ghost use Rattle.grouping.specs.internal.Groups.{Key};
ghost use Rattle.grouping.specs.internal.Walked.{Located, Walked, end_at, Ends};

use codes::pairs::Codes;
use query::Dependency;
use words::Position;

// How a walk over the rows ends: at what it looks for, or with nothing, after all rows, whose left columns may have been seen to be distinct, a key.
#[derive(Clone, Copy)]
pub enum End<T> {
    Found(T),
    Nothing,
    Distinct,
}

// What a walk knows: how many leaders are entered, the position of the first row known that may be the first of a broken pair, and whether every row of
// the relation was entered.
// Kept as it is: an `End<usize>` in place of `least` and `key` would make of each `least.min(..)` a match on whether a row is known already.
#[derive(Clone, Copy)]
struct Walk {
    count: usize,
    least: usize,
    key: bool,
}

// A row that is compared with the leaders: its bucket and its tag, and its right value.
#[derive(Clone, Copy)]
struct Sought {
    bucket: usize,
    tag: u32,
    right: u32,
}

// A row beside the leader of its group: it has the leader's right value, or another, and then where the leader stands; or there is no such leader.
#[derive(Clone, Copy)]
enum Beside {
    Same,
    Differs(usize),
    Alone,
}

// What is compared of the row at `a`. Neighbouring values of one column are in neighbouring buckets, and are their own tags.
fn sought_of(
    codes: &Codes,
    words: &[u32],
    width: usize,
    d: Dependency,
    a: usize,
    buckets: usize,
) -> Sought
    requires width_in_bounds { a + 1 + width ≤ length words.now }
    requires width_bound { (width ≤ 8) × (d.left < 2 ^ width) × (d.right < width) × (0 < buckets) }
    ensures value { result ≡ sought_of buckets (dependency_of d) (span_read (codes_in codes.now) width words.now a) }
    ensures bucket_lt_buckets { result.bucket < buckets }
{
    let mut h: u64 = 0;
    let mut tag: u64 = 0;
    let mut left = d.left;
    let mut c: usize = 0;
    // Kept as it is: the loop takes the set apart as it goes; a `for` to the last column would ask `leading_zeros` for that, and shift at each.
    while left != 0 {
        if left % 2 == 1 {
            let x = words::value(codes, words, a, c) as u64;
            h = (h * 1000003 + x) % 4294967296;
            tag = (tag * 2654435761 + x) % 4294967296;
        }
        left = left / 2;
        c += 1;
    }
    let n = buckets as u64;
    Sought {
        bucket: ((h + h / n * 2654435761) % n) as usize,
        tag: tag as u32,
        right: words::value(codes, words, a, d.right as usize),
    }
}

// Compares a row with the leader of its group, if that is among the first `count` leaders.
fn compare(sought: Sought, heads: &[u32], nodes: &[u32], count: usize) -> Beside
    requires bucket_in_bounds { (sought.bucket < length heads.now) × (4 * count ≤ length nodes.now) }
    requires by_index { (key : ℕ → ℕ) × Chained key heads.now (link_of nodes.now) count }
    ensures { (key : ℕ → ℕ) → Chained key heads.now (link_of nodes.now) count → BesideSays key nodes.now count sought result }
{
    let bucket = sought.bucket;
    let mut node = heads[bucket] as usize;
    // Kept as it is: an iterator over a chain would be a struct more, with three clauses and their proofs, for this one loop.
    while node != 0 {
        let s = 4 * (node - 1);
        if nodes[s + 3] == sought.tag {
            if nodes[s + 2] == sought.right {
                return Beside::Same;
            }
            return Beside::Differs(nodes[s + 1] as usize);
        }
        node = nodes[s] as usize;
    }
    Beside::Alone
}

// Enters the row at position `number` as leader number `count`, at the head of the chain of its bucket.
fn enter(heads: &mut [u32], nodes: &mut [u32], count: usize, sought: Sought, number: usize)
    requires bucket_in_bounds { sought.bucket < length heads.old }
    requires count_in_bounds { (4 * count + 1 < length nodes.old) × (4 * count + 2 < length nodes.old) × (4 * count + 3 < length nodes.old) }
    requires count_bound { (count + 1 < 4294967296) × (number < 4294967296) }
    ensures heads_after { heads.new ≡ set heads.old sought.bucket (count + 1) }
    ensures nodes_after { nodes.new ≡ with_leader nodes.old count (get_or heads.old sought.bucket 0) number sought }
{
    let bucket = sought.bucket;
    let s = 4 * count;
    nodes[s] = heads[bucket];
    nodes[s + 1] = number as u32;
    nodes[s + 2] = sought.right;
    nodes[s + 3] = sought.tag;
    heads[bucket] = (count + 1) as u32;
}

// Passes the row `row`. If it is of the dependency's relation, it is compared with the leader of its group, or is a leader.
fn step(
    codes: &Codes,
    schema: &[u8],
    words: &[u32],
    d: Dependency,
    row: Position,
    walk: Walk,
    heads: &mut [u32],
    nodes: &mut [u32],
) -> Walk
    requires testable { Testable schema.now d }
    requires at_in_bounds { row.at < length words.now }
    requires walked { Walked (codes_in codes.now) schema.now words.now d row walk heads.old nodes.old }
    ensures { (after : ℕ) → Next schema.now words.now row.at after
        → Walked (codes_in codes.now) schema.now words.now d (record { at = after; number = row.number + 1 }) result heads.new nodes.new }
{
    let index = d.relation as usize;
    if words[row.at] as usize != index {
        return walk;
    }
    let width = schema[index] as usize;
    let sought = sought_of(codes, words, width, d, row.at, heads.len());
    match compare(sought, heads, nodes, walk.count) {
        Beside::Same => Walk { key: false, ..walk },
        Beside::Differs(p) => Walk {
            least: walk.least.min(p),
            key: false,
            ..walk
        },
        Beside::Alone => {
            if 4 <= nodes.len() - 4 * walk.count && row.number < 4294967295 {
                enter(heads, nodes, walk.count, sought, row.number);
                return Walk {
                    count: walk.count + 1,
                    ..walk
                };
            }
            Walk {
                least: walk.least.min(row.number),
                key: false,
                ..walk
            }
        }
    }
}

// The row at position `number`, if there are so many rows.
fn locate(schema: &[u8], words: &[u32], number: usize) -> Option<Position>
    requires { spells_rows schema.now words.now ≡ true }
    ensures { Located schema.now words.now number result }
{
    for row in words::each_row(schema, words, words::FIRST) {
        if row.number == number {
            return Some(row);
        }
    }
    None
}

// The end at a row, if there is one.
fn end_at(row: Option<Position>) -> End<Position>
    ensures { result ≡ end_at row }
{
    match row {
        Some(row) => End::Found(row),
        None => End::Nothing,
    }
}

// A row before which none is the first of a broken pair, if there is a broken pair. With room for all leaders it is, but for rows that share a bucket
// and a tag by chance, the first row of the first broken pair, and a key is seen; without a bucket it is the first row.
pub fn skip(
    codes: &Codes,
    schema: &[u8],
    words: &[u32],
    d: Dependency,
    heads: &mut [u32],
    nodes: &mut [u32],
) -> End<Position>
    requires testable { Testable schema.now d }
    requires words_value { spells_rows schema.now words.now ≡ true }
    ensures { Ends (codes_in codes.now) schema.now words.now d result }
{
    if heads.is_empty() {
        return end_at(words::each_row(schema, words, words::FIRST).next());
    }
    // no more buckets than rows of the relation at most: few stay in the caches
    let rows = words.len() / (schema[d.relation as usize] as usize + 1) + 1;
    let buckets = rows.min(heads.len());
    let used = &mut heads[..buckets];
    used.fill(0);
    let mut walk = Walk {
        count: 0,
        least: words.len(),
        key: true,
    };
    for row in words::each_row(schema, words, words::FIRST) {
        walk = step(codes, schema, words, d, row, walk, used, nodes);
    }
    if walk.key {
        return End::Distinct;
    }
    if walk.least == words.len() {
        return End::Nothing;
    }
    end_at(locate(schema, words, walk.least))
}
