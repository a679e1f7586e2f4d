// The first of some join dependencies that rows as they are read do not obey, with its first choice of rows. The rows of a choice agree in the columns that
// all sets share, so the relation is partitioned by them: where each part obeys the join dependency, the whole does. A part has few rows, and its tables stay
// in the cache. If some part does not obey, or there are no parts, the whole is searched.
#![tactic(auto)]

ghost use Rattle.std.specs.Prelude.{◌≡◌, true, List, ℕ, suc, ◌+◌, ◌-◌, ◌≤◌, ◌<◌, ◌++◌, length, map, take, drop, get_or};
ghost use Rattle.std.proofs.Math.Option.{none};
ghost use Rattle.query.specs.View.{join_of};
ghost use Rattle.query.specs.Rule.{no_join};
ghost use Rattle.theory.specs.Codes.{CodePair};
ghost use Rattle.codes.specs.internal.Codes.{codes_in};
ghost use Rattle.words.specs.Words.{spells_rows, database_read};
ghost use Rattle.join_lookup.specs.internal.Starts.{row_count, BeginsAt, Known};
ghost use Rattle.join_tables.specs.internal.Indexed.{Searchable};
ghost use Rattle.join_testing.specs.Unmet.{first_choice, first_unmet_from, unmet_of};
ghost use Rattle.join_testing.specs.internal.Search.{rows_chosen};
ghost use Rattle.join_parts.specs.internal.Parts.{SharedBy, Chained, PartOf, PartObeys};

use codes::pairs::Codes;
use join_lookup::Index;
use query::JoinDependency;
use words::Violation;

// A relation partitioned by the values in some columns, into as many parts as the index has buckets.
// Kept as it is: a part is a bucket of `tables` and not of `join_lookup`, by which the rows of one part would share a bucket of its tables.
#[derive(Clone, Copy)]
pub struct Partition {
    pub index: Index,
    pub columns: u8,
}

// The columns that all sets of a join dependency share.
fn shared(j: JoinDependency) -> u8
    requires { (j.count ≤ 4) × (length j.sets ≡ 4) × ((k : ℕ) → get_or j.sets k 0 < 256) }
    ensures { SharedBy j result }
{
    let mut columns: u8 = 255;
    for &set in &j.sets[..j.count as usize] {
        columns &= set;
    }
    columns
}

// Puts the row at `at` at the head of its part's chain, unless it is of another relation.
fn link_row(
    codes: &Codes,
    schema: &[u8],
    words: &[u32],
    x: Partition,
    at: usize,
    heads: &mut [u32],
    links: &mut [u32],
)
    requires words_value { (spells_rows schema.now words.now ≡ true) × Known schema.now x.index × (0 < x.index.buckets) }
    requires room { (x.index.buckets ≤ length heads.old) × (length words.now ≤ length links.old) × (length words.now < 4294967295) }
    requires by_index { (p : ℕ) × BeginsAt schema.now words.now at p }
    ensures heads_len_unchanged { length heads.new ≡ length heads.old }
    ensures links_len_unchanged { length links.new ≡ length links.old }
    ensures by_index_2 { (p : ℕ) → BeginsAt schema.now words.now at p → Chained (codes_in codes.now) schema.now words.now x p heads.old links.old
        → Chained (codes_in codes.now) schema.now words.now x (suc p) heads.new links.new }
{
    let index = x.index;
    if words[at] != index.relation {
        return;
    }
    let values = words::read_row(codes, words, index.width, at);
    let b = tables::bucket(x.columns as u32, values, index.width, index.buckets);
    links[at] = heads[b];
    heads[b] = at as u32 + 1;
}

// Links the rows of each part, from the last to the first: `heads` has a link for each part, to its last row, and `links` one for each row, to the row of its
// part before it, at the word at which the row begins. A link is 0, or one more than the word at which a row begins.
fn chain(
    codes: &Codes,
    schema: &[u8],
    words: &[u32],
    x: Partition,
    heads: &mut [u32],
    links: &mut [u32],
)
    requires words_value { (spells_rows schema.now words.now ≡ true) × Known schema.now x.index × (0 < x.index.buckets) }
    requires room { (x.index.buckets ≤ length heads.old) × (length words.now ≤ length links.old) × (length words.now < 4294967295) }
    ensures heads_len_unchanged { length heads.new ≡ length heads.old }
    ensures links_len_unchanged { length links.new ≡ length links.old }
    ensures chained { Chained (codes_in codes.now) schema.now words.now x (row_count schema.now words.now) heads.new links.new }
{
    heads.fill(0);
    for row in words::each_row(schema, words, words::FIRST) {
        link_row(codes, schema, words, x, row.at, heads, links);
    }
}

// Puts the n words from `at` on before word `end` of the buffer.
// Kept as it is: a loop, since the library's copy of a length that is not known calls `memmove`, which an archive for C would need from outside.
fn put(words: &[u32], at: usize, n: usize, end: usize, buffer: &mut [u32])
    requires { (at + n ≤ length words.now) × (n ≤ end) × (end ≤ length buffer.old) }
    ensures buffer_len_unchanged { length buffer.new ≡ length buffer.old }
    ensures put { drop (end - n) buffer.new ≡ take n (drop at words.now) ++ drop end buffer.old }
{
    let start = end - n;
    for i in 0..n {
        buffer[start + i] = words[at + i];
    }
}

// Copies the rows of part b, as they are written, to the end of the buffer, from the last to the first; they begin at the word that is returned.
fn gather(
    schema: &[u8],
    words: &[u32],
    x: Partition,
    b: usize,
    heads: &[u32],
    links: &[u32],
    buffer: &mut [u32],
) -> usize
    requires words_value { (spells_rows schema.now words.now ≡ true) × Known schema.now x.index × (b < x.index.buckets) }
    requires room { (x.index.buckets ≤ length heads.now) × (length words.now ≤ length links.now) × (length words.now ≤ length buffer.old) }
    requires chained { (pairs : List CodePair) × Chained pairs schema.now words.now x (row_count schema.now words.now) heads.now links.now }
    ensures result_bound { (result ≤ length buffer.new) × (length buffer.new ≡ length buffer.old) }
    ensures part { (pairs : List CodePair) → Chained pairs schema.now words.now x (row_count schema.now words.now) heads.now links.now
        → PartOf pairs schema.now words.now x b (drop result buffer.new) }
{
    let n = x.index.width + 1;
    let mut start = buffer.len();
    let mut link = heads[b];
    while link != 0 {
        let at = link as usize - 1;
        put(words, at, n, start, buffer);
        start -= n;
        link = links[at];
    }
    start
}

// Whether each part obeys the join dependency. A part for whose tables there is no room counts as one that does not.
fn each_obeys(
    codes: &Codes,
    schema: &[u8],
    words: &[u32],
    j: JoinDependency,
    x: Partition,
    first: &[u32],
    links: &[u32],
    buffer: &mut [u32],
    heads: &mut [u32],
    nodes: &mut [u32],
) -> bool
    requires searchable { Searchable schema.now words.now j × Known schema.now x.index }
    requires room { (x.index.buckets ≤ length first.now) × (length words.now ≤ length links.now) × (length words.now ≤ length buffer.old) }
    requires chained { Chained (codes_in codes.now) schema.now words.now x (row_count schema.now words.now) first.now links.now }
    ensures { result ≡ true → (b : ℕ) → b < x.index.buckets → PartObeys (codes_in codes.now) schema.now words.now j x b }
{
    for b in 0..x.index.buckets {
        let start = gather(schema, words, x, b, first, links, buffer);
        let part = &buffer[start..];
        // without tables its search would be slow
        if nodes.len() / 6 < part.len() {
            return false;
        }
        if join_testing::first_choice(codes, schema, part, j, heads, nodes).is_some() {
            return false;
        }
    }
    true
}

// Whether the rows obey the join dependency, part by part. No says nothing.
fn obeyed(
    codes: &Codes,
    schema: &[u8],
    words: &[u32],
    j: JoinDependency,
    heads: &mut [u32],
    nodes: &mut [u32],
) -> bool
    requires { Searchable schema.now words.now j }
    ensures { result ≡ true → first_choice schema.now (join_of j) (database_read (codes_in codes.now) schema.now words.now) ≡ none }
{
    let columns = shared(j);
    let relation = j.relation as u32;
    let width = schema[j.relation as usize] as usize;
    let n = words.len();
    // some 32 rows in a part, if all words are rows of the relation
    let buckets = n / (width + 1) / 32 + 1;
    // below 65,536 words the tables of the whole stay in the cache; a link is below 2^32
    if columns == 0 || n < 65536 || 4294967295 <= n || nodes.len() / 6 < n || heads.len() / 2 < n {
        return false;
    }
    let x = Partition {
        index: Index {
            relation,
            width,
            buckets,
        },
        columns,
    };
    let (first, heads) = heads.split_at_mut(buckets);
    let (links, rest) = nodes.split_at_mut(n);
    let (buffer, nodes) = rest.split_at_mut(n);
    chain(codes, schema, words, x, first, links);
    each_obeys(
        codes, schema, words, j, x, first, links, buffer, heads, nodes,
    )
}

// The first choice of rows for a join dependency that yields a row that is not there: their positions, 0 where there is no set.
fn first_choice(
    codes: &Codes,
    schema: &[u8],
    words: &[u32],
    j: JoinDependency,
    heads: &mut [u32],
    nodes: &mut [u32],
) -> Option<[usize; 4]>
    requires { Searchable schema.now words.now j }
    ensures { result ≡ rows_chosen (first_choice schema.now (join_of j) (database_read (codes_in codes.now) schema.now words.now)) }
{
    if obeyed(codes, schema, words, j, heads, nodes) {
        return None;
    }
    join_testing::first_choice(codes, schema, words, j, heads, nodes)
}

// The first of the held join dependencies that the rows do not obey, with its first choice of rows.
pub fn first_unmet(
    codes: &Codes,
    schema: &[u8],
    words: &[u32],
    joins: &[JoinDependency],
    heads: &mut [u32],
    nodes: &mut [u32],
) -> Option<Violation>
    requires { (k : ℕ) → k < length joins.now → Searchable schema.now words.now (get_or joins.now k no_join) }
    ensures { result ≡ unmet_of (first_unmet_from 0 schema.now (map join_of joins.now) (database_read (codes_in codes.now) schema.now words.now)) }
{
    for (k, &j) in joins.iter().enumerate() {
        let found = first_choice(codes, schema, words, j, heads, nodes);
        if let Some(rows) = found {
            return Some(Violation::Join {
                dependency: k,
                rows,
            });
        }
    }
    None
}
