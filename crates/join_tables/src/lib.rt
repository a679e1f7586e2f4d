// The tables of a join dependency: one of all rows, by the columns of all sets, and one for each set, by the columns that sets before it have; of rows with the
// same values in the set it has only the first. `heads` has a word for each bucket of each of 5 tables, and `nodes` six for each word of the database: a link
// to the row before, and one for each table. Without room for them, or where a word's place is beyond 32 bits, there are no tables.
// Kept as it is: codes, schema, words, index and tables stay parameters, since `heads` and `nodes` are written: a struct like `Tables` of `join_testing`, which
// only reads, would hold two `&mut` slices.
#![tactic(auto)]

ghost use Rattle.std.specs.Prelude.{◌≡◌, true, ℕ, suc, ◌+◌, ◌*◌, ◌≤◌, ◌<◌, length, get_or};
ghost use Rattle.codes.specs.internal.Codes.{codes_in};
ghost use Rattle.words.specs.Words.{spells_rows};
ghost use Rattle.join_lookup.specs.internal.Starts.{BeginsAt, Known};
ghost use Rattle.join_lookup.specs.internal.Tables.{Table};
ghost use Rattle.join_tables.specs.internal.Filling.{Threaded, Beside, Roomy};
ghost use Rattle.join_tables.specs.internal.Indexed.{Searchable, Indexed};

use codes::pairs::Codes;
use join_lookup::Index;
use query::JoinDependency;

// Makes the chains of table t empty: `end` is the end of the words.
fn clear(heads: &mut [u32], t: usize, buckets: usize, end: u32)
    requires { (t < 5) × (5 * buckets ≤ length heads.old) }
    ensures heads_len_unchanged { length heads.new ≡ length heads.old }
    ensures by_index { (b : ℕ) → b < buckets → get_or heads.new (5 * b + t) 0 ≡ end }
    ensures by_index_2 { (b u : ℕ) → u < 5 → (u ≡ t → ⊥) → get_or heads.new (5 * b + u) 0 ≡ get_or heads.old (5 * b + u) 0 }
{
    // Kept as it is: a table's words stand 5 apart, and `step_by` and `take` over the rest of `heads` are no plainer.
    for b in 0..buckets {
        heads[5 * b + t] = end;
    }
}

// Links each row to the one before.
fn thread(schema: &[u8], words: &[u32], nodes: &mut [u32])
    requires { (spells_rows schema.now words.now ≡ true) × (6 * length words.now ≤ length nodes.old) × (length words.now < 4294967296) }
    ensures threaded { Threaded schema.now words.now nodes.new }
    ensures nodes_len_unchanged { length nodes.new ≡ length nodes.old }
{
    let mut rows = words::each_row(schema, words, words::FIRST);
    // Kept as it is: where the next row begins is asked of the iterator, which a `for` would keep to itself.
    while let Some(row) = rows.next() {
        nodes[6 * (rows.place.at - 1)] = row.at as u32;
    }
}

// Enters the row at `at` at the head of its bucket's chain in table t, by its values in some columns. If t is not 0, a row is passed by that has the values of
// an earlier row in the columns of a set.
fn enter_row(
    codes: &Codes,
    schema: &[u8],
    words: &[u32],
    x: Index,
    t: usize,
    columns: u8,
    set: u8,
    at: usize,
    heads: &mut [u32],
    nodes: &mut [u32],
)
    requires words_value { (spells_rows schema.now words.now ≡ true) × Known schema.now x × (t < 5) }
    requires roomy { Roomy words.now x heads.old nodes.old }
    requires by_index { (p : ℕ) × BeginsAt schema.now words.now at p }
    requires table { (t ≡ 0 → ⊥) → Table (codes_in codes.now) schema.now words.now x 0 set 0 0 heads.old nodes.old }
    ensures beside { Beside t heads.old nodes.old heads.new nodes.new }
    ensures by_index_2 { (p : ℕ) → BeginsAt schema.now words.now at p
        → Table (codes_in codes.now) schema.now words.now x t columns set (suc p) heads.old nodes.old
        → Table (codes_in codes.now) schema.now words.now x t columns set p heads.new nodes.new }
{
    if words[at] != x.relation {
        return;
    }
    let values = words::read_row(codes, words, x.width, at);
    let b = join_lookup::bucket(columns, values, x.width, x.buckets);
    let spot = 5 * b + t;
    if t != 0 {
        if join_lookup::find(codes, schema, words, x, set, values, heads, nodes) != at {
            nodes[6 * at + 1 + t] = heads[spot];
            return;
        }
    }
    nodes[6 * at + 1 + t] = heads[spot];
    heads[spot] = at as u32;
}

// Enters all rows into table t, from the last to the first.
fn enter(
    codes: &Codes,
    schema: &[u8],
    words: &[u32],
    x: Index,
    t: usize,
    columns: u8,
    set: u8,
    heads: &mut [u32],
    nodes: &mut [u32],
)
    requires words_value { (spells_rows schema.now words.now ≡ true) × Known schema.now x × (t < 5) }
    requires roomy { Roomy words.now x heads.old nodes.old × Threaded schema.now words.now nodes.old }
    requires table { (t ≡ 0 → ⊥) → Table (codes_in codes.now) schema.now words.now x 0 set 0 0 heads.old nodes.old }
    ensures beside { Beside t heads.old nodes.old heads.new nodes.new }
    ensures table_2 { Table (codes_in codes.now) schema.now words.now x t columns set 0 heads.new nodes.new }
{
    clear(heads, t, x.buckets, words.len() as u32);
    let mut at = words.len();
    // Kept as it is: an iterator over the links, from last to first, would be a struct more, with three clauses and their proofs, for this one loop.
    while at != 0 {
        at = nodes[6 * (at - 1)] as usize;
        enter_row(codes, schema, words, x, t, columns, set, at, heads, nodes);
    }
}

// Makes the table of set k, by the columns that it shares with the sets before. Table 0 then has all rows by the columns of the set.
fn enter_set(
    codes: &Codes,
    schema: &[u8],
    words: &[u32],
    x: Index,
    k: usize,
    set: u8,
    shared: u8,
    heads: &mut [u32],
    nodes: &mut [u32],
)
    requires words_value { (spells_rows schema.now words.now ≡ true) × Known schema.now x × (k < 4) }
    requires roomy { Roomy words.now x heads.old nodes.old × Threaded schema.now words.now nodes.old }
    ensures threaded { Threaded schema.now words.now nodes.new }
    ensures roomy_2 { Roomy words.now x heads.new nodes.new }
    ensures table { Table (codes_in codes.now) schema.now words.now x (k + 1) shared set 0 heads.new nodes.new }
    ensures by_index { (l columns mask : ℕ) → l < 4 → (l ≡ k → ⊥)
        → Table (codes_in codes.now) schema.now words.now x (l + 1) columns mask 0 heads.old nodes.old
        → Table (codes_in codes.now) schema.now words.now x (l + 1) columns mask 0 heads.new nodes.new }
{
    enter(codes, schema, words, x, 0, set, 0, heads, nodes);
    enter(codes, schema, words, x, k + 1, shared, set, heads, nodes);
}

// Makes the tables of a join dependency.
fn fill(
    codes: &Codes,
    schema: &[u8],
    words: &[u32],
    j: JoinDependency,
    x: Index,
    heads: &mut [u32],
    nodes: &mut [u32],
)
    requires searchable { Searchable schema.now words.now j × Known schema.now x × (x.relation ≡ j.relation) }
    requires roomy { Roomy words.now x heads.old nodes.old }
    ensures { Indexed (codes_in codes.now) schema.now words.now j x heads.new nodes.new }
{
    thread(schema, words, nodes);
    let count = j.count as usize;
    let mut filled: u8 = 0;
    for (k, &set) in j.sets[..count].iter().enumerate() {
        enter_set(codes, schema, words, x, k, set, set & filled, heads, nodes);
        filled |= set;
    }
    enter(codes, schema, words, x, 0, filled, 0, heads, nodes);
}

// The tables of a join dependency, if there is room for them.
pub fn build(
    codes: &Codes,
    schema: &[u8],
    words: &[u32],
    j: JoinDependency,
    heads: &mut [u32],
    nodes: &mut [u32],
) -> Index
    requires { Searchable schema.now words.now j }
    ensures { Indexed (codes_in codes.now) schema.now words.now j result heads.new nodes.new }
{
    let index = j.relation as usize;
    let relation = j.relation as u32;
    let width = schema[index] as usize;
    if heads.len() < 5 || nodes.len() / 6 < words.len() || 4294967295 < words.len() {
        return Index {
            relation,
            width,
            buckets: 0,
        };
    }
    // no more buckets than rows of the relation at most
    let rows = words.len() / (width + 1) + 1;
    let buckets = rows.min(heads.len() / 5);
    let x = Index {
        relation,
        width,
        buckets,
    };
    fill(codes, schema, words, j, x, heads, nodes);
    x
}
