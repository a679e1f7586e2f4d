// Rows of a relation, looked up by their values in some columns as they are read: in tables, which are hash chains in lent slices, or, without tables, in the
// words of the database: slower, and never wrong. Table 0 has all rows, by the columns of some set; table k + 1 those for set k of a join dependency, by
// columns that sets before it have, and of rows with the same values in the set only the first. Chains go from earlier to later rows.
#![tactic(auto)]

ghost use Rattle.std.specs.Prelude.{◌≡◌, true, false, List, ℕ, suc, ◌+◌, ◌*◌, ◌/◌, ◌%◌, ◌^◌, ◌≤◌, ◌<◌, length, take, get_or};
ghost use Rattle.theory.specs.Codes.{CodePair, read_code};
ghost use Rattle.codes.specs.internal.Codes.{codes_in};
ghost use Rattle.words.specs.Words.{spells_rows};
ghost use Rattle.join_lookup.specs.internal.Starts.{start_of, row_count, BeginsAt, Has, Known};
ghost use Rattle.join_lookup.specs.internal.Tables.{bucket_of, Room, Tabled, Reaches, FirstWith};

use codes::pairs::Codes;

// The relation whose rows are in the tables, its width, and the number of buckets; 0 where there are no tables.
// Kept as it is: that an index is one for some words, and that a row begins at a word, are facts of these words, which are lent at each call.
// Kept as it is: `start` and `following` ask for 0 buckets in one comparison; an Option would be taken apart at the same two places.
#[derive(Clone, Copy)]
pub struct Index {
    pub relation: u32,
    pub width: usize,
    pub buckets: usize,
}

// Whether the row at `at` is of the relation and has the given values in the columns of a set.
pub fn has(
    codes: &Codes,
    schema: &[u8],
    words: &[u32],
    x: Index,
    at: usize,
    columns: u8,
    values: [u32; 8],
) -> bool
    requires words_value { (spells_rows schema.now words.now ≡ true) × Known schema.now x }
    requires by_index { (p : ℕ) × BeginsAt schema.now words.now at p }
    ensures by_index_2 { (p : ℕ) → BeginsAt schema.now words.now at p → result ≡ true
        → Has (codes_in codes.now) schema.now words.now x columns values p }
    ensures by_index_3 { (p : ℕ) → BeginsAt schema.now words.now at p → result ≡ false
        → Has (codes_in codes.now) schema.now words.now x columns values p → ⊥ }
{
    words[at] == x.relation
        && (0..x.width).all(|c| {
            !words::has_column(columns, c) || words::value(codes, words, at, c) == values[c]
        })
}

// The bucket of some values in the columns of a set: their hash, spread by a factor, in proportion to the number of buckets; without a division.
// Kept as it is: `tables::bucket` has this hash, of sets as `u32`, and spreads it with a division.
pub fn bucket(columns: u8, values: [u32; 8], width: usize, buckets: usize) -> usize
    requires { (width ≤ 8) × (0 < buckets) × (buckets ≤ 4294967296) }
    ensures { (result ≡ bucket_of buckets columns (take width values)) × (result < buckets) }
{
    let mut h: u64 = 0;
    // Kept as it is: `values[..width].iter().enumerate()` takes 5 percent more instructions.
    for c in 0..width {
        if words::has_column(columns, c) {
            h = (h * 2654435769 + values[c] as u64) % 4294967296;
        }
    }
    let spread = h * 2654435769 % 4294967296;
    (spread * buckets as u64 / 4294967296) as usize
}

// Where the rows with the given values in the columns of a set begin in table t, or the first row where there are no tables.
// Kept as it is: a link is a word of lent memory, where the end of the words is no row: one comparison ends a chain; an Option would be made at each step.
pub fn start(
    schema: &[u8],
    words: &[u32],
    x: Index,
    t: usize,
    columns: u8,
    values: [u32; 8],
    heads: &[u32],
) -> usize
    requires words_value { (spells_rows schema.now words.now ≡ true) × Known schema.now x × (t < 5) }
    requires buckets_in_bounds { 0 < x.buckets → 5 * x.buckets ≤ length heads.now }
    ensures { (pairs : List CodePair) (set : ℕ) (nodes : List ℕ) → Tabled pairs schema.now words.now x t columns set heads.now nodes
        → Reaches pairs schema.now words.now x t columns set values 0 result }
{
    if x.buckets == 0 {
        return 0;
    }
    let b = bucket(columns, values, x.width, x.buckets);
    heads[5 * b + t] as usize
}

// Where the next such row after the one at `at` begins, or the end of the words.
// Kept as it is: a link is a word of lent memory, where the end of the words is no row: one comparison ends a chain; an Option would be made at each step.
pub fn following(
    schema: &[u8],
    words: &[u32],
    x: Index,
    t: usize,
    at: usize,
    nodes: &[u32],
) -> usize
    requires words_value { (spells_rows schema.now words.now ≡ true) × Known schema.now x × (t < 5) }
    requires by_index { (p : ℕ) × BeginsAt schema.now words.now at p }
    requires words_in_bounds { 0 < x.buckets → 6 * length words.now ≤ length nodes.now }
    ensures { (pairs : List CodePair) (columns set from : ℕ) (values heads : List ℕ) → columns < 256 → x.width ≤ length values
        → Tabled pairs schema.now words.now x t columns set heads nodes.now
        → (g : Reaches pairs schema.now words.now x t columns set values from at)
        → Reaches pairs schema.now words.now x t columns set values (suc g.row) result }
{
    if x.buckets == 0 {
        return words::next(schema, words, at);
    }
    nodes[6 * at + 1 + t] as usize
}

// The first row of the relation that has the given values in the columns of a set, by table 0; or the end of the words.
// Kept as it is: a link is a word of lent memory, where the end of the words is no row: one comparison ends a chain; an Option would be made at each step.
pub fn find(
    codes: &Codes,
    schema: &[u8],
    words: &[u32],
    x: Index,
    columns: u8,
    values: [u32; 8],
    heads: &[u32],
    nodes: &[u32],
) -> usize
    requires words_value { (spells_rows schema.now words.now ≡ true) × Known schema.now x × Room words.now x heads.now nodes.now }
    requires tabled { Tabled (codes_in codes.now) schema.now words.now x 0 columns 0 heads.now nodes.now }
    ensures { FirstWith (codes_in codes.now) schema.now words.now x columns values result }
{
    let mut at = start(schema, words, x, 0, columns, values, heads);
    // Kept as it is: an iterator over a chain would be a struct more, with three clauses and their proofs, for this one loop.
    while at < words.len() {
        if has(codes, schema, words, x, at, columns, values) {
            return at;
        }
        at = following(schema, words, x, 0, at, nodes);
    }
    at
}

// The values with those of the row at `at` in the columns of a set.
pub fn with_row(
    codes: &Codes,
    words: &[u32],
    x: Index,
    at: usize,
    set: u8,
    values: [u32; 8],
) -> [u32; 8]
    requires { (at + 1 + x.width ≤ length words.now) × (x.width ≤ 8) }
    ensures by_index { (c : ℕ) → c < x.width → set / 2 ^ c % 2 ≡ 1 → get_or result c 0 ≡ read_code (codes_in codes.now) (get_or words.now (at + 1 + c) 0) }
    ensures by_index_2 { (c : ℕ) → (set / 2 ^ c % 2 ≡ 1 → ⊥) → get_or result c 0 ≡ get_or values c 0 }
{
    let mut row = values;
    // Kept as it is: c is a bit of the set, a place in `row` and a column of the row at `at`.
    for c in 0..x.width {
        if words::has_column(set, c) {
            row[c] = words::value(codes, words, at, c);
        }
    }
    row
}

// The position of the row that begins at `at`.
pub fn position_of(schema: &[u8], words: &[u32], at: usize) -> usize
    requires words_value { spells_rows schema.now words.now ≡ true }
    requires by_index { (p : ℕ) × (at ≡ start_of schema.now words.now p) × (p ≤ row_count schema.now words.now) }
    ensures { at ≡ start_of schema.now words.now result }
{
    let mut number: usize = 0;
    for row in words::each_row(schema, words, words::FIRST) {
        if row.at == at {
            return row.number;
        }
        number = row.number + 1;
    }
    number
}
