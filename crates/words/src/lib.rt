// The rows of a database that arrives as words: the walk that judges them, and the rows that break a dependency with a given one, as they are read.
// `schema` is the width of each relation, and `codes` the pairs of codes by which values are read.
// Kept as it is: `schema` and `words` are two slices, since a walk reads what is left of the words by the same schema; and a struct of both, handed over by
// value, took 31 percent more instructions in a recursive search.
#![tactic(auto)]

ghost use Rattle.std.specs.Prelude.{◌≡◌, true, ◌+◌, ◌-◌, ◌/◌, ◌%◌, ◌^◌, ◌≤◌, ◌<◌, eqb, length, take, drop, get_or};
ghost use Rattle.query.specs.View.{dependency_of};
ghost use Rattle.codes.specs.internal.Codes.{codes_in};
ghost use Rattle.theory.specs.Codes.{read_code};
ghost use Rattle.theory.specs.Chase.{first_passing};
ghost use Rattle.words.specs.Words.{spells_rows};
ghost use Rattle.words.specs.internal.Rows.{span_read, row_read, Next, agree_rows, rows_read};
ghost use Rattle.words.specs.Testing.{breaks_rows, breaks_with};
ghost use Rattle.std.specs.Iterator.{at_most};
ghost use Rattle.words.specs.internal.Walk.{Steps};
ghost use Rattle.words.specs.internal.Found.{partner_of, Testable, From};

use codes::pairs::Codes;
use query::Dependency;

// Whether the words spell rows: each row is of a known relation, and none is cut short.
pub fn spelled(schema: &[u8], words: &[u32]) -> bool
    ensures { result ≡ spells_rows schema.now words.now }
{
    let mut rest = words;
    while let Some((relation, values)) = rest.split_first() {
        let Some(width) = schema.get(*relation as usize) else {
            return false;
        };
        let width = *width as usize;
        if values.len() < width {
            return false;
        }
        rest = &values[width..];
    }
    true
}

// Where the row after the one at `at` begins.
pub fn next(schema: &[u8], words: &[u32], at: usize) -> usize
    requires { (at < length words.now) × (spells_rows schema.now (drop at words.now) ≡ true) }
    ensures { Next schema.now words.now at result }
{
    let relation = words[at] as usize;
    let width = schema[relation] as usize;
    at + 1 + width
}

// A row: the word at which it begins, and its position among the rows.
#[derive(Clone, Copy)]
pub struct Position {
    pub at: usize,
    pub number: usize,
}

// The first row, or the end of the words where there is none.
pub const FIRST: Position = Position { at: 0, number: 0 };

// The rows of the words from a place on, one after another.
#[derive(Drop)]
pub struct Rows<'a> {
    pub schema: &'a [u8],
    pub words: &'a [u32],
    pub place: Position,
}

impl<'a> Iterator for Rows<'a> {
    type Item = Position;

    ghost can_next = { λ s. From s.schema.now s.words.now s.place.at s.place.number };

    ghost next_gives = { λ s r t. Steps s.schema.now s.words.now s.place r t.place × (t.schema.now ≡ s.schema.now) × (t.words.now ≡ s.words.now) };

    ghost remaining = { λ s. at_most (length s.words.now - s.place.at) };

    fn next(&mut self) -> Option<Position> {
        let here = self.place;
        if self.words.len() <= here.at {
            return None;
        }
        self.place = Position {
            at: next(self.schema, self.words, here.at),
            number: here.number + 1,
        };
        Some(here)
    }
}

// The rows of the words from a place on.
pub fn each_row<'a>(schema: &'a [u8], words: &'a [u32], place: Position) -> Rows<'a>
    requires { From schema.now words.now place.at place.number }
    ensures { (result.schema.now ≡ schema.now) × (result.words.now ≡ words.now) × (result.place ≡ place) }
{
    Rows {
        schema,
        words,
        place,
    }
}

// The value in a column of the row of a database that begins at word `at`: an old code as its current one. A test reads every value of a database here.
pub fn value(codes: &Codes, words: &[u32], at: usize, column: usize) -> u32
    requires { at + 1 + column < length words.now }
    ensures { result ≡ read_code (codes_in codes.now) (get_or words.now (at + 1 + column) 0) }
{
    codes.read(words[at + 1 + column])
}

// The values of the row of a database that begins at word `at`, as they are read.
pub fn read_row(codes: &Codes, words: &[u32], width: usize, at: usize) -> [u32; 8]
    requires { (at + 1 + width ≤ length words.now) × (width ≤ 8) }
    ensures { take width result ≡ (span_read (codes_in codes.now) width words.now at).values }
{
    let mut row = [0; 8];
    // Kept as it is: c is a column of the row at `at` and a place in `row`.
    for c in 0..width {
        row[c] = value(codes, words, at, c);
    }
    row
}

// Whether a set of columns has column c: bit c of its mask is set.
pub fn has_column(columns: u8, c: usize) -> bool
    requires { c < 8 }
    ensures { result ≡ eqb (columns / 2 ^ c % 2) 1 }
{
    (columns >> c) % 2 == 1
}

// Whether the rows at `a` and `b` agree on the left columns of the dependency.
pub fn agrees_at(
    codes: &Codes,
    words: &[u32],
    width: usize,
    d: Dependency,
    a: usize,
    b: usize,
) -> bool
    requires width_in_bounds { (a + 1 + width ≤ length words.now) × (b + 1 + width ≤ length words.now) }
    requires width_bound { (width ≤ 8) × (d.left < 2 ^ width) }
    ensures { result ≡ agree_rows (dependency_of d) (span_read (codes_in codes.now) width words.now a) (span_read (codes_in codes.now) width words.now b) }
{
    (0..width).all(|c| !has_column(d.left, c)
        || value(codes, words, a, c) == value(codes, words, b, c))
}

// Whether the rows at `a` and `b`, both of the dependency's relation, break it: they agree on the left columns and differ on the right one.
pub fn breaks_at(
    codes: &Codes,
    words: &[u32],
    width: usize,
    d: Dependency,
    a: usize,
    b: usize,
) -> bool
    requires a_value { (get_or words.now a 0 ≡ d.relation) × (get_or words.now b 0 ≡ d.relation) }
    requires width_in_bounds { (a + 1 + width ≤ length words.now) × (b + 1 + width ≤ length words.now) }
    requires width_bound { (width ≤ 8) × (d.left < 2 ^ width) × (d.right < width) }
    ensures { result ≡ breaks_rows (dependency_of d) (span_read (codes_in codes.now) width words.now a) (span_read (codes_in codes.now) width words.now b) }
{
    if !agrees_at(codes, words, width, d, a, b) {
        return false;
    }
    let right = d.right as usize;
    value(codes, words, a, right) != value(codes, words, b, right)
}

// A dependency that is broken, by its position among those of its kind.
#[derive(Clone, Copy)]
pub enum Violation {
    // a functional one, and the positions of its pair of rows
    Functional {
        dependency: usize,
        first: usize,
        second: usize,
    },
    // a join dependency, and the positions of the rows chosen for its sets, 0 where there is no set
    Join {
        dependency: usize,
        rows: [usize; 4],
    },
}

// The first row that breaks the dependency with the row at `a`, among the rows from `from` on.
// Kept as it is: `testing` reads schema, words and dependency apart in one loop, so that a struct of them would be made for this call and taken apart in it.
pub fn first_partner(
    codes: &Codes,
    schema: &[u8],
    words: &[u32],
    d: Dependency,
    a: usize,
    from: Position,
) -> Option<usize>
    requires testable { Testable schema.now d }
    requires a_value { (get_or words.now a 0 ≡ d.relation) × (a + 1 + get_or schema.now d.relation 0 ≤ length words.now) }
    requires from { From schema.now words.now from.at from.number }
    ensures { result ≡ partner_of (first_passing (breaks_with (dependency_of d) (row_read (codes_in codes.now) schema.now words.now a))
        (rows_read (codes_in codes.now) schema.now words.now from.at from.number)) }
{
    let relation = d.relation as u32;
    let index = d.relation as usize;
    let width = schema[index] as usize;
    for row in each_row(schema, words, from) {
        if words[row.at] == relation && breaks_at(codes, words, width, d, a, row.at) {
            return Some(row.number);
        }
    }
    None
}
