// A query part, written into a lent buffer. Each function writes one piece over the buffer at a position: what stands before and after it stays.
// Kept as it is: of `buffer` and `at` see `printing`.
#![tactic(auto)]

ghost use Rattle.std.specs.Prelude.{◌≡◌, true, ◌+◌, ◌*◌, ◌≤◌, ◌<◌, length, take, drop, get_or};
ghost use mathlib.Core.List.{◌∷◌, flat_map};
ghost use Rattle.lists.specs.Over.{over};
ghost use Rattle.query.specs.View.{as_query};
ghost use Rattle.query.specs.Rule.{good_place};
ghost use Rattle.limits.specs.internal.Schema.{widths_in};
ghost use Rattle.format.specs.Bytes.{bytes_of};
ghost use Rattle.format.specs.Parts.{put_entry, entry, row, chunk, query_for};
ghost use Rattle.format.specs.File.{put_place};
ghost use Rattle.encoder.specs.internal.Lengths.{rows_length};

use limits::schema::Schema;
use query::{Cell, Entry, Place, Tableau};

// ---- numbers and entries

// 16 bits at a position.
pub fn put_word(buffer: &mut [u8], at: usize, n: usize)
    requires { at + 2 ≤ length buffer.old }
    ensures { buffer.new ≡ over buffer.old at (bytes_of 2 n) }
{
    let word = (n % 65536) as u16;
    buffer[at..at + 2].copy_from_slice(&word.to_le_bytes());
}

// 32 bits at a position.
pub fn put_word32(buffer: &mut [u8], at: usize, n: u32)
    requires { at + 4 ≤ length buffer.old }
    ensures { buffer.new ≡ over buffer.old at (bytes_of 4 n) }
{
    buffer[at..at + 4].copy_from_slice(&n.to_le_bytes());
}

// A byte and 32 bits at a position.
fn put_tagged(buffer: &mut [u8], at: usize, tag: u8, n: u32)
    requires { at + 5 ≤ length buffer.old }
    ensures { buffer.new ≡ over buffer.old at (tag ∷ bytes_of 4 n) }
{
    buffer[at] = tag;
    put_word32(buffer, at + 1, n);
}

// An entry at a position.
fn put_entry(buffer: &mut [u8], at: usize, entry: Entry)
    requires { at + 5 ≤ length buffer.old }
    ensures { buffer.new ≡ over buffer.old at (put_entry entry) }
{
    match entry {
        Entry::Constant(n) => put_tagged(buffer, at, 0, n),
        Entry::Variable(v) => put_tagged(buffer, at, 1, u32::from(v)),
    }
}

// The entries of some cells.
fn put_entries(buffer: &mut [u8], at: usize, cells: &[Cell])
    requires { at + 5 * length cells.now ≤ length buffer.old }
    ensures { buffer.new ≡ over buffer.old at (flat_map entry.put cells.now) }
{
    for (i, cell) in cells.iter().enumerate() {
        put_entry(buffer, at + 5 * i, cell.entry);
    }
}

// ---- rows

// A row at a position: the relation byte and the entries. Returns the position after it.
fn put_row(buffer: &mut [u8], at: usize, relation: u8, cells: &[Cell]) -> usize
    requires { at + 1 + 5 * length cells.now ≤ length buffer.old }
    ensures { (buffer.new ≡ over buffer.old at (relation ∷ flat_map entry.put cells.now)) × (result ≡ at + 1 + 5 * length cells.now) }
{
    buffer[at] = relation;
    put_entries(buffer, at + 1, cells);
    at + 1 + 5 * cells.len()
}

// Rows from a position on, row r having the 8 cells from 8 * r on. Returns the position after them.
fn put_rows(buffer: &mut [u8], start: usize, named: &[u8], cells: &[Cell], schema: Schema) -> usize
    requires cells_long { 8 * length named.now ≤ length cells.now }
    requires rows_in_bounds { start + length (flat_map (row (widths_in schema)).put (chunk named.now cells.now)) ≤ length buffer.old }
    ensures { (buffer.new ≡ over buffer.old start (flat_map (row (widths_in schema)).put (chunk named.now cells.now))) ×
        (result ≡ start + length (flat_map (row (widths_in schema)).put (chunk named.now cells.now))) }
{
    let mut at = start;
    for (r, relation) in named.iter().enumerate() {
        let width = schema.width_of(*relation) as usize;
        at = put_row(buffer, at, *relation, &cells[8 * r..8 * r + width]);
    }
    at
}

// ---- query parts

// The part of a tableau at a position. Returns the position after it.
pub fn put_query(buffer: &mut [u8], at: usize, t: Tableau, schema: Schema) -> usize
    requires arity_bound { (t.arity ≤ 8) × (t.size ≤ 24) }
    requires t_in_bounds { at + length ((query_for 24 (widths_in schema)).put (as_query t)) ≤ length buffer.old }
    ensures { (buffer.new ≡ over buffer.old at ((query_for 24 (widths_in schema)).put (as_query t))) ×
        (result ≡ at + length ((query_for 24 (widths_in schema)).put (as_query t))) }
{
    let used = limits::head_in_use(t.arity, t.size);
    buffer[at] = t.arity;
    buffer[at + 1] = t.size;
    put_entries(buffer, at + 2, &t.head[..used]);
    put_rows(
        buffer,
        at + 2 + 5 * used,
        &t.relations[..t.size as usize],
        &t.cells,
        schema,
    )
}

// The part of a place at a position: 255 alone if it is vacant, else its query. Returns the position after it.
pub fn put_place(buffer: &mut [u8], at: usize, place: Place, schema: Schema) -> usize
    requires place_value { good_place (widths_in schema) place ≡ true }
    requires place_in_bounds { at + length (put_place (widths_in schema) place) ≤ length buffer.old }
    ensures { (buffer.new ≡ over buffer.old at (put_place (widths_in schema) place)) × (result ≡ at + length (put_place (widths_in schema) place)) }
{
    if place.filled {
        put_query(buffer, at, tableaux::from_query(place.query), schema)
    } else {
        buffer[at] = 255;
        at + 1
    }
}

// ---- lengths

// How long the rows of these relations are.
fn rows_length(named: &[u8], schema: Schema) -> usize
    requires few { length named.now ≤ 24 }
    ensures { (result ≡ rows_length (widths_in schema) named.now) × (result ≤ 41 * length named.now) }
{
    let mut sum = 0;
    for relation in named {
        sum += 1 + 5 * schema.width_of(*relation) as usize;
    }
    sum
}

// How long the part of a tableau is.
pub fn query_length(t: Tableau, schema: Schema) -> usize
    requires arity_bound { (t.arity ≤ 8) × (t.size ≤ 24) }
    ensures { (result ≡ length ((query_for 24 (widths_in schema)).put (as_query t))) × (result ≤ 42 + 41 * t.size) }
{
    let used = limits::head_in_use(t.arity, t.size);
    let rows = rows_length(&t.relations[..t.size as usize], schema);
    2 + 5 * used + rows
}

// How long the part of a place is.
pub fn place_length(place: Place, schema: Schema) -> usize
    requires place_value { good_place (widths_in schema) place ≡ true }
    ensures { (result ≡ length (put_place (widths_in schema) place)) × (result ≤ 534) }
{
    if place.filled {
        query_length(tableaux::from_query(place.query), schema)
    } else {
        1
    }
}
