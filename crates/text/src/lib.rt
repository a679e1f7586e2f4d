// The lines of the listing, written into a lent buffer. Each function takes the position to write from and returns the one after.
// Kept as it is: of `buffer` and `at` see `printing`.
#![tactic(auto)]

ghost use Rattle.std.specs.Prelude.{◌≡◌, ◌+◌, ◌*◌, ◌≤◌, true, [], ◌∷◌, ◌++◌, length, take, drop};
ghost use Rattle.query.specs.View.{entry_of, entries_of, query_of, images_of};
ghost use Rattle.query.specs.Rule.{good_query};
ghost use Rattle.limits.specs.internal.Schema.{widths_in};
ghost use Rattle.printing.specs.internal.Writing.{Fits, WrittenAt};
ghost use Rattle.text.specs.Text.{entry_text, entries_text, place_line, never_line, head_line, row_line, rows_text, image_text, images_text, map_line, place_text, refused_text};
ghost use Rattle.text.specs.internal.Listable.{row_of_cells, variables_in_rows, Listable};

use limits::schema::Schema;
use printing::{put_byte, put_bytes, put_field, put_number};
use query::{Cell, Entry, Query};

// Writes an entry.
fn put_entry(buffer: &mut [u8], at: usize, entry: Entry) -> usize
    requires { Fits buffer.old at (entry_text (entry_of entry)) }
    ensures { WrittenAt buffer.old at (entry_text (entry_of entry)) buffer.new result }
{
    match entry {
        Entry::Constant(n) => put_number(buffer, at, n as usize),
        Entry::Variable(v) => put_field(buffer, at, b"v", v as usize),
    }
}

// Writes a byte and an entry right after it.
fn put_entry_after(buffer: &mut [u8], at: usize, byte: u8, entry: Entry) -> usize
    requires { Fits buffer.old at ((byte ∷ []) ++ entry_text (entry_of entry)) }
    ensures { WrittenAt buffer.old at ((byte ∷ []) ++ entry_text (entry_of entry)) buffer.new result }
{
    let next = put_byte(buffer, at, byte);
    put_entry(buffer, next, entry)
}

// Writes some entries, each after a space.
fn put_entries(buffer: &mut [u8], at: usize, cells: &[Cell]) -> usize
    requires { Fits buffer.old at (entries_text (entries_of cells.now)) }
    ensures { WrittenAt buffer.old at (entries_text (entries_of cells.now)) buffer.new result }
{
    let mut next = at;
    for cell in cells {
        next = put_entry_after(buffer, next, b' ', cell.entry);
    }
    next
}

// Writes the line of a place that has a result with rows.
fn put_place_line(
    buffer: &mut [u8],
    at: usize,
    place: usize,
    rows: usize,
    kept: usize,
    count: usize,
) -> usize
    requires { Fits buffer.old at (place_line place rows kept count) }
    ensures { WrittenAt buffer.old at (place_line place rows kept count) buffer.new result }
{
    let next = put_field(buffer, at, b"place ", place);
    let next = put_field(buffer, next, b" rows ", rows);
    let next = put_field(buffer, next, b" kept ", kept);
    let next = put_field(buffer, next, b" replaced ", count);
    put_byte(buffer, next, b'\n')
}

// Writes the line of a place whose result is never.
fn put_never_line(buffer: &mut [u8], at: usize, place: usize, rows: usize, count: usize) -> usize
    requires { Fits buffer.old at (never_line place rows count) }
    ensures { WrittenAt buffer.old at (never_line place rows count) buffer.new result }
{
    let next = put_field(buffer, at, b"place ", place);
    let next = put_field(buffer, next, b" rows ", rows);
    let next = put_bytes(buffer, next, b" never");
    let next = put_field(buffer, next, b" replaced ", count);
    put_byte(buffer, next, b'\n')
}

// Writes the line of a head.
fn put_head_line(buffer: &mut [u8], at: usize, cells: &[Cell]) -> usize
    requires { Fits buffer.old at (head_line (entries_of cells.now)) }
    ensures { WrittenAt buffer.old at (head_line (entries_of cells.now)) buffer.new result }
{
    let next = put_bytes(buffer, at, b"head");
    let next = put_entries(buffer, next, cells);
    put_byte(buffer, next, b'\n')
}

// Writes the line of a row.
fn put_row_line(buffer: &mut [u8], at: usize, relation: usize, cells: &[Cell]) -> usize
    requires { Fits buffer.old at (row_line (row_of_cells relation cells.now)) }
    ensures { WrittenAt buffer.old at (row_line (row_of_cells relation cells.now)) buffer.new result }
{
    let next = put_field(buffer, at, b"row ", relation);
    let next = put_entries(buffer, next, cells);
    put_byte(buffer, next, b'\n')
}

// Writes a line for each row of a query.
fn put_rows(buffer: &mut [u8], at: usize, schema: Schema, query: Query) -> usize
    requires { Fits buffer.old at (rows_text (query_of (widths_in schema) query).rows) × (good_query (widths_in schema) query ≡ true) }
    ensures { WrittenAt buffer.old at (rows_text (query_of (widths_in schema) query).rows) buffer.new result }
{
    let mut next = at;
    for (r, relation) in query.relations[..query.size as usize].iter().enumerate() {
        let width = schema.width_of(*relation) as usize;
        let row = &query.cells[8 * r..8 * r + width];
        next = put_row_line(buffer, next, *relation as usize, row);
    }
    next
}

// Writes a variable and its image.
fn put_image(buffer: &mut [u8], at: usize, v: usize, image: Entry) -> usize
    requires { Fits buffer.old at (image_text v (entry_of image)) }
    ensures { WrittenAt buffer.old at (image_text v (entry_of image)) buffer.new result }
{
    let next = put_field(buffer, at, b" v", v);
    put_entry_after(buffer, next, b'=', image)
}

// Writes the images of the variables that stand in a row of a query, ascending.
fn put_images(
    buffer: &mut [u8],
    at: usize,
    schema: Schema,
    query: Query,
    images: [Cell; 96],
) -> usize
    requires { Fits buffer.old at (images_text (images_of images) (variables_in_rows (query_of (widths_in schema) query))) × (query.size ≤ 12) }
    ensures { WrittenAt buffer.old at (images_text (images_of images) (variables_in_rows (query_of (widths_in schema) query))) buffer.new result }
{
    let named = &query.relations[..query.size as usize];
    let mut next = at;
    for (v, image) in images.iter().enumerate() {
        if schema.rows_have(named, &query.cells, v as u8) {
            next = put_image(buffer, next, v, image.entry);
        }
    }
    next
}

// Writes the line of a mapping: the images of the variables that stand in a row of a query.
fn put_map_line(
    buffer: &mut [u8],
    at: usize,
    schema: Schema,
    query: Query,
    images: [Cell; 96],
) -> usize
    requires { Fits buffer.old at (map_line (images_of images) (variables_in_rows (query_of (widths_in schema) query))) × (query.size ≤ 12) }
    ensures { WrittenAt buffer.old at (map_line (images_of images) (variables_in_rows (query_of (widths_in schema) query))) buffer.new result }
{
    let next = put_bytes(buffer, at, b"map");
    let next = put_images(buffer, next, schema, query, images);
    put_byte(buffer, next, b'\n')
}

// Writes the lines of a place: its number, its query, the result of its reduction, the number of replacements and the mapping.
pub fn write_place(
    buffer: &mut [u8],
    at: usize,
    place: usize,
    schema: Schema,
    source: Query,
    res: Query,
    count: u8,
    images: [Cell; 96],
) -> usize
    requires { Listable buffer.old at place schema source res images }
    ensures { WrittenAt buffer.old at (place_text place (query_of (widths_in schema) source) (query_of (widths_in schema) res) count
        (images_of images)) buffer.new result }
{
    let rows = source.size as usize;
    let kept = res.size as usize;
    if kept == 0 {
        return put_never_line(buffer, at, place, rows, count as usize);
    }
    let head = &res.head[..res.arity as usize];
    let next = put_place_line(buffer, at, place, rows, kept, count as usize);
    let next = put_head_line(buffer, next, head);
    let next = put_rows(buffer, next, schema, res);
    put_map_line(buffer, next, schema, source, images)
}

// Writes the line of a refused file.
pub fn write_refused(buffer: &mut [u8], at: usize, n: u8) -> usize
    requires { at + 12 ≤ length buffer.old }
    ensures { WrittenAt buffer.old at (refused_text n) buffer.new result }
{
    let end = put_field(buffer, at, b"refused ", n as usize);
    put_byte(buffer, end, b'\n')
}
