// The pieces of a file, written into a lent buffer. Each function writes one over the buffer at a position: what stands before and after it stays.
// Kept as it is: of `buffer` and `at` see `printing`.
#![tactic(auto)]

ghost use Rattle.std.specs.Prelude.{◌≡◌, true, ◌+◌, ◌*◌, ◌≤◌, length, take};
ghost use mathlib.Core.List.{map, flatten};
ghost use Rattle.lists.specs.Tests.{every};
ghost use Rattle.lists.specs.Over.{over};
ghost use Rattle.query.specs.Rule.{good_place};
ghost use Rattle.limits.specs.internal.Schema.{widths_in};
ghost use Rattle.record.specs.Rule.{good_record};
ghost use Rattle.format.specs.Parts.{relations};
ghost use Rattle.format.specs.File.{table_of, put_place, up_to_filled};
ghost use Rattle.assembly.specs.internal.Pieces.{put_pair, codes_bytes, codes_long, put_dependency, dependency_bytes, put_join, few_sets, joins_bytes, directory_bytes, part_bytes};

use encoder::{place_length, put_place, put_word, put_word32};
use limits::schema::Schema;
use query::{CodePair, Dependency, JoinDependency, Place};
use record::Record;

// ---- lengths

// How many places there are up to the last filled one.
pub fn up_to_filled(places: [Place; 8]) -> usize
    ensures { (result ≡ up_to_filled places) × (result ≤ 8) }
{
    match places.iter().rposition(|place| place.filled) {
        Some(last) => last + 1,
        None => 0,
    }
}

// How long the parts of some places are.
pub fn places_length(places: &[Place], schema: Schema) -> usize
    requires places_value { every (good_place (widths_in schema)) places.now ≡ true }
    requires few { length places.now ≤ 8 }
    ensures { (result ≡ length (flatten (map (put_place (widths_in schema)) places.now))) × (result ≤ 4272) }
{
    let mut sum = 0;
    for place in places {
        sum += place_length(*place, schema);
    }
    sum
}

// How long the pairs of codes are: nothing where none is held, else their count and 8 bytes each.
pub fn codes_length(coded: u8) -> usize
    requires { coded ≤ 16 }
    ensures { (result ≡ codes_long coded) × (result ≤ 129) }
{
    if coded == 0 {
        0
    } else {
        1 + 8 * (coded as usize)
    }
}

// How long a join dependency is.
fn join_length(j: JoinDependency) -> usize
    requires { j.count ≤ 4 }
    ensures { (result ≡ length (put_join j)) × (result ≤ 6) }
{
    2 + j.count as usize
}

// How long the join dependencies are: nothing where none is held, else their count and each.
// Kept as it is: it is given what `put_joins` is given, which writes the count, and both name the same `joins_bytes` of it.
pub fn joins_length(joined: u8, list: [JoinDependency; 4]) -> usize
    requires { (joined ≤ 4) × (every few_sets list ≡ true) }
    ensures { (result ≡ length (joins_bytes joined list)) × (result ≤ 25) }
{
    if joined == 0 {
        return 0;
    }
    let mut sum = 1;
    for j in &list[..joined as usize] {
        sum += join_length(*j);
    }
    sum
}

// ---- part 0 and part 1

// The relations at a position: their count, then a width byte each.
fn put_relations(buffer: &mut [u8], at: usize, schema: Schema)
    requires { at + 1 + schema.relations ≤ length buffer.old }
    ensures { buffer.new ≡ over buffer.old at (relations.put (schema.relations, schema.widths)) }
{
    let n = schema.relations as usize;
    buffer[at] = schema.relations;
    buffer[at + 1..at + 1 + n].copy_from_slice(&schema.widths[..n]);
}

// A pair of codes at a position: the old code and the current one, 32 bits each.
fn put_pair(buffer: &mut [u8], at: usize, p: CodePair)
    requires { at + 8 ≤ length buffer.old }
    ensures { buffer.new ≡ over buffer.old at (put_pair p) }
{
    put_word32(buffer, at, p.old);
    put_word32(buffer, at + 4, p.current);
}

// The pairs of codes at a position: nothing where none is held, else their count, then 8 bytes each. Answers where they end.
fn put_codes(buffer: &mut [u8], at: usize, coded: u8, list: [CodePair; 16]) -> usize
    requires coded_bound { coded ≤ 16 }
    requires list_in_bounds { at + codes_long coded ≤ length buffer.old }
    ensures { (buffer.new ≡ over buffer.old at (codes_bytes coded list)) × (result ≡ at + codes_long coded) }
{
    if coded == 0 {
        return at;
    }
    buffer[at] = coded;
    for (i, p) in list[..coded as usize].iter().enumerate() {
        put_pair(buffer, at + 1 + 8 * i, *p);
    }
    at + 1 + 8 * (coded as usize)
}

// A functional dependency at a position: relation, left set and right column, a byte each.
fn put_dependency(buffer: &mut [u8], at: usize, d: Dependency)
    requires { at + 3 ≤ length buffer.old }
    ensures { buffer.new ≡ over buffer.old at (put_dependency d) }
{
    buffer[at..at + 3].copy_from_slice(&[d.relation, d.left, d.right]);
}

// The functional dependencies at a position: their count, then 3 bytes each.
// Kept as it is: the count is a byte of the record and of the file; of a slice, here and in `put_joins`, it would have to be made a byte again.
fn put_dependencies(buffer: &mut [u8], at: usize, held: u8, list: [Dependency; 32])
    requires held_bound { held ≤ 32 }
    requires held_in_bounds { at + 1 + 3 * held ≤ length buffer.old }
    ensures { buffer.new ≡ over buffer.old at (dependency_bytes held list) }
{
    buffer[at] = held;
    for (i, d) in list[..held as usize].iter().enumerate() {
        put_dependency(buffer, at + 1 + 3 * i, *d);
    }
}

// A join dependency at a position: relation, number of sets, and each set, a byte each. Answers where it ends.
fn put_join(buffer: &mut [u8], at: usize, j: JoinDependency) -> usize
    requires count_bound { j.count ≤ 4 }
    requires j_in_bounds { at + length (put_join j) ≤ length buffer.old }
    ensures { (buffer.new ≡ over buffer.old at (put_join j)) × (result ≡ at + length (put_join j)) }
{
    let n = j.count as usize;
    buffer[at] = j.relation;
    buffer[at + 1] = j.count;
    buffer[at + 2..at + 2 + n].copy_from_slice(&j.sets[..n]);
    at + 2 + n
}

// The join dependencies at a position: nothing where none is held, else their count and each. Answers where they end.
fn put_joins(buffer: &mut [u8], at: usize, joined: u8, list: [JoinDependency; 4]) -> usize
    requires joined_bound { (joined ≤ 4) × (every few_sets list ≡ true) }
    requires list_in_bounds { at + length (joins_bytes joined list) ≤ length buffer.old }
    ensures { (buffer.new ≡ over buffer.old at (joins_bytes joined list)) × (result ≡ at + length (joins_bytes joined list)) }
{
    if joined == 0 {
        return at;
    }
    buffer[at] = joined;
    let mut next = at + 1;
    for j in &list[..joined as usize] {
        next = put_join(buffer, next, *j);
    }
    next
}

// ---- the directory and the places

// The pairs of some places at a position, the first part starting at `start`.
fn put_table(buffer: &mut [u8], at: usize, start: usize, places: &[Place], schema: Schema)
    requires places_value { every (good_place (widths_in schema)) places.now ≡ true }
    requires few { (length places.now ≤ 8) × (start ≤ 1000) }
    requires in_bounds { at + 4 * length places.now ≤ length buffer.old }
    ensures { buffer.new ≡ over buffer.old at (table_of start (map (put_place (widths_in schema)) places.now)) }
{
    let mut due = start;
    for (k, place) in places.iter().enumerate() {
        let size = place_length(*place, schema);
        put_word(buffer, at + 4 * k, due);
        put_word(buffer, at + 4 * k + 2, size);
        due = due + size;
    }
}

// The parts of some places from a position on.
fn put_places(buffer: &mut [u8], start: usize, places: &[Place], schema: Schema)
    requires places_value { every (good_place (widths_in schema)) places.now ≡ true }
    requires in_bounds { start + length (flatten (map (put_place (widths_in schema)) places.now)) ≤ length buffer.old }
    ensures { buffer.new ≡ over buffer.old start (flatten (map (put_place (widths_in schema)) places.now)) }
{
    let mut at = start;
    for place in places {
        at = put_place(buffer, at, *place, schema);
    }
}

// The number of parts and all pairs, part 0 being `first` and part 1 `second` bytes long.
pub fn put_directory(
    buffer: &mut [u8],
    first: usize,
    second: usize,
    places: &[Place],
    schema: Schema,
)
    requires places_value { every (good_place (widths_in schema)) places.now ≡ true }
    requires few { (length places.now ≤ 8) × (first ≤ 138) × (second ≤ 122) }
    requires in_bounds { 10 + 4 * length places.now ≤ length buffer.old }
    ensures { buffer.new ≡ over buffer.old 0 (directory_bytes (length places.now) first second (map (put_place (widths_in schema)) places.now)) }
{
    let n = places.len();
    let start = 2 + 4 * (n + 2);
    put_word(buffer, 0, n + 2);
    put_word(buffer, 2, start);
    put_word(buffer, 4, first);
    put_word(buffer, 6, start + first);
    put_word(buffer, 8, second);
    put_table(buffer, 10, start + first + second, places, schema);
}

// All parts from a position on.
pub fn put_parts(buffer: &mut [u8], start: usize, given: Record, n: usize)
    requires given_value { good_record given ≡ true }
    requires n_bound { n ≤ 8 }
    requires n_in_bounds { start + length (part_bytes given n) ≤ length buffer.old }
    ensures { buffer.new ≡ over buffer.old start (part_bytes given n) }
{
    let schema = given.schema();
    let coded = given.coded;
    let codes = given.codes;
    let held = given.held;
    let list = given.dependencies;
    let joined = given.joined;
    let joins = given.joins;
    put_relations(buffer, start, schema);
    let first = put_codes(buffer, start + 1 + given.relations as usize, coded, codes);
    put_dependencies(buffer, first, held, list);
    let second = first + 1 + 3 * (held as usize);
    let third = put_joins(buffer, second, joined, joins);
    put_places(buffer, third, &given.places[..n], schema);
}
