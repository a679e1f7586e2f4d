// What the parts of a file hold, read off bytes: numbers, then the query of a query part, the relations and the pairs of codes of part 0, and the dependencies
// of both kinds of part 1.
// A reader of what may be followed by more hands back the value and the bytes after it. Each answers none where the bytes are no good value.
#![tactic(auto)]

ghost use Rattle.std.specs.Prelude.{◌≡◌, true, ◌+◌, ◌≤◌, ◌<◌, length, take, drop};
ghost use Rattle.lists.specs.Tests.{between};
ghost use Rattle.lists.specs.Over.{pad};
ghost use Rattle.limits.specs.internal.Schema.{widths_in};
ghost use Rattle.format.specs.Bytes.{number};
ghost use Rattle.format.specs.Format.{get_byte, get_times, map_reading};
ghost use Rattle.format.specs.Parts.{entry, rows, query, relations, code_pair, code_pairs, dependency, dependencies, join};
ghost use Rattle.format.specs.File.{read_codes, read_joins};
ghost use Rattle.parsing.specs.internal.Read.{value_given, reading_of, read_into, relations_read, stored_rows};

use limits::schema::Schema;
use query::{
    Cell, CodePair, Dependency, Entry, JoinDependency, NO_CELL, NO_CODE_PAIR, NO_DEPENDENCY,
    NO_JOIN_DEPENDENCY, Query,
};

// ---- numbers and bytes

// The 16 bits at a position.
pub fn word16(s: &[u8], at: usize) -> u32
    requires { at + 2 ≤ length s.now }
    ensures { (result ≡ number 2 (drop at s.now)) × (result < 65536) }
{
    u32::from(u16::from_le_bytes([s[at], s[at + 1]]))
}

// The 32 bits at a position.
fn word32(s: &[u8], at: usize) -> u32
    requires { at + 4 ≤ length s.now }
    ensures { result ≡ number 4 (drop at s.now) }
{
    u32::from_le_bytes([s[at], s[at + 1], s[at + 2], s[at + 3]])
}

// A byte, if it is within limits.
pub fn read_byte(s: &[u8], low: u8, high: u8) -> Option<(u8, &[u8])>
    ensures { reading_of result ≡ get_byte (between low high) s.now }
{
    let (byte, rest) = s.split_first()?;
    if low <= *byte && *byte <= high {
        Some((*byte, rest))
    } else {
        None
    }
}

// ---- entries

// An entry: a byte (0 constant, 1 variable) and 32 bits.
fn read_entry(s: &[u8]) -> Option<(Cell, &[u8])>
    ensures { reading_of result ≡ entry.get s.now }
{
    if s.len() < 5 {
        return None;
    }
    let n = word32(s, 1);
    let rest = &s[5..];
    match s[0] {
        0 if n <= 2147483647 => Some((
            Cell {
                entry: Entry::Constant(n),
            },
            rest,
        )),
        1 if n <= 95 => Some((
            Cell {
                entry: Entry::Variable(n as u8),
            },
            rest,
        )),
        _ => None,
    }
}

// As many entries as there are cells, into them.
fn read_entries<'a>(s: &'a [u8], cells: &mut [Cell]) -> Option<&'a [u8]>
    ensures { read_into cells.new result ≡ get_times entry.get (length cells.old) s.now }
{
    let mut rest = s;
    for cell in cells.iter_mut() {
        let (read, after) = read_entry(rest)?;
        *cell = read;
        rest = after;
    }
    Some(rest)
}

// ---- rows

// The relations and cells of some rows.
#[derive(Clone, Copy)]
pub struct StoredRows {
    pub relations: [u8; 12],
    pub cells: [Cell; 96],
}

// Rows: for each the relation byte and one entry a column, which are stored where they belong.
// Kept as it is: r names both the relation's slot and the row's cells.
fn read_rows(s: &[u8], size: usize, schema: Schema) -> Option<(StoredRows, &[u8])>
    requires { size ≤ 12 }
    ensures { reading_of result ≡ map_reading stored_rows ((rows 12 (widths_in schema) size).get s.now) }
{
    let mut relations = [0; 12];
    let mut cells = [NO_CELL; 96];
    let mut rest = s;
    for r in 0..size {
        let (relation, entries) = rest.split_first()?;
        let relation = *relation;
        if schema.relations <= relation {
            return None;
        }
        let width = schema.width_of(relation) as usize;
        rest = read_entries(entries, &mut cells[8 * r..8 * r + width])?;
        relations[r] = relation;
    }
    Some((StoredRows { relations, cells }, rest))
}

// ---- query parts

// A query: head length, row count, head entries, then rows.
pub fn read_query(part: &[u8], schema: Schema) -> Option<(Query, &[u8])>
    ensures { reading_of result ≡ (query (widths_in schema)).get part.now }
{
    let (arity, rest) = read_byte(part, 0, 8)?;
    let (size, rest) = read_byte(rest, 0, 12)?;
    let used = limits::head_in_use(arity, size);
    let mut head = [NO_CELL; 8];
    let rest = read_entries(rest, &mut head[..used])?;
    let (rows, rest) = read_rows(rest, size as usize, schema)?;
    let StoredRows { relations, cells } = rows;
    let query = Query {
        arity,
        size,
        head,
        relations,
        cells,
    };
    Some((query, rest))
}

// ---- part 0: relations

// The front of part 0: the count of relations, then a width byte each.
pub fn read_relations(part: &[u8]) -> Option<(Schema, &[u8])>
    ensures { relations_read result ≡ relations.get part.now }
{
    let (count, front) = read_byte(part, 1, 8)?;
    let n = count as usize;
    if front.len() < n {
        return None;
    }
    let schema = Schema::new(count, chains::padded(&front[..n], 0))?;
    Some((schema, &front[n..]))
}

// ---- part 0: pairs of codes

// A pair of codes: the old code and the current one, 32 bits each.
fn read_pair(s: &[u8]) -> Option<(CodePair, &[u8])>
    ensures { reading_of result ≡ code_pair.get s.now }
{
    if s.len() < 8 {
        return None;
    }
    let p = CodePair {
        old: word32(s, 0),
        current: word32(s, 4),
    };
    Some((p, &s[8..]))
}

// The count of pairs of codes, then each of them.
fn read_pairs(part: &[u8]) -> Option<((u8, [CodePair; 16]), &[u8])>
    ensures { reading_of result ≡ code_pairs.get part.now }
{
    let (coded, front) = read_byte(part, 1, 16)?;
    let mut codes = [NO_CODE_PAIR; 16];
    let mut rest = front;
    let n = coded as usize;
    for slot in codes[..n].iter_mut() {
        let (p, after) = read_pair(rest)?;
        *slot = p;
        rest = after;
    }
    Some(((coded, codes), rest))
}

// What is left of part 0 after the widths: nothing, or the pairs of codes, which keep the rule, and no more.
pub fn read_codes(part: &[u8]) -> Option<(u8, [CodePair; 16])>
    ensures { result ≡ value_given (read_codes part.now) }
{
    if part.is_empty() {
        return Some((0, [NO_CODE_PAIR; 16]));
    }
    let ((coded, codes), rest) = read_pairs(part)?;
    if rest.is_empty() && limits::codes_good(coded, codes) {
        Some((coded, codes))
    } else {
        None
    }
}

// ---- part 1: functional dependencies

// A functional dependency: relation, left set and right column, a byte each.
fn read_dependency(s: &[u8], schema: Schema) -> Option<(Dependency, &[u8])>
    ensures { reading_of result ≡ (dependency (widths_in schema)).get s.now }
{
    if s.len() < 3 {
        return None;
    }
    let d = Dependency {
        relation: s[0],
        left: s[1],
        right: s[2],
    };
    if schema.dependency_good(d) {
        Some((d, &s[3..]))
    } else {
        None
    }
}

// The front of part 1: the count of functional dependencies, then each of them.
pub fn read_dependencies(part: &[u8], schema: Schema) -> Option<((u8, [Dependency; 32]), &[u8])>
    ensures { reading_of result ≡ (dependencies (widths_in schema)).get part.now }
{
    let (held, front) = read_byte(part, 0, 32)?;
    let mut dependencies = [NO_DEPENDENCY; 32];
    let mut rest = front;
    let n = held as usize;
    for slot in dependencies[..n].iter_mut() {
        let (d, after) = read_dependency(rest, schema)?;
        *slot = d;
        rest = after;
    }
    Some(((held, dependencies), rest))
}

// ---- part 1: join dependencies

// At most 4 sets from a position on, and 0 for each that is not in use.
pub fn read_sets(part: &[u8], at: usize, n: usize) -> [u8; 4]
    requires { (n ≤ 4) × (at + n ≤ length part.now) }
    ensures { result ≡ pad 4 0 (take n (drop at part.now)) }
{
    chains::padded(&part[at..at + n], 0)
}

// A join dependency: relation, number of sets, and the sets, a byte each.
fn read_join(s: &[u8], schema: Schema) -> Option<(JoinDependency, &[u8])>
    ensures { reading_of result ≡ (join (widths_in schema)).get s.now }
{
    if s.len() < 2 {
        return None;
    }
    let n = s[1];
    if 4 < n {
        return None;
    }
    if s.len() < 2 + n as usize {
        return None;
    }
    let sets = read_sets(s, 2, n as usize);
    let j = JoinDependency {
        relation: s[0],
        count: n,
        sets,
    };
    if schema.join_good(j) {
        Some((j, &s[2 + n as usize..]))
    } else {
        None
    }
}

// What is left of part 1 after the functional dependencies: nothing, or the count of join dependencies and each of them.
pub fn read_joins(part: &[u8], schema: Schema) -> Option<(u8, [JoinDependency; 4])>
    ensures { result ≡ value_given (read_joins (widths_in schema) part.now) }
{
    let mut joins = [NO_JOIN_DEPENDENCY; 4];
    if part.is_empty() {
        return Some((0, joins));
    }
    let (joined, front) = read_byte(part, 1, 4)?;
    let mut rest = front;
    let n = joined as usize;
    for slot in joins[..n].iter_mut() {
        let (j, after) = read_join(rest, schema)?;
        *slot = j;
        rest = after;
    }
    if !rest.is_empty() {
        return None;
    }
    Some((joined, joins))
}
