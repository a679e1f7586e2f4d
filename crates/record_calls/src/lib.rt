// Opening a record, dropping a query, and the columns that a set of columns determines.
#![tactic(auto)]

ghost use Rattle.std.specs.Prelude.{◌≡◌};
ghost use Rattle.record.specs.Calls.{outcome_reply};
ghost use Rattle.record_calls.specs.Calls.{blank_record, empty_record, open_record, drop_query, columns_reply, determined_columns};

use record::calls::{done, no_place, refused, with_place};
use record::{Outcome, Record};
use refusals::Refusal;

// Some columns: their set, bit c for column c, and their number.
#[derive(Clone, Copy, PartialEq, Eq)]
pub struct Columns {
    pub set: u8,
    pub count: u8,
}

// A record of the given relations, without pairs of codes or dependencies, all places vacant.
fn opened(relations: u8, widths: [u8; 8]) -> Record
    ensures { result ≡ empty_record relations widths }
{
    let unrenumbered = query::NO_CODE_PAIR;
    let unused = query::NO_DEPENDENCY;
    let unjoined = query::NO_JOIN_DEPENDENCY;
    let vacant = no_place();
    Record {
        relations,
        widths,
        coded: 0,
        codes: [unrenumbered; 16],
        held: 0,
        dependencies: [unused; 32],
        joined: 0,
        joins: [unjoined; 4],
        places: [vacant; 8],
    }
}

// The blank record, all fields 0.
pub fn blank_record() -> Record
    ensures { result ≡ blank_record }
{
    opened(0, [0; 8])
}

// Open a record from relation widths.
pub fn open(widths: &[u8]) -> Outcome
    ensures { outcome_reply result ≡ open_record widths.now }
{
    if 8 < widths.len() {
        return refused(Refusal::BadRelations, blank_record());
    }
    let relations = widths.len() as u8;
    let padded = chains::padded(widths, 0);
    if !limits::relations_good(relations, padded) {
        return refused(Refusal::BadRelations, blank_record());
    }
    done(opened(relations, padded))
}

// Drop a filled place.
// Kept as it is: a place lookup taken apart by `let .. else` is a form of the project's scope; a refused call hands the record back, as `?` cannot.
pub fn drop_query(given: Record, place: usize) -> Outcome
    ensures { outcome_reply result ≡ drop_query given place }
{
    if !given.is_good() {
        return refused(Refusal::BadRecord, given);
    }
    let found = given.filled_place(place);
    let Ok(at) = found else {
        return refused(found.unwrap_err(), given);
    };
    done(with_place(given, at, no_place()))
}

// The columns of a relation that a set of its columns determines.
pub fn determined(given: Record, relation: u8, left: u8) -> Result<Columns, Refusal>
    ensures { columns_reply result ≡ determined_columns given relation left }
{
    if !given.is_good() {
        return Err(Refusal::BadRecord);
    }
    if !given.schema().set_good(relation, left) {
        return Err(Refusal::BadDependency);
    }
    let mask = closure::closed_columns(given.dependencies_held(), relation, left);
    let count = u8::count_ones(mask) as u8;
    Ok(Columns { set: mask, count })
}
