// The calls on the record alone, on files: a record is the bytes of its file, in and out.
// A refusal leaves every buffer and number that a call is lent as it was.
// Kept as it is: the C interface lends each number and buffer apart.
#![tactic(auto)]

ghost use Rattle.std.specs.Prelude.{◌≡◌, true, length};
ghost use Rattle.record.specs.Rule.{good_record};
ghost use Rattle.record.specs.Calls.{outcome_reply, add_join};
ghost use Rattle.format.specs.File.{file_of, read_file};
ghost use Rattle.refusals.specs.Refusal.{reply_of};
ghost use Rattle.lent_numbers.specs.Lent.{fitted, returned, leaves, Wrote};
ghost use Rattle.record_on_files.specs.Records.{result_of, file_fitted, join_with, put_part, copied, opened, added_code, added, added_join, put_in, dropped, determined_in};
ghost use Rattle.record_on_files.specs.internal.Steps.{GoodIfDone};

use lent_numbers::{leave_columns, leave_count};
use query::{CodePair, Dependency, JoinDependency};
use record::calls::refused;
use record::{Outcome, Record};
use refusals::Refusal;
use writer::write_good;

// ---- what is stored

// Writes the file of a record into the buffer and its length into the number.
pub fn store(given: Record, out: &mut [u8], size: &mut usize) -> Result<(), Refusal>
    requires { good_record given ≡ true }
    ensures { Wrote (fitted (length out.old) (file_of given)) out.old size.old (returned (reply_of result)) out.new size.new }
{
    leave_count(write_good(given, out), size)
}

// Stores the record of a call, unless it is refused.
pub fn store_outcome(outcome: Outcome, out: &mut [u8], size: &mut usize) -> Result<(), Refusal>
    requires { GoodIfDone outcome }
    ensures { Wrote (file_fitted (length out.old) (result_of (outcome_reply outcome))) out.old size.old (returned (reply_of result)) out.new size.new }
{
    outcome.answer?;
    store(outcome.record, out, size)
}

// Puts the query of a query part into a vacant place: a place above 7 is refused before a bad part.
pub fn put_part(given: Record, place: usize, part: &[u8]) -> Outcome
    requires { good_record given ≡ true }
    ensures { (result_of (outcome_reply result) ≡ put_part place part.now given) × GoodIfDone result }
{
    if 8 <= place {
        return refused(Refusal::NoSuchPlace, given);
    }
    match decoder::read_place(part, true, given.schema()) {
        Ok(read) => given.put(place, read.query),
        Err(refusal) => refused(refusal, given),
    }
}

// Adds the join dependency on some sets after those held: more than 4 sets make no good one.
pub fn add_sets(given: Record, relation: u8, sets: &[u8]) -> Outcome
    requires { good_record given ≡ true }
    ensures { (outcome_reply result ≡ add_join given (join_with relation sets.now)) × GoodIfDone result }
{
    let count = sets.len();
    if 4 < count {
        return refused(Refusal::BadJoin, given);
    }
    let padded = parsing::read_sets(sets, 0, count);
    let j = JoinDependency {
        relation,
        count: count as u8,
        sets: padded,
    };
    given.add_join(j)
}

// ---- files

// Whether the bytes are a file.
pub fn check_file(file: &[u8]) -> Result<(), Refusal>
    ensures { returned (reply_of result) ≡ returned (read_file file.now) }
{
    file::read_record(file)?;
    Ok(())
}

// Reads a file and writes its record back.
pub fn copy_file(file: &[u8], out: &mut [u8], size: &mut usize) -> Result<(), Refusal>
    ensures { Wrote (copied file.now (length out.old)) out.old size.old (returned (reply_of result)) out.new size.new }
{
    store(file::read_record(file)?, out, size)
}

// ---- the record

// Opens a record from relation widths.
pub fn open_file(widths: &[u8], out: &mut [u8], size: &mut usize) -> Result<(), Refusal>
    ensures { Wrote (opened widths.now (length out.old)) out.old size.old (returned (reply_of result)) out.new size.new }
{
    store_outcome(record_calls::open(widths), out, size)
}

// Adds a pair of codes, an old one and the one that it has now, after those held.
pub fn add_code_in_file(
    file: &[u8],
    old: u32,
    current: u32,
    out: &mut [u8],
    size: &mut usize,
) -> Result<(), Refusal>
    ensures { Wrote (added_code file.now old current (length out.old)) out.old size.old (returned (reply_of result)) out.new size.new }
{
    let given = file::read_record(file)?;
    store_outcome(given.add_code(CodePair { old, current }), out, size)
}

// Adds a functional dependency after those held.
pub fn add_in_file(
    file: &[u8],
    relation: u8,
    left: u8,
    right: u8,
    out: &mut [u8],
    size: &mut usize,
) -> Result<(), Refusal>
    ensures { Wrote (added file.now relation left right (length out.old)) out.old size.old (returned (reply_of result)) out.new size.new }
{
    let given = file::read_record(file)?;
    let d = Dependency {
        relation,
        left,
        right,
    };
    store_outcome(given.add_dependency(d), out, size)
}

// Adds a join dependency, a byte for each set, after those held.
pub fn add_join_in_file(
    file: &[u8],
    relation: u8,
    sets: &[u8],
    out: &mut [u8],
    size: &mut usize,
) -> Result<(), Refusal>
    ensures { Wrote (added_join file.now relation sets.now (length out.old)) out.old size.old (returned (reply_of result))
        out.new size.new }
{
    let given = file::read_record(file)?;
    store_outcome(add_sets(given, relation, sets), out, size)
}

// Puts a query, the bytes of a query part, into a vacant place.
pub fn put_in_file(
    file: &[u8],
    place: usize,
    query: &[u8],
    out: &mut [u8],
    size: &mut usize,
) -> Result<(), Refusal>
    ensures { Wrote (put_in file.now place query.now (length out.old)) out.old size.old (returned (reply_of result))
        out.new size.new }
{
    let given = file::read_record(file)?;
    store_outcome(put_part(given, place, query), out, size)
}

// Drops a filled place.
pub fn drop_in_file(
    file: &[u8],
    place: usize,
    out: &mut [u8],
    size: &mut usize,
) -> Result<(), Refusal>
    ensures { Wrote (dropped file.now place (length out.old)) out.old size.old (returned (reply_of result)) out.new
        size.new }
{
    let given = file::read_record(file)?;
    store_outcome(record_calls::drop_query(given, place), out, size)
}

// The columns that a left set determines, bit c for column c, and their number.
pub fn determined_in_file(
    file: &[u8],
    relation: u8,
    left: u8,
    columns: &mut u8,
    count: &mut u8,
) -> Result<(), Refusal>
    ensures value { returned (reply_of result) ≡ returned (determined_in file.now relation left) }
    ensures columns_after { columns.new ≡ leaves (determined_in file.now relation left) (λ s. s.0) columns.old }
    ensures count_after { count.new ≡ leaves (determined_in file.now relation left) (λ s. s.1) count.old }
{
    let given = file::read_record(file)?;
    leave_columns(
        record_calls::determined(given, relation, left),
        columns,
        count,
    )
}
