// Demand 1: every call is refused in the order of refusals and then hands back what it was given; otherwise it leaves what is due.
ghost use Rattle.admission.specs.Conditions.{test_conditions, search_conditions};
ghost use Rattle.database.specs.Calls.{UnusedIfRefused};
ghost use Rattle.demands.specs.Demand1Calls.{OpenMeets, AddCodeMeets, AddMeets, AddJoinMeets, PutMeets, DropMeets, DeterminedMeets, CompareMeets, CheckMeets, ReduceMeets};
ghost use Rattle.demands.specs.Demand1Calls.{TestMeets, EvaluateMeets, CountMeets, ReadMeets, ReadRecordMeets, WriteMeets};

use comparison::Verdict;
use query::{Cell, CodePair, Dependency, JoinDependency, Query};
use record::{Outcome, Record};
use record_calls::Columns;
use reduction::Reduced;
use refusals::Refusal;
use words::Violation;

// ---- the record

// Opens a record from relation widths.
pub fn open(widths: &[u8]) -> Outcome
    ensures { OpenMeets widths.now result }
{
    record_calls::open(widths)
}

// Adds a pair of codes.
pub fn add_code(given: Record, p: CodePair) -> Outcome
    ensures { AddCodeMeets given p result }
{
    given.add_code(p)
}

// Adds a functional dependency.
pub fn add(given: Record, d: Dependency) -> Outcome
    ensures { AddMeets given d result }
{
    given.add_dependency(d)
}

// Adds a join dependency.
pub fn add_join(given: Record, j: JoinDependency) -> Outcome
    ensures { AddJoinMeets given j result }
{
    given.add_join(j)
}

// Puts a query into a vacant place.
pub fn put(given: Record, place: usize, q: Query) -> Outcome
    ensures { PutMeets given place q result }
{
    given.put(place, q)
}

// Drops the query of a filled place.
pub fn drop_query(given: Record, place: usize) -> Outcome
    ensures { DropMeets given place result }
{
    record_calls::drop_query(given, place)
}

// The columns that a left set determines.
pub fn determined(given: Record, relation: u8, left: u8) -> Result<Columns, Refusal>
    ensures { DeterminedMeets given relation left result }
{
    record_calls::determined(given, relation, left)
}

// ---- queries

// Compares the queries of two places.
pub fn compare(given: Record, p: usize, q: usize) -> Result<Verdict, Refusal>
    ensures { CompareMeets given p q result }
{
    comparison::compare(given, p, q)
}

// Checks a mapping from the query of place q to that of place p.
pub fn check(given: Record, p: usize, q: usize, images: [Cell; 96]) -> Result<bool, Refusal>
    ensures { CheckMeets given p q images result }
{
    comparison::check_mapping(given, p, q, images)
}

// Reduces the query of one place into another.
pub fn reduce(given: Record, source: usize, target: usize) -> Reduced
    ensures { ReduceMeets given source target result }
{
    reduction::reduce(given, source, target)
}

// ---- databases

// Tests a database against the dependencies.
pub fn test(given: Record, words: &[u32]) -> Result<Option<Violation>, Refusal>
    ensures { TestMeets given words.now result }
{
    database::test(given, words)
}

// The same in lent tables, which a refused test leaves as they were.
// Kept as it is: the C interface lends each buffer apart.
pub fn test_lent(
    given: Record,
    words: &[u32],
    heads: &mut [u32],
    nodes: &mut [u32],
) -> Result<Option<Violation>, Refusal>
    ensures test_meets { TestMeets given words.now result }
    ensures unused_if_refused { UnusedIfRefused (test_conditions given words.now) heads.old heads.new }
    ensures unused_if_refused_2 { UnusedIfRefused (test_conditions given words.now) nodes.old nodes.new }
{
    database::test_lent(given, words, heads, nodes)
}

// Evaluates the query of a place on a database.
pub fn evaluate(
    given: Record,
    place: usize,
    words: &[u32],
    buffer: &mut [u32],
) -> Result<usize, Refusal>
    ensures { EvaluateMeets given place words.now buffer.old buffer.new result }
{
    database::evaluate(given, place, words, buffer)
}

// The same in lent memory, which is as it was after every refusal but 10.
// Kept as it is: the C interface lends each buffer apart.
pub fn evaluate_lent(
    given: Record,
    place: usize,
    words: &[u32],
    buffer: &mut [u32],
    index: &mut [u32],
    states: &mut [u32],
    batch: &mut [u32],
    scratch: &mut [u32],
) -> Result<usize, Refusal>
    ensures evaluate_meets { EvaluateMeets given place words.now buffer.old buffer.new result }
    ensures unused_if_refused { UnusedIfRefused (search_conditions given place words.now) index.old index.new }
    ensures unused_if_refused_2 { UnusedIfRefused (search_conditions given place words.now) states.old states.new }
    ensures unused_if_refused_3 { UnusedIfRefused (search_conditions given place words.now) batch.old batch.new }
    ensures unused_if_refused_4 { UnusedIfRefused (search_conditions given place words.now) scratch.old scratch.new }
{
    database::evaluate_lent(given, place, words, buffer, index, states, batch, scratch)
}

// Counts the answers of the query of a place on a database.
pub fn count(given: Record, place: usize, words: &[u32]) -> Result<usize, Refusal>
    ensures { CountMeets given place words.now result }
{
    database::count(given, place, words)
}

// The same in lent memory, which is as it was after every refusal but 10.
// Kept as it is: the C interface lends each buffer apart.
pub fn count_lent(
    given: Record,
    place: usize,
    words: &[u32],
    index: &mut [u32],
    states: &mut [u32],
    batch: &mut [u32],
    scratch: &mut [u32],
) -> Result<usize, Refusal>
    ensures count_meets { CountMeets given place words.now result }
    ensures unused_if_refused { UnusedIfRefused (search_conditions given place words.now) index.old index.new }
    ensures unused_if_refused_2 { UnusedIfRefused (search_conditions given place words.now) states.old states.new }
    ensures unused_if_refused_3 { UnusedIfRefused (search_conditions given place words.now) batch.old batch.new }
    ensures unused_if_refused_4 { UnusedIfRefused (search_conditions given place words.now) scratch.old scratch.new }
{
    database::count_lent(given, place, words, index, states, batch, scratch)
}

// ---- files

// Reads a file.
pub fn read(file: &[u8]) -> Outcome
    ensures { ReadMeets file.now result }
{
    file::read(file)
}

// Reads a file: its record alone, or the refusal.
pub fn read_record(file: &[u8]) -> Result<Record, Refusal>
    ensures { ReadRecordMeets file.now result }
{
    file::read_record(file)
}

// Writes a record into a lent buffer.
pub fn write(given: Record, buffer: &mut [u8]) -> Result<usize, Refusal>
    ensures { WriteMeets given buffer.old buffer.new result }
{
    file::write(given, buffer)
}
