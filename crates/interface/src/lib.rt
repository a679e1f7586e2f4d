// The calls of SPECIFICATION for programs in other languages, on numbers, bytes and words: a record is the bytes of its file, in and out.
// Each returns 0, or the number of the refusal, which leaves every buffer and number that it is lent as it was; working memory too, unless the number is 10.
// Kept as it is: the C interface lends each number and buffer apart.
#![tactic(auto)]

ghost use Rattle.std.specs.Prelude.{◌≡◌, length};
ghost use Rattle.format.specs.File.{read_file};
ghost use Rattle.lent_numbers.specs.Lent.{returned, leaves, Wrote};
ghost use Rattle.record_on_files.specs.Records.{copied, opened, added_code, added, added_join, put_in, dropped, determined_in};
ghost use Rattle.reduction_on_files.specs.Shortening.{ReduceGives};
ghost use Rattle.comparison_on_files.specs.Queries.{CompareGives, checked_in, bit};
ghost use Rattle.admission.specs.Conditions.{test_conditions, search_conditions};
ghost use Rattle.database_on_files.specs.Databases.{tested_in, evaluated_in, answers_left, counted_in, UnusedInFile};

use lent_numbers::number_of;

// ---- files

// Whether the bytes are a file.
#[unsafe(no_mangle)]
pub extern "C" fn spernevan_read(file: &[u8]) -> u8
    ensures { result ≡ returned (read_file file.now) }
{
    number_of(record_on_files::check_file(file))
}

// Reads a file and writes its record back.
#[unsafe(no_mangle)]
pub extern "C" fn spernevan_write(file: &[u8], out: &mut [u8], size: &mut usize) -> u8
    ensures { Wrote (copied file.now (length out.old)) out.old size.old result out.new size.new }
{
    number_of(record_on_files::copy_file(file, out, size))
}

// ---- the record

// Opens a record from relation widths.
#[unsafe(no_mangle)]
pub extern "C" fn spernevan_open(widths: &[u8], out: &mut [u8], size: &mut usize) -> u8
    ensures { Wrote (opened widths.now (length out.old)) out.old size.old result out.new size.new }
{
    number_of(record_on_files::open_file(widths, out, size))
}

// Adds a pair of codes, an old one and the one that it has now, after those held.
#[unsafe(no_mangle)]
pub extern "C" fn spernevan_add_code(
    file: &[u8],
    old: u32,
    current: u32,
    out: &mut [u8],
    size: &mut usize,
) -> u8
    ensures { Wrote (added_code file.now old current (length out.old)) out.old size.old result out.new size.new }
{
    number_of(record_on_files::add_code_in_file(file, old, current, out, size))
}

// Adds a functional dependency after those held.
#[unsafe(no_mangle)]
pub extern "C" fn spernevan_add(
    file: &[u8],
    relation: u8,
    left: u8,
    right: u8,
    out: &mut [u8],
    size: &mut usize,
) -> u8
    ensures { Wrote (added file.now relation left right (length out.old)) out.old size.old result out.new size.new }
{
    number_of(record_on_files::add_in_file(file, relation, left, right, out, size))
}

// Adds a join dependency, a byte for each set, after those held.
#[unsafe(no_mangle)]
pub extern "C" fn spernevan_add_join(
    file: &[u8],
    relation: u8,
    sets: &[u8],
    out: &mut [u8],
    size: &mut usize,
) -> u8
    ensures { Wrote (added_join file.now relation sets.now (length out.old)) out.old size.old result
        out.new size.new }
{
    number_of(record_on_files::add_join_in_file(file, relation, sets, out, size))
}

// Puts a query, the bytes of a query part, into a vacant place.
#[unsafe(no_mangle)]
pub extern "C" fn spernevan_put(
    file: &[u8],
    place: usize,
    query: &[u8],
    out: &mut [u8],
    size: &mut usize,
) -> u8
    ensures { Wrote (put_in file.now place query.now (length out.old)) out.old size.old result
        out.new size.new }
{
    number_of(record_on_files::put_in_file(file, place, query, out, size))
}

// Drops a filled place.
#[unsafe(no_mangle)]
pub extern "C" fn spernevan_drop(file: &[u8], place: usize, out: &mut [u8], size: &mut usize) -> u8
    ensures { Wrote (dropped file.now place (length out.old)) out.old size.old result out.new
        size.new }
{
    number_of(record_on_files::drop_in_file(file, place, out, size))
}

// The columns that a left set determines, bit c for column c, and their number.
#[unsafe(no_mangle)]
pub extern "C" fn spernevan_determined(
    file: &[u8],
    relation: u8,
    left: u8,
    columns: &mut u8,
    count: &mut u8,
) -> u8
    ensures value { result ≡ returned (determined_in file.now relation left) }
    ensures columns_after { columns.new ≡ leaves (determined_in file.now relation left) (λ s. s.0) columns.old }
    ensures count_after { count.new ≡ leaves (determined_in file.now relation left) (λ s. s.1) count.old }
{
    number_of(record_on_files::determined_in_file(file, relation, left, columns, count))
}

// ---- queries

// Reduces the query of one place into another.
#[unsafe(no_mangle)]
pub extern "C" fn spernevan_reduce(
    file: &[u8],
    source: usize,
    target: usize,
    out: &mut [u8],
    size: &mut usize,
    count: &mut u8,
    mapping: &mut [u32],
) -> u8
    ensures { ReduceGives file.now source target out.old size.old count.old mapping.old result
        out.new size.new count.new mapping.new }
{
    number_of(reduction_on_files::reduce_in_file(file, source, target, out, size, count, mapping))
}

// Compares the queries of two places.
#[unsafe(no_mangle)]
pub extern "C" fn spernevan_compare(
    file: &[u8],
    p: usize,
    q: usize,
    verdict: &mut u8,
    mapping: &mut [u32],
    query: &mut [u8],
    size: &mut usize,
) -> u8
    ensures { CompareGives file.now p q verdict.old mapping.old query.old size.old result
        verdict.new mapping.new query.new size.new }
{
    number_of(comparison_on_files::compare_in_file(file, p, q, verdict, mapping, query, size))
}

// Checks a mapping from the query of place q to that of place p.
#[unsafe(no_mangle)]
pub extern "C" fn spernevan_check(
    file: &[u8],
    p: usize,
    q: usize,
    mapping: &[u32],
    verdict: &mut u8,
) -> u8
    ensures value { result ≡ returned (checked_in file.now p q mapping.now) }
    ensures verdict_after { verdict.new ≡ leaves (checked_in file.now p q mapping.now) bit verdict.old }
{
    number_of(comparison_on_files::check_in_file(file, p, q, mapping, verdict))
}

// ---- databases

// Tests a database against the dependencies.
#[unsafe(no_mangle)]
pub extern "C" fn spernevan_test(
    file: &[u8],
    words: &[u32],
    verdict: &mut u8,
    dependency: &mut usize,
    first: &mut usize,
    second: &mut usize,
    third: &mut usize,
    fourth: &mut usize,
) -> u8
    ensures value { result ≡ returned (tested_in file.now words.now) }
    ensures verdict_after { verdict.new ≡ leaves (tested_in file.now words.now) (λ t. t.verdict) verdict.old }
    ensures dependency_after { dependency.new ≡ leaves (tested_in file.now words.now) (λ t. t.dependency) dependency.old }
    ensures first_after { first.new ≡ leaves (tested_in file.now words.now) (λ t. t.first) first.old }
    ensures second_after { second.new ≡ leaves (tested_in file.now words.now) (λ t. t.second) second.old }
    ensures third_after { third.new ≡ leaves (tested_in file.now words.now) (λ t. t.third) third.old }
    ensures fourth_after { fourth.new ≡ leaves (tested_in file.now words.now) (λ t. t.fourth) fourth.old }
{
    number_of(database_on_files::test_in_file(
        file, words, verdict, dependency, first, second, third, fourth,
    ))
}

// Tests a database against the dependencies, with lent working memory.
#[unsafe(no_mangle)]
pub extern "C" fn spernevan_test_lent(
    file: &[u8],
    words: &[u32],
    heads: &mut [u32],
    nodes: &mut [u32],
    verdict: &mut u8,
    dependency: &mut usize,
    first: &mut usize,
    second: &mut usize,
    third: &mut usize,
    fourth: &mut usize,
) -> u8
    ensures value { result ≡ returned (tested_in file.now words.now) }
    ensures verdict_after { verdict.new ≡ leaves (tested_in file.now words.now) (λ t. t.verdict) verdict.old }
    ensures dependency_after { dependency.new ≡ leaves (tested_in file.now words.now) (λ t. t.dependency) dependency.old }
    ensures first_after { first.new ≡ leaves (tested_in file.now words.now) (λ t. t.first) first.old }
    ensures second_after { second.new ≡ leaves (tested_in file.now words.now) (λ t. t.second) second.old }
    ensures third_after { third.new ≡ leaves (tested_in file.now words.now) (λ t. t.third) third.old }
    ensures fourth_after { fourth.new ≡ leaves (tested_in file.now words.now) (λ t. t.fourth) fourth.old }
    ensures unused_in_file { UnusedInFile file.now (λ r. test_conditions r words.now) heads.old heads.new }
    ensures unused_in_file_2 { UnusedInFile file.now (λ r. test_conditions r words.now) nodes.old nodes.new }
{
    number_of(database_on_files::test_in_file_lent(
        file, words, heads, nodes, verdict, dependency, first, second, third, fourth,
    ))
}

// Evaluates the query of a place on a database.
#[unsafe(no_mangle)]
pub extern "C" fn spernevan_evaluate(
    file: &[u8],
    place: usize,
    words: &[u32],
    answers: &mut [u32],
    count: &mut usize,
) -> u8
    ensures value { result ≡ returned (evaluated_in file.now place words.now (length answers.old)) }
    ensures answers_after { answers.new ≡ answers_left file.now place words.now answers.old }
    ensures count_after { count.new ≡ leaves (evaluated_in file.now place words.now (length answers.old)) (λ n. n)
        count.old }
{
    number_of(database_on_files::evaluate_in_file(file, place, words, answers, count))
}

// Evaluates the query of a place on a database, with lent working memory.
#[unsafe(no_mangle)]
pub extern "C" fn spernevan_evaluate_lent(
    file: &[u8],
    place: usize,
    words: &[u32],
    answers: &mut [u32],
    index: &mut [u32],
    states: &mut [u32],
    batch: &mut [u32],
    scratch: &mut [u32],
    count: &mut usize,
) -> u8
    ensures value { result ≡ returned (evaluated_in file.now place words.now (length answers.old)) }
    ensures answers_after { answers.new ≡ answers_left file.now place words.now answers.old }
    ensures count_after { count.new ≡ leaves (evaluated_in file.now place words.now (length answers.old)) (λ n. n)
        count.old }
    ensures unused_in_file { UnusedInFile file.now (λ r. search_conditions r place words.now) index.old index.new }
    ensures unused_in_file_2 { UnusedInFile file.now (λ r. search_conditions r place words.now) states.old states.new }
    ensures unused_in_file_3 { UnusedInFile file.now (λ r. search_conditions r place words.now) batch.old batch.new }
    ensures unused_in_file_4 { UnusedInFile file.now (λ r. search_conditions r place words.now) scratch.old scratch.new }
{
    number_of(database_on_files::evaluate_in_file_lent(
        file, place, words, answers, index, states, batch, scratch, count,
    ))
}

// Counts the answers of the query of a place on a database.
#[unsafe(no_mangle)]
pub extern "C" fn spernevan_count(file: &[u8], place: usize, words: &[u32], count: &mut usize) -> u8
    ensures value { result ≡ returned (counted_in file.now place words.now) }
    ensures count_after { count.new ≡ leaves (counted_in file.now place words.now) (λ n. n) count.old }
{
    number_of(database_on_files::count_in_file(file, place, words, count))
}

// Counts the answers of the query of a place on a database, with lent working memory.
#[unsafe(no_mangle)]
pub extern "C" fn spernevan_count_lent(
    file: &[u8],
    place: usize,
    words: &[u32],
    index: &mut [u32],
    states: &mut [u32],
    batch: &mut [u32],
    scratch: &mut [u32],
    count: &mut usize,
) -> u8
    ensures value { result ≡ returned (counted_in file.now place words.now) }
    ensures count_after { count.new ≡ leaves (counted_in file.now place words.now) (λ n. n) count.old }
    ensures unused_in_file { UnusedInFile file.now (λ r. search_conditions r place words.now) index.old index.new }
    ensures unused_in_file_2 { UnusedInFile file.now (λ r. search_conditions r place words.now) states.old states.new }
    ensures unused_in_file_3 { UnusedInFile file.now (λ r. search_conditions r place words.now) batch.old batch.new }
    ensures unused_in_file_4 { UnusedInFile file.now (λ r. search_conditions r place words.now) scratch.old scratch.new }
{
    number_of(database_on_files::count_in_file_lent(
        file, place, words, index, states, batch, scratch, count,
    ))
}
