// Testing a database, evaluating a place on it and counting its answers, on files. A refusal leaves every buffer and number that a call is lent as it was;
// working memory too, unless it is for want of room.
// Kept as it is: the C interface lends each number and buffer apart.
#![tactic(auto)]

ghost use Rattle.std.specs.Prelude.{◌≡◌, length};
ghost use Rattle.admission.specs.Conditions.{test_conditions, search_conditions};
ghost use Rattle.refusals.specs.Refusal.{reply_of};
ghost use Rattle.lent_numbers.specs.Lent.{returned, leaves};
ghost use Rattle.database_on_files.specs.Databases.{tested_in, evaluated_in, answers_left, counted_in, UnusedInFile};

use refusals::Refusal;

// Tests a database against the dependencies. Working memory is lent for the tables.
pub fn test_in_file_lent(
    file: &[u8],
    words: &[u32],
    heads: &mut [u32],
    nodes: &mut [u32],
    verdict: &mut u8,
    dependency: &mut usize,
    first: &mut usize,
    second: &mut usize,
    third: &mut usize,
    fourth: &mut usize,
) -> Result<(), Refusal>
    ensures value { returned (reply_of result) ≡ returned (tested_in file.now words.now) }
    ensures verdict_after { verdict.new ≡ leaves (tested_in file.now words.now) (λ t. t.verdict) verdict.old }
    ensures dependency_after { dependency.new ≡ leaves (tested_in file.now words.now) (λ t. t.dependency) dependency.old }
    ensures first_after { first.new ≡ leaves (tested_in file.now words.now) (λ t. t.first) first.old }
    ensures second_after { second.new ≡ leaves (tested_in file.now words.now) (λ t. t.second) second.old }
    ensures third_after { third.new ≡ leaves (tested_in file.now words.now) (λ t. t.third) third.old }
    ensures fourth_after { fourth.new ≡ leaves (tested_in file.now words.now) (λ t. t.fourth) fourth.old }
    ensures unused_in_file { UnusedInFile file.now (λ r. test_conditions r words.now) heads.old heads.new }
    ensures unused_in_file_2 { UnusedInFile file.now (λ r. test_conditions r words.now) nodes.old nodes.new }
{
    let given = file::read_record(file)?;
    let found = database::test_lent(given, words, heads, nodes);
    lent_numbers::leave_test(found, verdict, dependency, first, second, third, fourth)
}

// As `test_in_file_lent`, with working memory of its own.
pub fn test_in_file(
    file: &[u8],
    words: &[u32],
    verdict: &mut u8,
    dependency: &mut usize,
    first: &mut usize,
    second: &mut usize,
    third: &mut usize,
    fourth: &mut usize,
) -> Result<(), Refusal>
    ensures value { returned (reply_of result) ≡ returned (tested_in file.now words.now) }
    ensures verdict_after { verdict.new ≡ leaves (tested_in file.now words.now) (λ t. t.verdict) verdict.old }
    ensures dependency_after { dependency.new ≡ leaves (tested_in file.now words.now) (λ t. t.dependency) dependency.old }
    ensures first_after { first.new ≡ leaves (tested_in file.now words.now) (λ t. t.first) first.old }
    ensures second_after { second.new ≡ leaves (tested_in file.now words.now) (λ t. t.second) second.old }
    ensures third_after { third.new ≡ leaves (tested_in file.now words.now) (λ t. t.third) third.old }
    ensures fourth_after { fourth.new ≡ leaves (tested_in file.now words.now) (λ t. t.fourth) fourth.old }
{
    let given = file::read_record(file)?;
    let found = database::test(given, words);
    lent_numbers::leave_test(found, verdict, dependency, first, second, third, fourth)
}

// Evaluates the query of a place on a database. Working memory is lent for the index, the states of the search, a batch of answers and its sorting.
pub fn evaluate_in_file_lent(
    file: &[u8],
    place: usize,
    words: &[u32],
    answers: &mut [u32],
    index: &mut [u32],
    states: &mut [u32],
    batch: &mut [u32],
    scratch: &mut [u32],
    count: &mut usize,
) -> Result<(), Refusal>
    ensures value { returned (reply_of result) ≡ returned (evaluated_in file.now place words.now (length answers.old)) }
    ensures answers_after { answers.new ≡ answers_left file.now place words.now answers.old }
    ensures count_after { count.new ≡ leaves (evaluated_in file.now place words.now (length answers.old)) (λ n. n)
        count.old }
    ensures unused_in_file { UnusedInFile file.now (λ r. search_conditions r place words.now) index.old index.new }
    ensures unused_in_file_2 { UnusedInFile file.now (λ r. search_conditions r place words.now) states.old states.new }
    ensures unused_in_file_3 { UnusedInFile file.now (λ r. search_conditions r place words.now) batch.old batch.new }
    ensures unused_in_file_4 { UnusedInFile file.now (λ r. search_conditions r place words.now) scratch.old scratch.new }
{
    let given = file::read_record(file)?;
    let done = database::evaluate_lent(given, place, words, answers, index, states, batch, scratch);
    lent_numbers::leave_count(done, count)
}

// As `evaluate_in_file_lent`, with working memory of its own.
pub fn evaluate_in_file(
    file: &[u8],
    place: usize,
    words: &[u32],
    answers: &mut [u32],
    count: &mut usize,
) -> Result<(), Refusal>
    ensures value { returned (reply_of result) ≡ returned (evaluated_in file.now place words.now (length answers.old)) }
    ensures answers_after { answers.new ≡ answers_left file.now place words.now answers.old }
    ensures count_after { count.new ≡ leaves (evaluated_in file.now place words.now (length answers.old)) (λ n. n)
        count.old }
{
    let given = file::read_record(file)?;
    let done = database::evaluate(given, place, words, answers);
    lent_numbers::leave_count(done, count)
}

// Counts the answers of the query of a place on a database. Working memory is lent as for an evaluation.
pub fn count_in_file_lent(
    file: &[u8],
    place: usize,
    words: &[u32],
    index: &mut [u32],
    states: &mut [u32],
    batch: &mut [u32],
    scratch: &mut [u32],
    count: &mut usize,
) -> Result<(), Refusal>
    ensures value { returned (reply_of result) ≡ returned (counted_in file.now place words.now) }
    ensures count_after { count.new ≡ leaves (counted_in file.now place words.now) (λ n. n) count.old }
    ensures unused_in_file { UnusedInFile file.now (λ r. search_conditions r place words.now) index.old index.new }
    ensures unused_in_file_2 { UnusedInFile file.now (λ r. search_conditions r place words.now) states.old states.new }
    ensures unused_in_file_3 { UnusedInFile file.now (λ r. search_conditions r place words.now) batch.old batch.new }
    ensures unused_in_file_4 { UnusedInFile file.now (λ r. search_conditions r place words.now) scratch.old scratch.new }
{
    let given = file::read_record(file)?;
    let done = database::count_lent(given, place, words, index, states, batch, scratch);
    lent_numbers::leave_count(done, count)
}

// As `count_in_file_lent`, with working memory of its own.
pub fn count_in_file(
    file: &[u8],
    place: usize,
    words: &[u32],
    count: &mut usize,
) -> Result<(), Refusal>
    ensures value { returned (reply_of result) ≡ returned (counted_in file.now place words.now) }
    ensures count_after { count.new ≡ leaves (counted_in file.now place words.now) (λ n. n) count.old }
{
    let given = file::read_record(file)?;
    let done = database::count(given, place, words);
    lent_numbers::leave_count(done, count)
}
