// What a call on a file leaves in the numbers that it is lent: the parts of its answer, or, on a refusal, what they were; and the number that it returns.
// Kept as it is: these fill numbers that are lent, since the calls of the C interface lend them.
#![tactic(auto)]

ghost use Rattle.std.specs.Prelude.{◌≡◌};
ghost use Rattle.refusals.specs.Refusal.{reply_of};
ghost use Rattle.record_calls.specs.Calls.{columns_reply};
ghost use Rattle.lent_numbers.specs.Lent.{returned, leaves};
ghost use Rattle.lent_numbers.specs.internal.Results.{test_result};

use record_calls::Columns;
use refusals::Refusal;
use words::Violation;

// Gives 0 where a call is done, or the number of the refusal.
pub fn number_of(answer: Result<(), Refusal>) -> u8
    ensures { result ≡ returned (reply_of answer) }
{
    match answer {
        Ok(()) => 0,
        Err(refusal) => u8::from(refusal),
    }
}

// Leaves a count: the length of what was written, or the number of answers.
pub fn leave_count(counted: Result<usize, Refusal>, count: &mut usize) -> Result<(), Refusal>
    ensures value { returned (reply_of result) ≡ returned (reply_of counted) }
    ensures count_after { count.new ≡ leaves (reply_of counted) (λ n. n) count.old }
{
    let n = counted?;
    *count = n;
    Ok(())
}

// Leaves the columns that a left set determines, and how many they are.
pub fn leave_columns(
    found: Result<Columns, Refusal>,
    columns: &mut u8,
    count: &mut u8,
) -> Result<(), Refusal>
    ensures value { returned (reply_of result) ≡ returned (columns_reply found) }
    ensures columns_after { columns.new ≡ leaves (columns_reply found) (λ s. s.0) columns.old }
    ensures count_after { count.new ≡ leaves (columns_reply found) (λ s. s.1) count.old }
{
    let determined = found?;
    *columns = determined.set;
    *count = determined.count;
    Ok(())
}

// Leaves what a test says.
// Kept as it is: the refusal has an arm of its own, which a must-fail edit of the project replaces; `match tested?` would have none.
pub fn leave_test(
    tested: Result<Option<Violation>, Refusal>,
    verdict: &mut u8,
    dependency: &mut usize,
    first: &mut usize,
    second: &mut usize,
    third: &mut usize,
    fourth: &mut usize,
) -> Result<(), Refusal>
    ensures value { returned (reply_of result) ≡ returned (test_result tested) }
    ensures verdict_after { verdict.new ≡ leaves (test_result tested) (λ t. t.verdict) verdict.old }
    ensures dependency_after { dependency.new ≡ leaves (test_result tested) (λ t. t.dependency) dependency.old }
    ensures first_after { first.new ≡ leaves (test_result tested) (λ t. t.first) first.old }
    ensures second_after { second.new ≡ leaves (test_result tested) (λ t. t.second) second.old }
    ensures third_after { third.new ≡ leaves (test_result tested) (λ t. t.third) third.old }
    ensures fourth_after { fourth.new ≡ leaves (test_result tested) (λ t. t.fourth) fourth.old }
{
    match tested {
        Ok(None) => {
            *verdict = 1;
            *dependency = 0;
            *first = 0;
            *second = 0;
            *third = 0;
            *fourth = 0;
            Ok(())
        }
        Ok(
            Some(
                Violation::Functional {
                    dependency: k,
                    first: i,
                    second: j,
                },
            ),
        ) => {
            *verdict = 0;
            *dependency = k;
            *first = i;
            *second = j;
            *third = 0;
            *fourth = 0;
            Ok(())
        }
        Ok(
            Some(
                Violation::Join {
                    dependency: k,
                    rows,
                },
            ),
        ) => {
            *verdict = 2;
            *dependency = k;
            *first = rows[0];
            *second = rows[1];
            *third = rows[2];
            *fourth = rows[3];
            Ok(())
        }
        Err(why) => Err(why),
    }
}
