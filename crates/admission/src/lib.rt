// Whether a test or an evaluation of a database may go ahead: what is asked before the rows of the database are looked at.
#![tactic(auto)]

ghost use Rattle.std.specs.Prelude.{◌≡◌};
ghost use Rattle.refusals.specs.Refusals.{first_holding, reply};
ghost use Rattle.refusals.specs.Refusal.{reply_of};
ghost use Rattle.admission.specs.Conditions.{test_conditions};
ghost use Rattle.admission.specs.internal.Places.{evaluable_at};

use record::Record;
use refusals::Refusal;

// Whether the words can be tested against the dependencies of the record, or the refusal.
pub fn testable(given: Record, words: &[u32]) -> Result<(), Refusal>
    ensures { reply_of result ≡ reply (first_holding (test_conditions given words.now)) tt }
{
    if !given.is_good() {
        return Err(Refusal::BadRecord);
    }
    let widths = given.widths;
    let n = given.relations as usize;
    if !words::spelled(&widths[..n], words) {
        return Err(Refusal::BadDatabase);
    }
    Ok(())
}

// The place whose query is to be evaluated on the words, or the refusal.
pub fn evaluable(given: Record, place: usize, words: &[u32]) -> Result<usize, Refusal>
    ensures { reply_of result ≡ evaluable_at given place words.now }
{
    if !given.is_good() {
        return Err(Refusal::BadRecord);
    }
    // Kept as it is: a place lookup taken apart by `let .. else` is a form of the project's scope.
    let found = given.filled_place(place);
    let Ok(at) = found else {
        return found;
    };
    let widths = given.widths;
    let n = given.relations as usize;
    if words::spelled(&widths[..n], words) {
        Ok(at)
    } else {
        Err(Refusal::BadDatabase)
    }
}
