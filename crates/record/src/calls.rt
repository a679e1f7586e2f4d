// Adding a pair of codes or a dependency of either kind and putting a query, as methods: each takes the record by value and hands it back with the answer,
// unchanged where it is refused. And what the other calls share: places looked up, the query of a place as it is read, a record with another content of a place.
ghost use Rattle.std.specs.Prelude.{◌≡◌, ◌<◌, true};
ghost use Rattle.std.proofs.Math.Option.{none, some};
ghost use Rattle.query.specs.Rule.{no_place};
ghost use Rattle.record.specs.Rule.{good_record};
ghost use Rattle.record.specs.Calls.{outcome_reply, concluded, is_filled, stored_at, with_place, with_code, with_dependency, with_join, add_code, add_dependency, add_join, put_query};
ghost use Rattle.refusals.specs.Refusal.{number_of, reply_of};
ghost use Rattle.record.specs.internal.Reading.{ReadAs};
ghost use Rattle.record.specs.internal.Lookup.{place_at, filled_place, vacant_place};

use crate::{Outcome, Record};
use query::{CodePair, Dependency, JoinDependency, Place, Query};
use refusals::Refusal;

// A call is done.
pub fn done(after: Record) -> Outcome
    ensures { outcome_reply result ≡ concluded none after after }
{
    Outcome {
        answer: Ok(()),
        record: after,
    }
}

// A call is refused.
pub fn refused(refusal: Refusal, given: Record) -> Outcome
    ensures { outcome_reply result ≡ concluded (some (number_of refusal)) given given }
{
    Outcome {
        answer: Err(refusal),
        record: given,
    }
}

// The index of a place, or 7.
pub fn place_at(place: usize) -> Result<usize, Refusal>
    ensures { reply_of result ≡ place_at place }
{
    if place < 8 {
        Ok(place)
    } else {
        Err(Refusal::NoSuchPlace)
    }
}

// The query stored at a place.
// Kept as it is: that a place is below 8 is a fact about a number, which the lookup tells; a type of its own would be taken apart at each index.
pub fn stored(given: Record, place: usize) -> Query
    requires { place < 8 }
    ensures { result ≡ stored_at given place }
{
    let at = given.places[place];
    at.query
}

// A vacant place.
pub fn no_place() -> Place
    ensures { result ≡ no_place }
{
    Place {
        filled: false,
        query: Query::never(0),
    }
}

// The record with another content of one place.
pub fn with_place(given: Record, place: usize, p: Place) -> Record
    requires { place < 8 }
    ensures { result ≡ with_place given place p }
{
    let mut next = given;
    next.places[place] = p;
    next
}

// The record with one pair of codes more, after those held.
fn with_code(given: Record, p: CodePair) -> Record
    requires { given.coded < 16 }
    ensures { result ≡ with_code given p }
{
    let coded = given.coded;
    let mut next = given;
    next.codes[coded as usize] = p;
    next.coded = coded + 1;
    next
}

// The record with one functional dependency more, after those held.
// Kept as it is: it differs from `with_join` in the two fields that it changes, and one function for both would have to be given both fields.
fn with_dependency(given: Record, d: Dependency) -> Record
    requires { given.held < 32 }
    ensures { result ≡ with_dependency given d }
{
    let held = given.held;
    let mut next = given;
    next.dependencies[held as usize] = d;
    next.held = held + 1;
    next
}

// The record with one join dependency more, after those held.
fn with_join(given: Record, j: JoinDependency) -> Record
    requires { given.joined < 4 }
    ensures { result ≡ with_join given j }
{
    let joined = given.joined;
    let mut next = given;
    next.joins[joined as usize] = j;
    next.joined = joined + 1;
    next
}

impl Record {
    // The query that a place holds, as it is read.
    pub fn query(self, place: usize) -> Query
        requires { (place < 8) × (good_record self ≡ true) × (is_filled self place ≡ true) }
        ensures { ReadAs self place result }
    {
        self.codes().read_query(self.schema(), stored(self, place))
    }

    // The index of a place to be read or dropped, or 7, or 11.
    pub fn filled_place(self, place: usize) -> Result<usize, Refusal>
        ensures { reply_of result ≡ filled_place self place }
    {
        if 8 <= place {
            return Err(Refusal::NoSuchPlace);
        }
        if self.places[place].filled {
            Ok(place)
        } else {
            Err(Refusal::PlaceVacant)
        }
    }

    // The index of a place to be filled, or 7, or 12.
    pub fn vacant_place(self, place: usize) -> Result<usize, Refusal>
        ensures { reply_of result ≡ vacant_place self place }
    {
        if 8 <= place {
            return Err(Refusal::NoSuchPlace);
        }
        if self.places[place].filled {
            Err(Refusal::PlaceFilled)
        } else {
            Ok(place)
        }
    }

    // Put a query into a vacant place.
    // Kept as it is: a lookup answers with the index or a refusal, and `let .. else` takes the index: a refused call hands the record back, as `?` cannot.
    pub fn put(self, place: usize, q: Query) -> Outcome
        ensures { outcome_reply result ≡ put_query self place q }
    {
        if !self.is_good() {
            return refused(Refusal::BadRecord, self);
        }
        let found = place_at(place);
        let Ok(_) = found else {
            return refused(found.unwrap_err(), self);
        };
        let schema = self.schema();
        if !schema.query_good(q) {
            return refused(Refusal::BadQuery, self);
        }
        if !schema.head_safe(q) {
            return refused(Refusal::UnsafeHead, self);
        }
        let found = self.vacant_place(place);
        let Ok(at) = found else {
            return refused(found.unwrap_err(), self);
        };
        let p = Place {
            filled: true,
            query: q,
        };
        done(with_place(self, at, p))
    }

    // Add a pair of codes after those held.
    pub fn add_code(self, p: CodePair) -> Outcome
        ensures { outcome_reply result ≡ add_code self p }
    {
        let coded = self.coded;
        if !self.is_good() {
            return refused(Refusal::BadRecord, self);
        }
        if !limits::pair_fits(self.codes_held(), p) {
            return refused(Refusal::BadCode, self);
        }
        if coded == 16 {
            return refused(Refusal::CodesFull, self);
        }
        done(with_code(self, p))
    }

    // Add a functional dependency after those held.
    // Kept as it is: `add_join` has another test, other refusals, another room and other fields, so one function for both would be given all that it does.
    pub fn add_dependency(self, d: Dependency) -> Outcome
        ensures { outcome_reply result ≡ add_dependency self d }
    {
        let held = self.held;
        if !self.is_good() {
            return refused(Refusal::BadRecord, self);
        }
        if !self.schema().dependency_good(d) {
            return refused(Refusal::BadDependency, self);
        }
        if held == 32 {
            return refused(Refusal::DependenciesFull, self);
        }
        done(with_dependency(self, d))
    }

    // Add a join dependency after those held.
    pub fn add_join(self, j: JoinDependency) -> Outcome
        ensures { outcome_reply result ≡ add_join self j }
    {
        let joined = self.joined;
        if !self.is_good() {
            return refused(Refusal::BadRecord, self);
        }
        if !self.schema().join_good(j) {
            return refused(Refusal::BadJoin, self);
        }
        if joined == 4 {
            return refused(Refusal::JoinsFull, self);
        }
        done(with_join(self, j))
    }
}
