// Reducing the query of one place into a vacant one: read it, chase it, take the core of what that gives, and find a mapping from the query as it was read.
#![tactic(auto)]

ghost use Rattle.std.specs.Prelude.{◌≡◌, ℕ, true, List, map};
ghost use Rattle.lists.specs.Tests.{every, between};
ghost use Rattle.query.specs.Rule.{good_query, head_safe};
ghost use Rattle.query.specs.View.{dependency_of, query_of};
ghost use Rattle.theory.specs.Codes.{CodePair, QueryWithoutOld};
ghost use Rattle.refusals.specs.Refusal.{number_of};
ghost use Rattle.reduction.specs.Reduced.{reduced_reply, refused_reduction, IsReduced, ShortFormStored};
ghost use Rattle.mapping.specs.internal.Mapped.{Storable};
ghost use Rattle.reduction.specs.internal.Steps.{Shortenable, IsShortened, Maps, Reducible};

use query::{Cell, Dependency, Entry, Place, Query};
use record::Record;
use record::calls::with_place;
use refusals::Refusal;
use tableaux::{from_query, to_query};

// What a reduction gives: its answer, the record after it, the number of replacements, and the mapping from the source query to the result.
// Where there is no mapping, its images hold constant 0.
// Kept as it is: a refused call hands the record back, so the record stands beside the answer; what is blank on a refusal is told by its clauses.
#[derive(Clone, Copy)]
pub struct Reduced {
    pub answer: Result<(), Refusal>,
    pub record: Record,
    pub count: u8,
    pub images: [Cell; 96],
}

// A shortened query, the number of replacements, and the mapping from the query as it was. Where there is none, its images hold constant 0.
// Kept as it is: `Reduced` and the call on files give images without a mapping too, as constant 0, so they are no Option.
#[derive(Clone, Copy)]
struct Shortened {
    query: Query,
    count: u8,
    images: [Cell; 96],
}

// A reduction is refused.
fn refused(refusal: Refusal, given: Record) -> Reduced
    ensures { reduced_reply result ≡ refused_reduction given (number_of refusal) }
{
    Reduced {
        answer: Err(refusal),
        record: given,
        count: 0,
        images: [query::NO_CELL; 96],
    }
}

// Each variable of the query goes to itself, and those that it does not have to constant 0.
fn staying(q: Query) -> [Cell; 96] {
    let mut images = [query::NO_CELL; 96];
    for &cell in &q.cells {
        if let Entry::Variable(v) = cell.entry {
            if let Some(image) = images.get_mut(usize::from(v)) {
                *image = cell;
            }
        }
    }
    images
}

// A mapping from one query to another, if there is one. Where both have equally many rows, the variables may stay as they are: that is tested first.
fn mapped(source: Query, target: Query) -> Option<[Cell; 96]>
    requires { Storable source × Storable target }
    ensures { Maps source target result }
{
    if source.size == target.size {
        let images = staying(source);
        if mapping::check(source, target, images) {
            return Some(images);
        }
    }
    mapping::find(source, from_query(target))
}

// Shortens a query: chases it, takes its core, the rows that are kept in their order, and finds a mapping from the query as it was.
fn shorten(q: Query, dependencies: &[Dependency]) -> Shortened
    requires { Shortenable q dependencies.now }
    ensures { (codes : List CodePair) (schema : List ℕ) → every (between 1 8) schema ≡ true → good_query schema q ≡ true → head_safe schema q ≡ true
        → QueryWithoutOld codes (query_of schema q) → IsShortened codes schema (map dependency_of dependencies.now) q result }
{
    let chased = chase::chase(from_query(q), dependencies);
    let query = to_query(chased.query);
    let result = query_core::core_of(query);
    let images = mapped(q, result);
    Shortened {
        query: result,
        count: chased.count,
        images: images.unwrap_or([query::NO_CELL; 96]),
    }
}

// Reduces the query of a filled place, as it is read, into a vacant one.
fn store_reduced(given: Record, source: usize, target: usize) -> Reduced
    requires { Reducible given source target }
    ensures { ShortFormStored given source target result }
{
    let long = given.query(source);
    let shortened = shorten(long, given.dependencies_held());
    let short = shortened.query;
    let images = shortened.images;
    let filled = Place {
        filled: true,
        query: short,
    };
    Reduced {
        answer: Ok(()),
        record: with_place(given, target, filled),
        count: shortened.count,
        images,
    }
}

// Reduces the query at `source` into `target`. A place above 7 is refused before a vacant or a filled one.
// Kept as it is: a lookup answers with the index or a refusal, and `let .. else` takes the index: a refused call hands the record back, as `?` cannot.
pub fn reduce(given: Record, source: usize, target: usize) -> Reduced
    ensures { IsReduced given source target result }
{
    if !given.is_good() {
        return refused(Refusal::BadRecord, given);
    }
    let found = record::calls::place_at(target);
    let Ok(_) = found else {
        return refused(found.unwrap_err(), given);
    };
    let found = given.filled_place(source);
    let Ok(from) = found else {
        return refused(found.unwrap_err(), given);
    };
    let found = given.vacant_place(target);
    let Ok(to) = found else {
        return refused(found.unwrap_err(), given);
    };
    store_reduced(given, from, to)
}
