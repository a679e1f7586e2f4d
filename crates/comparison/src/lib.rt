// Comparing two places of a record, and checking a mapping between their queries.
#![tactic(auto)]

ghost use Rattle.std.specs.Prelude.{◌≡◌, ◌≤◌};
ghost use Rattle.query.specs.View.{entries_of};
ghost use Rattle.comparison.specs.internal.Images.{row_variables, image_read};
ghost use Rattle.limits.specs.internal.Schema.{widths_in};
ghost use Rattle.codes.specs.internal.Codes.{codes_in};
ghost use Rattle.std.proofs.Math.Option.{none};
ghost use Rattle.comparison.specs.Comparison.{pair_refusal, read_images, Compared, ComparisonShape, CheckedMapping};
ghost use Rattle.refusals.specs.Refusal.{reply_of};
ghost use Rattle.comparison.specs.internal.Pairs.{looked_up};

use codes::pairs::Codes;
use limits::schema::Schema;
use query::{Cell, Query, Tableau};
use record::Record;
use record::calls::{place_at, stored};
use refusals::Refusal;
use tableaux::from_query;

// A verdict as a number: not contained.
// Kept as it is: the C interface leaves these numbers.
pub const NOT_CONTAINED: u8 = 0;
// Contained by a mapping.
pub const CONTAINED_BY_MAPPING: u8 = 1;
// Contained because the first query chases to never.
pub const CONTAINED_AS_NEVER: u8 = 2;

// What a comparison says: contained because the first query chases to never, contained by a mapping, or not contained, with the first query, chased.
#[derive(Clone, Copy)]
pub enum Verdict {
    Never,
    Mapped([Cell; 96]),
    Apart(Tableau),
}

// Two places to be read whose heads have one length, or the refusal, in the order of SPECIFICATION, Refusals.
// Kept as it is: a place lookup taken apart by `let .. else` is a form of the project's scope.
fn filled_pair(given: Record, p: usize, q: usize) -> Result<(usize, usize), Refusal>
    ensures { reply_of result ≡ looked_up given p q }
{
    if !given.is_good() {
        return Err(Refusal::BadRecord);
    }
    let found = place_at(p);
    let Ok(_) = found else {
        return Err(found.unwrap_err());
    };
    let found = place_at(q);
    let Ok(_) = found else {
        return Err(found.unwrap_err());
    };
    let found = given.filled_place(p);
    let Ok(first) = found else {
        return Err(found.unwrap_err());
    };
    let found = given.filled_place(q);
    let Ok(second) = found else {
        return Err(found.unwrap_err());
    };
    let a = stored(given, first);
    let b = stored(given, second);
    if a.arity != b.arity {
        return Err(Refusal::HeadsDiffer);
    }
    Ok((first, second))
}

// The comparison of two places that are not refused: the query of the first is chased, that of the second is not.
fn compare_places(given: Record, p: usize, q: usize) -> Result<Verdict, Refusal>
    requires { pair_refusal given p q ≡ none }
    ensures compared { Compared given p q result }
    ensures shape { ComparisonShape result }
{
    let first = given.query(p);
    let second = given.query(q);
    // Kept as it is: widths and join dependencies are sliced here too, and a method for each would be a clause and a proof for two callers.
    let chased = join_chase::chase(
        from_query(first),
        &given.widths[..given.relations as usize],
        &given.dependencies[..given.held as usize],
        &given.joins[..given.joined as usize],
    );
    let query = chased.ok_or(Refusal::TooManyRows)?;
    if query.size == 0 {
        return Ok(Verdict::Never);
    }
    match mapping::find(second, query) {
        Some(images) => Ok(Verdict::Mapped(images)),
        None => Ok(Verdict::Apart(query)),
    }
}

// Whether the query of place p is contained in that of place q.
pub fn compare(given: Record, p: usize, q: usize) -> Result<Verdict, Refusal>
    ensures compared { Compared given p q result }
    ensures shape { ComparisonShape result }
{
    let (first, second) = filled_pair(given, p, q)?;
    compare_places(given, first, second)
}

// The image of variable v under a mapping from a query, as it is read: that of a variable which the query does not have stays.
fn read_image(codes: &Codes, schema: Schema, source: Query, v: u8, image: Cell) -> Cell
    requires { source.size ≤ 12 }
    ensures { result ≡ image_read (codes_in codes.now) (row_variables (widths_in schema) source) v image }
{
    let read = codes.read_cell(image);
    if read == image {
        return image;
    }
    let named = &source.relations[..source.size as usize];
    if schema.rows_have(named, &source.cells, v) {
        read
    } else {
        image
    }
}

// The images of a mapping from a query as they are read.
fn read_images(codes: &Codes, schema: Schema, source: Query, images: [Cell; 96]) -> [Cell; 96]
    requires { source.size ≤ 12 }
    ensures { entries_of result ≡ read_images (codes_in codes.now) (row_variables (widths_in schema) source) 0 (entries_of images) }
{
    let mut all = images;
    for (v, image) in all.iter_mut().enumerate() {
        *image = read_image(codes, schema, source, v as u8, *image);
    }
    all
}

// Whether the images are a mapping from the query of place q to that of place p, which is not chased. Queries and images are as they are read.
pub fn check_mapping(given: Record, p: usize, q: usize, images: [Cell; 96]) -> Result<bool, Refusal>
    ensures { CheckedMapping given p q images result }
{
    let (first, second) = filled_pair(given, p, q)?;
    let target = given.query(first);
    let source = given.query(second);
    let read = read_images(&given.codes(), given.schema(), source, images);
    Ok(mapping::check(source, target, read))
}
