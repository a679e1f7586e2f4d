// A query part, read off bytes: a vacant place, or the query that the part holds.
#![tactic(auto)]

ghost use Rattle.std.specs.Prelude.{◌≡◌, true, take};
ghost use Rattle.limits.specs.internal.Schema.{widths_in};
ghost use Rattle.refusals.specs.Refusal.{reply_of};
ghost use Rattle.format.specs.File.{is_vacant, read_place};

use limits::schema::Schema;
use parsing::read_query;
use query::Place;
use record::calls::no_place;
use refusals::Refusal;

// Whether a part is the single byte 255, a vacant place.
fn is_vacant(part: &[u8]) -> bool
    ensures { result ≡ is_vacant part.now }
{
    part == [255].as_slice()
}

// A query part: a vacant place, or a query whose head is safe. The last one is not vacant.
pub fn read_place(part: &[u8], last: bool, schema: Schema) -> Result<Place, Refusal>
    ensures { reply_of result ≡ read_place (widths_in schema) last part.now }
{
    if is_vacant(part) {
        if last {
            return Err(Refusal::BadQuery);
        }
        return Ok(no_place());
    }
    let (query, rest) = read_query(part, schema).ok_or(Refusal::BadQuery)?;
    let safe = schema.head_safe(query);
    // a byte too many is asked before the head is judged
    if !rest.is_empty() {
        return Err(Refusal::BadQuery);
    }
    if safe {
        return Ok(Place {
            filled: true,
            query,
        });
    }
    Err(Refusal::UnsafeHead)
}
