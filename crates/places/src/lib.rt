// The query parts of a file, each read as the very stretch of the file that its pair names.
#![tactic(auto)]

ghost use Rattle.std.specs.Prelude.{◌≡◌, true, ◌+◌, ◌-◌, ◌*◌, ◌≤◌, length, take, drop};
ghost use Rattle.limits.specs.internal.Schema.{widths_in};
ghost use Rattle.refusals.specs.Refusal.{reply_of};
ghost use Rattle.format.specs.Bytes.{number};
ghost use Rattle.format.specs.File.{read_places, chained, stretch, stretches};
ghost use Rattle.places.specs.internal.Read.{all_places};

use decoder::read_place;
use limits::schema::Schema;
use parsing::word16;
use query::Place;
use record::calls::no_place;
use refusals::Refusal;

// The stretch of the file that pair k names.
pub fn part(file: &[u8], k: usize) -> &[u8]
    requires k_in_bounds { 6 + 4 * k ≤ length file.now }
    requires file_in_bounds { number 2 (drop (2 + 4 * k) file.now) + number 2 (drop (4 + 4 * k) file.now) ≤ length file.now }
    ensures { result.now ≡ stretch file.now (drop (2 + 4 * k) file.now) }
{
    let offset = word16(file, 2 + 4 * k) as usize;
    let size = word16(file, 4 + 4 * k) as usize;
    let end = offset + size;
    &file[offset..end]
}

// The places of the query parts in file order: parts 2 to n - 1 fill places from 0, and the others are vacant.
// Kept as it is: k names the part, the place two before it, and which part is the last.
pub fn read_places(file: &[u8], n: usize, schema: Schema) -> Result<[Place; 8], Refusal>
    requires le_n { (2 ≤ n) × (n ≤ 10) × (2 + 4 * n ≤ length file.now) }
    requires file_value { chained n (2 + 4 * n) (length file.now) (drop 2 file.now) ≡ true }
    ensures { reply_of result ≡ all_places (read_places (widths_in schema) (stretches (n - 2) file.now (drop 10 file.now))) }
{
    let blank = no_place();
    let mut places = [blank; 8];
    for k in 2..n {
        places[k - 2] = read_place(part(file, k), k + 1 == n, schema)?;
    }
    Ok(places)
}
