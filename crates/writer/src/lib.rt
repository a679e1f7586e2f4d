// The file of a record, written into a lent buffer.
#![tactic(auto)]

ghost use Rattle.std.specs.Prelude.{◌≡◌, true};
ghost use Rattle.record.specs.Rule.{good_record};
ghost use Rattle.refusals.specs.Refusal.{reply_of};
ghost use Rattle.writer.specs.Write.{written, after_writing};

use assembly::{codes_length, joins_length, places_length, put_directory, put_parts, up_to_filled};
use record::Record;
use refusals::Refusal;

// Write a good record: refused, with the buffer unchanged, if the file is longer than the buffer.
pub fn write_good(given: Record, buffer: &mut [u8]) -> Result<usize, Refusal>
    requires { good_record given ≡ true }
    ensures { (reply_of result ≡ written given buffer.old) × (buffer.new ≡ after_writing given buffer.old) }
{
    let schema = given.schema();
    let held = given.held;
    let joined = given.joined;
    let joins = given.joins;
    let n = up_to_filled(given.places);
    let places = &given.places[..n];
    let first = 1 + given.relations as usize + codes_length(given.coded);
    let second = 1 + 3 * (held as usize) + joins_length(joined, joins);
    let others = places_length(places, schema);
    let size = 2 + 4 * (n + 2) + first + second + others;
    if buffer.len() < size {
        return Err(Refusal::BufferTooShort);
    }
    put_directory(buffer, first, second, places, schema);
    put_parts(buffer, 2 + 4 * (n + 2), given, n);
    Ok(size)
}

// Write a record into a lent buffer: a bad record and a file longer than the buffer are refused, with the buffer unchanged.
pub fn write(given: Record, buffer: &mut [u8]) -> Result<usize, Refusal>
    ensures { (reply_of result ≡ written given buffer.old) × (buffer.new ≡ after_writing given buffer.old) }
{
    if !given.is_good() {
        return Err(Refusal::BadRecord);
    }
    write_good(given, buffer)
}
