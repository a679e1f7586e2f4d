// The listing of a file, written into a lent buffer: `refused n`, or the lines of each filled place, reduced in a copy of the record from which every other
// place is dropped.
#![tactic(auto)]

ghost use Rattle.std.specs.Prelude.{◌≡◌, true, ◌*◌, ◌≤◌, ◌<◌, length};
ghost use Rattle.record.specs.Rule.{good_record};
ghost use Rattle.record.specs.Calls.{is_filled};
ghost use Rattle.text.specs.internal.Listable.{place_room};
ghost use Rattle.report.specs.Report.{IsReport};
ghost use Rattle.report.specs.internal.Places.{alone_in, other_place, LinesWritten, PlaceWritten, ListingWritten, Room};

use record::Record;

// The record with every place but one dropped.
fn alone(given: Record, place: usize) -> Record
    requires { place < 8 }
    ensures { result ≡ alone_in given place }
{
    let mut places = [record::calls::no_place(); 8];
    places[place] = given.places[place];
    Record { places, ..given }
}

// Whether a place is filled.
fn is_filled(given: Record, place: usize) -> bool
    requires { place < 8 }
    ensures { result ≡ is_filled given place }
{
    given.places[place].filled
}

// Another place than the given one.
fn other_place(place: usize) -> usize
    requires { place < 8 }
    ensures { result ≡ other_place place }
{
    usize::from(place == 0)
}

// Writes the lines of a filled place: its reduction in the record without the other places.
fn write_lines(buffer: &mut [u8], at: usize, given: Record, place: usize) -> usize
    requires { Room buffer.old at × (good_record given ≡ true) × (place < 8) × (is_filled given place ≡ true) }
    ensures { LinesWritten given place buffer.old at buffer.new result }
{
    let target = other_place(place);
    let single = alone(given, place);
    // As it is stored: the lines are of its rows and its variables, which reading its codes keeps.
    let source = record::calls::stored(given, place);
    let reduced = reduction::reduce(single, place, target);
    let after = reduced.record;
    let result = record::calls::stored(after, target);
    text::write_place(
        buffer,
        at,
        place,
        given.schema(),
        source,
        result,
        reduced.count,
        reduced.images,
    )
}

// Writes the lines of a place, none where it is vacant.
fn write_place(buffer: &mut [u8], at: usize, given: Record, place: usize) -> usize
    requires { Room buffer.old at × (good_record given ≡ true) × (place < 8) }
    ensures { PlaceWritten given place buffer.old at buffer.new result }
{
    if is_filled(given, place) {
        return write_lines(buffer, at, given, place);
    }
    at
}

// Writes the lines of every filled place, ascending.
// Kept as it is: `place` is the number of a place, which is listed and which the calls of the record take, and goes through nothing here.
fn write_places(buffer: &mut [u8], given: Record) -> usize
    requires { (8 * place_room ≤ length buffer.old) × (good_record given ≡ true) }
    ensures { ListingWritten given buffer.old buffer.new result }
{
    let mut next: usize = 0;
    for place in 0..8 {
        next = write_place(buffer, next, given, place);
    }
    next
}

// Writes the listing of a file at the start of the buffer, and returns its length.
pub fn report(file: &[u8], buffer: &mut [u8]) -> usize
    requires { 8 * place_room ≤ length buffer.old }
    ensures { IsReport file.now buffer.old buffer.new result }
{
    match file::read_record(file) {
        Ok(given) => write_places(buffer, given),
        Err(refusal) => text::write_refused(buffer, 0, u8::from(refusal)),
    }
}
