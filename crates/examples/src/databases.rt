// A database tested, a place evaluated on it, and a record written, with the refusals and their order.
// A line is the call and the answer: the refusal's number; of a test obeys, or the broken dependency with its rows; of an evaluation how many answers
// there are and the first two words of the buffer, which hold 9 before; of writing the file's length. Relation 0 is R with columns a, b.
use example_parts::queries;
use example_parts::queries::{pair, put};
use query::Entry;
use record::Record;
use std::io;
use words::Violation;

// Tests a database.
fn test(rt: &impl Print, r: Record, words: &[u32]) -> io::Result<()> {
    print!(rt; "test: ")?;
    match database::test(r, words) {
        Ok(None) => println!(rt; "obeys"),
        Ok(
            Some(
                Violation::Functional {
                    dependency,
                    first,
                    second,
                },
            ),
        ) => println!(rt; "breaks {dependency} in rows {first} {second}"),
        Ok(Some(Violation::Join { dependency, rows })) => {
            print!(rt; "breaks join {dependency} in rows")?;
            for row in rows {
                print!(rt; " {row}")?;
            }
            println!(rt;)
        }
        Err(refusal) => println!(rt; "{}", u8::from(refusal)),
    }
}

// Evaluates a place, with room for so many words, at most 2.
fn evaluate(
    rt: &impl Print,
    r: Record,
    place: usize,
    words: &[u32],
    room: usize,
) -> io::Result<()> {
    print!(rt; "evaluate {place}: ")?;
    let mut answers = [9; 2];
    match database::evaluate(r, place, words, &mut answers[..room.min(2)]) {
        Ok(count) => print!(rt; "answers {count}")?,
        Err(refusal) => print!(rt; "{}", u8::from(refusal))?,
    }
    println!(rt; ", buffer {} {}", answers[0], answers[1])
}

// Writes a record into a buffer of 64 bytes.
fn write(rt: &impl Print, r: Record) -> io::Result<()> {
    print!(rt; "write: ")?;
    let mut buffer = [0; 64];
    match file::write(r, &mut buffer) {
        Ok(length) => println!(rt; "{length}"),
        Err(refusal) => println!(rt; "{}", u8::from(refusal)),
    }
}

pub fn all(rt: &impl Print) -> io::Result<()> {
    let empty = record_calls::open(&[2]).record;
    write(rt, empty)?;
    let v1 = Entry::Variable(1);
    let r = put(
        queries::dependent(empty),
        0,
        pair(1, v1, 2, v1, Entry::Constant(5)),
    );
    write(rt, r)?;
    write(rt, queries::spoilt(empty))?;
    let good = [0, 3, 5, 0, 1, 5];
    let broken = [0, 1, 5, 0, 3, 5, 0, 1, 6];
    let cut = [0, 1, 5, 0, 1];
    test(rt, r, &good)?;
    test(rt, r, &broken)?;
    test(rt, r, &cut)?;
    test(rt, queries::spoilt(r), &cut)?;
    let unvarying = queries::unvarying(empty);
    write(rt, unvarying)?;
    test(rt, unvarying, &good)?;
    test(rt, unvarying, &broken)?;
    test(rt, unvarying, &[])?;
    let cross = queries::joined(empty);
    let missing = [0, 1, 5, 0, 3, 6];
    write(rt, cross)?;
    test(rt, cross, &good)?;
    test(rt, cross, &missing)?;
    test(rt, queries::joined(r), &missing)?;
    test(rt, queries::joined(r), &broken)?;
    evaluate(rt, r, 0, &good, 2)?;
    evaluate(rt, r, 0, &good, 1)?;
    evaluate(rt, r, 0, &cut, 1)?;
    evaluate(rt, r, 1, &cut, 1)?;
    evaluate(rt, r, 8, &cut, 1)?;
    evaluate(rt, queries::spoilt(r), 8, &cut, 1)
}
