// One place reduced into another, and the refusals with their order.
// A line is the source, the target and the answer: the refusal's number; never, with the length of the head; or the number of rows, the first row, the head's
// first two entries and the images of v0, v1, v2; then the number of replacements. Relation 0 is R with columns a, b.
use example_parts::queries::{pair, put_all};
use example_parts::{queries, show};
use query::{Entry, Query};
use record::Record;
use reduction::Reduced;
use std::io;

// Writes a query: never, or its number of rows, its first row and its head.
fn result(rt: &impl Print, q: &Query) -> io::Result<()> {
    if q.size == 0 {
        return print!(rt; " never, head length {}", q.arity);
    }
    print!(rt; " rows {}, first", q.size)?;
    show::cell(rt, q.cells[0])?;
    show::cell(rt, q.cells[1])?;
    print!(rt; ", head length {}", q.arity)?;
    show::cell(rt, q.head[0])?;
    show::cell(rt, q.head[1])
}

// Writes a reduction into a place.
fn reduced(rt: &impl Print, o: Reduced, target: usize) -> io::Result<()> {
    if let Err(refusal) = o.answer {
        return println!(rt; " {}", u8::from(refusal));
    }
    if let Some(place) = o.record.places.get(target) {
        result(rt, &place.query)?;
    }
    print!(rt; ",")?;
    show::images(rt, &o.images)?;
    println!(rt; ", replaced {}", o.count)
}

// R(v0, v1), R(v0, v2) with head v0 at 0, and with head v0, v2 at 1; R(v0, 3), R(v0, 4) with a head of length 3 at 2; R(v0, v1) twice with head v0, v1 at 3;
// R(v0, v1), R(v0, v2) with an empty head at 4; never with a head of length 3 at 5. Places 6 and 7 are vacant.
fn filled(r: Record) -> Record {
    let v0 = Entry::Variable(0);
    let v1 = Entry::Variable(1);
    let v2 = Entry::Variable(2);
    let zero = Entry::Constant(0);
    let queries = [
        pair(1, zero, 2, v1, v2),
        pair(2, v2, 2, v1, v2),
        pair(3, v0, 2, Entry::Constant(3), Entry::Constant(4)),
        pair(2, v1, 2, v1, v1),
        pair(0, zero, 2, v1, v2),
        pair(3, zero, 0, zero, zero),
    ];
    put_all(r, &queries)
}

// The reduction of one place into another.
fn reduce(rt: &impl Print, r: Record, source: usize, target: usize) -> io::Result<()> {
    print!(rt; "reduce {source} {target}:")?;
    reduced(rt, reduction::reduce(r, source, target), target)
}

// The reduction of each of the places 0 to 8 into the vacant place 7, into itself and into a place above 7.
fn reduce_all(rt: &impl Print, r: Record) -> io::Result<()> {
    for source in 0..9 {
        for target in [7, source, 8] {
            reduce(rt, r, source, target)?;
        }
    }
    Ok(())
}

pub fn all(rt: &impl Print) -> io::Result<()> {
    let r = filled(record_calls::open(&[2]).record);
    reduce_all(rt, r)?;
    reduce_all(rt, queries::dependent(r))?;
    reduce(rt, queries::spoilt(r), 8, 8)?;
    let crossed = put_all(record_calls::open(&[2]).record, &[queries::shown(2, 3)]);
    reduce(rt, crossed, 0, 1)?;
    reduce(rt, queries::unvarying(crossed), 0, 1)
}
