// Two places compared, and a mapping checked, with the refusals and their order.
// A line is the two places and the answer: the refusal's number; contained, with the images of v0, v1, v2 where there is a mapping; or not contained, with the
// number of rows and the first row of the first query, chased; of a check yes or no. Relation 0 is R with columns a, b.
use comparison::Verdict;
use example_parts::queries::{pair, put_all, rows, shown};
use example_parts::{queries, show};
use query::{Cell, Entry};
use record::Record;
use refusals::Refusal;
use std::io;

// Writes a comparison.
fn comparison(rt: &impl Print, compared: Result<Verdict, Refusal>) -> io::Result<()> {
    match compared {
        Ok(Verdict::Never) => print!(rt; " contained, never")?,
        Ok(Verdict::Mapped(images)) => {
            print!(rt; " contained,")?;
            show::images(rt, &images)?;
        }
        Ok(Verdict::Apart(query)) => {
            print!(rt; " not contained, rows {}, first", query.size)?;
            show::cell(rt, query.cells[0])?;
            show::cell(rt, query.cells[1])?;
        }
        Err(refusal) => print!(rt; " {}", u8::from(refusal))?,
    }
    println!(rt;)
}

// R(v0, v0) at 0, R(v0, v1) at 1, never at 2, R(v0, 3), R(v0, 4) at 3, all with an empty head; R(v0, v1), R(v0, v2) with head v0 at 4, R(v0, 3) with that head at 5.
fn filled(r: Record) -> Record {
    let zero = Entry::Constant(0);
    let three = Entry::Constant(3);
    let queries = [
        pair(0, zero, 1, Entry::Variable(0), zero),
        pair(0, zero, 1, Entry::Variable(1), zero),
        pair(0, zero, 0, zero, zero),
        pair(0, zero, 2, three, Entry::Constant(4)),
        pair(1, zero, 2, Entry::Variable(1), Entry::Variable(2)),
        pair(1, zero, 1, three, zero),
    ];
    put_all(r, &queries)
}

// R(v0, v1), R(v2, v3) with head v0, v3 at 0, R(v0, v1) with head v0, v1 at 1; 4 such rows at 2, 5 at 3, never at 4, with an empty head.
fn crossed(r: Record) -> Record {
    let queries = [shown(2, 3), shown(1, 1), rows(4), rows(5), rows(0)];
    put_all(r, &queries)
}

// The comparison of two places.
fn compare_two(rt: &impl Print, r: Record, p: usize, q: usize) -> io::Result<()> {
    print!(rt; "compare {p} {q}:")?;
    comparison(rt, comparison::compare(r, p, q))
}

// Five pairs. The join dependency tells in (0, 1), (2, 4) and (3, 4): a row that it asks for, 16 rows from 4, and a 25th row. A column that never varies
// tells in (0, 1).
fn compare_joined(rt: &impl Print, r: Record) -> io::Result<()> {
    for (p, q) in [(0, 1), (1, 0), (2, 4), (3, 4), (4, 3)] {
        compare_two(rt, r, p, q)?;
    }
    Ok(())
}

// The comparison of place p with each of the places 0 to 8.
fn compare_with(rt: &impl Print, r: Record, p: usize) -> io::Result<()> {
    for q in 0..9 {
        compare_two(rt, r, p, q)?;
    }
    Ok(())
}

// The comparison of each of the places 0 to 8 with each.
fn compare_all(rt: &impl Print, r: Record) -> io::Result<()> {
    for p in 0..9 {
        compare_with(rt, r, p)?;
    }
    Ok(())
}

// The checking, for each of the places 0 to 8 and place q, of the images of v0, v1, v2.
fn check_with(
    rt: &impl Print,
    r: Record,
    q: usize,
    a: Entry,
    b: Entry,
    c: Entry,
) -> io::Result<()> {
    let mut images = [query::NO_CELL; 96];
    images[0] = Cell { entry: a };
    images[1] = Cell { entry: b };
    images[2] = Cell { entry: c };
    for p in 0..9 {
        print!(rt; "check {p} {q}: ")?;
        match comparison::check_mapping(r, p, q, images) {
            Ok(true) => println!(rt; "yes")?,
            Ok(false) => println!(rt; "no")?,
            Err(refusal) => println!(rt; "{}", u8::from(refusal))?,
        }
    }
    Ok(())
}

pub fn all(rt: &impl Print) -> io::Result<()> {
    let zero = Entry::Constant(0);
    let v0 = Entry::Variable(0);
    let opened = record_calls::open(&[2]).record;
    let r = filled(opened);
    compare_all(rt, r)?;
    check_with(rt, r, 1, v0, v0, zero)?;
    check_with(rt, r, 1, v0, v0, v0)?;
    check_with(rt, r, 1, v0, Entry::Constant(3), zero)?;
    check_with(rt, r, 2, zero, zero, zero)?;
    compare_all(rt, queries::dependent(r))?;
    compare_with(rt, queries::spoilt(r), 8)?;
    let pairs = crossed(opened);
    compare_joined(rt, pairs)?;
    compare_joined(rt, queries::joined(pairs))?;
    compare_joined(rt, queries::unvarying(pairs))
}
