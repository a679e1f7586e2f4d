// The calls on the record alone: limits, refusals and their order, determined columns.
// A line is the call with the number of the case, and the answer: done, or the refusal's number, or a set of columns (bit c for column c) and its size.
// Relation 0 is R with columns a, b, and relation 1 is S with columns a, b, c.
use example_parts::queries;
use query::{Cell, Dependency, Entry, JoinDependency, NO_DEPENDENCY, Query};
use record::{Outcome, Record};
use std::io;

// Writes an answer, and hands on the record.
fn answer(rt: &impl Print, outcome: Outcome) -> io::Result<Record> {
    match outcome.answer {
        Ok(()) => println!(rt; "done")?,
        Err(refusal) => println!(rt; "{}", u8::from(refusal))?,
    }
    Ok(outcome.record)
}

// Open with 0 to 9 widths.
fn open_counts(rt: &impl Print) -> io::Result<()> {
    let widths = [1; 9];
    for n in 0..10 {
        print!(rt; "open, widths {n}: ")?;
        answer(rt, record_calls::open(&widths[..n]))?;
    }
    Ok(())
}

// Open with a width of 0 to 9.
fn open_widths(rt: &impl Print) -> io::Result<()> {
    for w in 0..10 {
        print!(rt; "open, width {w}: ")?;
        answer(rt, record_calls::open(&[2, w]))?;
    }
    Ok(())
}

// The queries of the cases, each with an empty head and one row R(0, 0) but for what is said of it.
fn cases() -> [Query; 16] {
    let seven = Cell {
        entry: Entry::Constant(7),
    };
    let mut one = Query::never(0);
    one.size = 1;
    let mut cases = [one; 16];
    // as many rows as there is room for, and one more
    cases[0].size = 12;
    cases[1].size = 13;
    // the last variable, and the one after it
    cases[2].cells[0].entry = Entry::Variable(95);
    cases[3].cells[0].entry = Entry::Variable(96);
    // the last constant, and the one after it
    cases[4].cells[0].entry = Entry::Constant(2147483647);
    cases[5].cells[0].entry = Entry::Constant(2147483648);
    // never, head length 0
    cases[6] = Query::never(0);
    // past the row's columns
    cases[7].cells[2] = seven;
    // past the rows
    cases[8].cells[8] = seven;
    cases[9].relations[11] = 1;
    // past the head
    cases[10].head[0] = seven;
    // a head too long
    cases[11].arity = 9;
    // an unknown relation
    cases[12].relations[0] = 2;
    // a head variable in no row
    cases[13].arity = 1;
    cases[13].head[0].entry = Entry::Variable(1);
    // never with head length 8, as it is and with a head entry
    cases[14] = Query::never(8);
    cases[15] = Query::never(8);
    cases[15].head[0] = seven;
    cases
}

// Put the query of each case at a place. Where the record is good and the place vacant, 5 is given for 1, 3, 5, 7 to 12 and 15, and 6 for 13.
fn puts(rt: &impl Print, r: Record, place: usize) -> io::Result<()> {
    for (case, q) in cases().iter().enumerate() {
        print!(rt; "put {case}: ")?;
        answer(rt, r.put(place, *q))?;
    }
    Ok(())
}

// Drop places 0 to 9.
fn drops(rt: &impl Print, r: Record) -> io::Result<()> {
    for place in 0..10 {
        print!(rt; "drop {place}: ")?;
        answer(rt, record_calls::drop_query(r, place))?;
    }
    Ok(())
}

// a to b of S, b to c of S, dependencies without a left column, and some that are refused.
fn dependencies() -> [Dependency; 9] {
    let a_to_b = Dependency {
        relation: 1,
        left: 1,
        right: 1,
    };
    [
        a_to_b,
        // b to c
        Dependency {
            left: 2,
            right: 2,
            ..a_to_b
        },
        // an unknown relation
        Dependency {
            relation: 2,
            ..a_to_b
        },
        // b of S never varies
        Dependency { left: 0, ..a_to_b },
        // left column 3
        Dependency { left: 8, ..a_to_b },
        // right column 3
        Dependency { right: 3, ..a_to_b },
        // a of R never varies: zeros, which are a dependency where they are counted
        NO_DEPENDENCY,
        // an unknown relation, without a left column
        Dependency {
            relation: 2,
            ..NO_DEPENDENCY
        },
        // right column 2 of R, without a left column
        Dependency {
            right: 2,
            ..NO_DEPENDENCY
        },
    ]
}

// Add the dependency of each case. Where the record is good, 4 is given for 2, 4, 5, 7 and 8; the others are added, or give 13 where 32 are held.
fn adds(rt: &impl Print, r: Record) -> io::Result<()> {
    for (case, d) in dependencies().iter().enumerate() {
        print!(rt; "add {case}: ")?;
        answer(rt, r.add_dependency(*d))?;
    }
    Ok(())
}

// The record with b to c and a to b added 16 times each, so that 32 are held.
fn full(rt: &impl Print, r: Record) -> io::Result<Record> {
    let dependencies = dependencies();
    let mut grown = r;
    // Kept as it is: case numbers what is printed and says which of two is added.
    for case in 0..32usize {
        print!(rt; "add to {case}: ")?;
        grown = answer(rt, grown.add_dependency(dependencies[1 - case % 2]))?;
    }
    Ok(grown)
}

// The record with b to c, and b and the a of R that never vary.
fn unvarying(r: Record) -> Record {
    let dependencies = dependencies();
    let mut grown = r;
    for case in [1, 3, 6] {
        grown = grown.add_dependency(dependencies[case]).record;
    }
    grown
}

// a b and b c of S, the same with two sets more, and join dependencies that are refused.
fn join_dependencies() -> [JoinDependency; 9] {
    let two = JoinDependency {
        relation: 1,
        count: 2,
        sets: [3, 6, 0, 0],
    };
    [
        two,
        // b c once more, and a
        JoinDependency {
            count: 4,
            sets: [3, 6, 6, 1],
            ..two
        },
        // an unknown relation
        JoinDependency { relation: 2, ..two },
        // one set, of all columns
        JoinDependency {
            count: 1,
            sets: [7, 0, 0, 0],
            ..two
        },
        // five sets
        JoinDependency { count: 5, ..two },
        // an empty set
        JoinDependency {
            sets: [0, 6, 0, 0],
            ..two
        },
        // column 3
        JoinDependency {
            sets: [11, 6, 0, 0],
            ..two
        },
        // a in no set
        JoinDependency {
            sets: [2, 6, 0, 0],
            ..two
        },
        // past the sets
        JoinDependency {
            sets: [3, 6, 1, 0],
            ..two
        },
    ]
}

// Add the join dependency of each case. Where the record is good and holds fewer than 4, 15 is given for 2 to 8.
// Kept as it is: `adds` calls another method with cases of another type, and a closure for both would take as many lines.
fn joins(rt: &impl Print, r: Record) -> io::Result<()> {
    for (case, j) in join_dependencies().iter().enumerate() {
        print!(rt; "join {case}: ")?;
        answer(rt, r.add_join(*j))?;
    }
    Ok(())
}

// The record with the first two join dependencies added twice each, so that 4 are held.
// Kept as it is: `full` calls another method with cases of another type, as `adds` does.
fn joined(rt: &impl Print, r: Record) -> io::Result<Record> {
    let dependencies = join_dependencies();
    let mut grown = r;
    // Kept as it is: case numbers what is printed and says which of two is added.
    for case in 0..4usize {
        print!(rt; "join to {case}: ")?;
        grown = answer(rt, grown.add_join(dependencies[case % 2]))?;
    }
    Ok(grown)
}

// The columns of a relation that each of its sets, and the empty one, determines.
fn determined(rt: &impl Print, r: Record, relation: u8) -> io::Result<()> {
    for left in 0..9 {
        print!(rt; "determined by {left}: ")?;
        match record_calls::determined(r, relation, left) {
            Ok(columns) => println!(rt; "set {}, columns {}", columns.set, columns.count)?,
            Err(refusal) => println!(rt; "{}", u8::from(refusal))?,
        }
    }
    Ok(())
}

pub fn all(rt: &impl Print) -> io::Result<()> {
    open_counts(rt)?;
    open_widths(rt)?;
    let r = record_calls::open(&[2, 3]).record;
    puts(rt, r, 0)?;
    puts(rt, r, 8)?;
    adds(rt, r)?;
    joins(rt, r)?;
    let filled = queries::put(r, 7, cases()[0]);
    puts(rt, filled, 7)?;
    drops(rt, filled)?;
    let grown = full(rt, r)?;
    adds(rt, grown)?;
    determined(rt, grown, 1)?;
    determined(rt, grown, 0)?;
    determined(rt, grown, 2)?;
    let never_varies = unvarying(r);
    determined(rt, never_varies, 1)?;
    determined(rt, never_varies, 0)?;
    let four = joined(rt, grown)?;
    joins(rt, four)?;
    adds(rt, four)?;
    determined(rt, four, 1)?;
    let broken = queries::spoilt(r);
    puts(rt, broken, 8)?;
    drops(rt, broken)?;
    adds(rt, broken)?;
    joins(rt, broken)?;
    determined(rt, broken, 1)
}
