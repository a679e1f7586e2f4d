// The queries that are put, and the records that hold them.
use query::{Cell, Dependency, Entry, JoinDependency, Query};
use record::Record;

// A query of `size` rows R(v0, b), R(v0, c), with a head of `arity` entries, v0 first and the others `shown`.
pub fn pair(arity: u8, shown: Entry, size: u8, b: Entry, c: Entry) -> Query {
    let v0 = Cell {
        entry: Entry::Variable(0),
    };
    let mut q = Query::never(arity);
    q.size = size;
    if 0 < size {
        let head = [v0, Cell { entry: shown }, Cell { entry: shown }];
        let used = usize::from(arity).min(3);
        q.head[..used].copy_from_slice(&head[..used]);
        q.cells[0] = v0;
        q.cells[1] = Cell { entry: b };
    }
    if 1 < size {
        q.cells[8] = v0;
        q.cells[9] = Cell { entry: c };
    }
    q
}

// That many rows R(v0, v1), R(v2, v3) and so on, at most 5, with an empty head.
pub fn rows(size: u8) -> Query {
    let mut q = Query::never(0);
    q.size = size;
    // Kept as it is: i names a row's cells and its variables.
    for i in 0..size.min(5) {
        let at = 8 * usize::from(i);
        q.cells[at].entry = Entry::Variable(2 * i);
        q.cells[at + 1].entry = Entry::Variable(2 * i + 1);
    }
    q
}

// The same with head v0, v.
pub fn shown(size: u8, v: u8) -> Query {
    let mut q = rows(size);
    q.arity = 2;
    q.head[0].entry = Entry::Variable(0);
    q.head[1].entry = Entry::Variable(v);
    q
}

// The record with a query put at a place. Each is put where it is accepted.
pub fn put(r: Record, place: usize, q: Query) -> Record {
    r.put(place, q).record
}

// The record with queries put at its first places.
pub fn put_all(r: Record, queries: &[Query]) -> Record {
    let mut filled = r;
    for (place, q) in queries.iter().enumerate() {
        filled = put(filled, place, *q);
    }
    filled
}

// The record in which column 0 of relation 0 determines column 1.
pub fn dependent(r: Record) -> Record {
    r.add_dependency(Dependency {
        relation: 0,
        left: 1,
        right: 1,
    })
    .record
}

// The record in which column 1 of relation 0 never varies.
pub fn unvarying(r: Record) -> Record {
    r.add_dependency(Dependency {
        relation: 0,
        left: 0,
        right: 1,
    })
    .record
}

// The record in which relation 0 is the join of its columns 0 and 1.
pub fn joined(r: Record) -> Record {
    r.add_join(JoinDependency {
        relation: 0,
        count: 2,
        sets: [1, 2, 0, 0],
    })
    .record
}

// The record with something where no relation is.
pub fn spoilt(r: Record) -> Record {
    let mut after = r;
    after.widths[7] = 1;
    after
}
