// Why a call is refused (SPECIFICATION, Refusals), and its number. specs/Refusals has a name for each number and the order in which they are asked.
#![tactic(auto)]

ghost use Rattle.std.specs.Prelude.{◌≡◌};

// Why a call is refused, each case with its number.
#[derive(Clone, Copy, PartialEq, Eq)]
pub enum Refusal {
    // a file under 2 bytes, a wrong number of parts, or pairs that do not fit
    BadDirectory = 1,
    // a pair of the directory breaks the rule of offsets
    BadOffsets = 2,
    // relations break the record's rule
    BadRelations = 3,
    // a functional dependency, or a relation or set asked of, breaks the record's rule
    BadDependency = 4,
    // a query breaks the record's rule
    BadQuery = 5,
    // a head variable stands in no row
    UnsafeHead = 6,
    // a place above 7
    NoSuchPlace = 7,
    // the lengths of two heads differ
    HeadsDiffer = 8,
    // a database row of an unknown relation, or one that is cut short
    BadDatabase = 9,
    // answers or a file longer than the lent buffer
    BufferTooShort = 10,
    // the place to be read or dropped is vacant
    PlaceVacant = 11,
    // the place to be filled is filled
    PlaceFilled = 12,
    // as many functional dependencies are held as there is room for
    DependenciesFull = 13,
    // the record breaks its rule
    BadRecord = 14,
    // a join dependency breaks the record's rule
    BadJoin = 15,
    // as many join dependencies are held as there is room for
    JoinsFull = 16,
    // the chase of a comparison would have more rows than there is room for
    TooManyRows = 17,
    // a pair of codes breaks the record's rule
    BadCode = 18,
    // as many pairs of codes are held as there is room for
    CodesFull = 19,
}

impl From<Refusal> for u8 {
    ghost use Rattle.refusals.specs.Refusal.{number_of};

    ghost from_gives = { λ r n. n ≡ number_of r };

    // The number of a refusal.
    fn from(refusal: Refusal) -> u8 {
        refusal as u8
    }
}
