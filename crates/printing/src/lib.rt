// Bytes and decimal numbers, written into a lent buffer. Each function takes the position to write from and returns the one after.
// Kept as it is: a cursor that holds the buffer, or the rest of the buffer handed back, needs a clause in each contract of whose memory it is (a ghost name,
// `Lends`) beside the one of what is written, which the position tells too.
#![tactic(auto)]

ghost use Rattle.std.specs.Prelude.{[], ◌∷◌};
ghost use Rattle.printing.specs.Decimal.{decimal, field};
ghost use Rattle.printing.specs.internal.Writing.{Fits, WrittenAt};

// Writes some bytes.
pub fn put_bytes(buffer: &mut [u8], at: usize, bytes: &[u8]) -> usize
    requires { Fits buffer.old at bytes.now }
    ensures { WrittenAt buffer.old at bytes.now buffer.new result }
{
    let next = at + bytes.len();
    buffer[at..next].copy_from_slice(bytes);
    next
}

// Writes a byte.
pub fn put_byte(buffer: &mut [u8], at: usize, byte: u8) -> usize
    requires { Fits buffer.old at (byte ∷ []) }
    ensures { WrittenAt buffer.old at (byte ∷ []) buffer.new result }
{
    buffer[at] = byte;
    at + 1
}

// Writes a number in decimal.
// Kept as it is: the library prints to a writer that may lack room, or to a text that may be cut; each is a case more, to be ruled out here.
pub fn put_number(buffer: &mut [u8], at: usize, n: usize) -> usize
    requires { Fits buffer.old at (decimal n) }
    ensures { WrittenAt buffer.old at (decimal n) buffer.new result }
{
    if n < 10 {
        return put_byte(buffer, at, b'0' + n as u8);
    }
    let next = put_number(buffer, at, n / 10);
    put_byte(buffer, next, b'0' + (n % 10) as u8)
}

// Writes a word and a number right after it.
pub fn put_field(buffer: &mut [u8], at: usize, word: &[u8], n: usize) -> usize
    requires { Fits buffer.old at (field word.now n) }
    ensures { WrittenAt buffer.old at (field word.now n) buffer.new result }
{
    let next = put_bytes(buffer, at, word);
    put_number(buffer, next, n)
}
