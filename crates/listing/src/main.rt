// Lists a file: reads standard input, its first 65,536 bytes if it is longer, and writes its listing to standard output.
#![tactic(auto)]

ghost use Rattle.std.specs.Prelude.{◌≤◌, length, IfOk};

use std::io;
use std::io::Read;

// Reads until the buffer is full or the input ends, and returns how many bytes it has read.
// Kept as it is: a `while`, since each turn reads on from where the one before it ended; of `read_exact` nothing is said where the input is shorter.
fn read_full(input: &mut impl Read, buffer: &mut [u8]) -> io::Result<usize>
    ensures { IfOk result (λ n. n ≤ length buffer.new) }
{
    let mut n = 0;
    while n < buffer.len() {
        let more = input.read(&mut buffer[n..])?;
        if more == 0 {
            break;
        }
        n += more;
    }
    Ok(n)
}

// Writes the listing of a file to standard output: 21,616 bytes are room for the longest.
// It has no `ensures`, since there is nothing that one could name: no clause says which bytes reach or leave the system. `read_full` promises how many bytes
// it has put into the buffer, not that they are the input's, and `write_all` nothing of what it has written. Between them stands `report::report`, which
// promises `IsReport` of these bytes.
fn write_listing(rt: &HostRuntime, file: &[u8]) -> io::Result<()> {
    let mut listing = [0u8; 21616];
    let end = report::report(file, &mut listing);
    rt.write_all(&listing[..end])
}

// The same for a file that is longer than any that is not refused: what has been read of it, and the rest up to 65,536 bytes.
fn write_long(rt: &HostRuntime, first: &[u8; 4575]) -> io::Result<()> {
    let mut file = [0u8; 65536];
    let (head, rest) = file.split_at_mut(4575);
    head.copy_from_slice(first);
    let more = read_full(&mut rt.stdin(), rest)?;
    write_listing(rt, &file[..4575 + more])
}

// A file that is not refused has at most 4,574 bytes: no more room is made for it.
fn main(rt: HostRuntime) -> io::Result<()> {
    let mut file = [0u8; 4575];
    let n = read_full(&mut rt.stdin(), &mut file)?;
    if n == 4575 {
        return write_long(&rt, &file);
    }
    write_listing(&rt, &file[..n])
}
