// Laws that tie the words of the library's chains of iterators to those of specs/, and an array made of a slice.
#![tactic(auto)]

ghost use Rattle.std.specs.Prelude.{◌≡◌, ◌-◌, ◌≤◌, ◌++◌, length, replicate};

// Some elements in an array that has room for them, blank after them.
// Kept as it is: a loop, since the library's copy of a length that is not known calls `memmove`, which an archive for C would need from outside.
pub fn padded<T: Copy, const N: usize>(xs: &[T], blank: T) -> [T; N]
    requires { length xs.now ≤ N }
    ensures { result ≡ xs.now ++ replicate (N - length xs.now) blank }
{
    let mut all = [blank; N];
    for (i, &x) in xs.iter().enumerate() {
        all[i] = x;
    }
    all
}
