// Reading from a reader, which may give its bytes in pieces of any size; the buffer of three frames moved on; and the
// beginning of a text passed to a writer.
#![tactic(auto)]

ghost use Rattle.std.specs.Prelude.{◌≡◌, ◌+◌, ◌*◌, ◌<◌, ◌≤◌, length, take, drop, IfOk, IfSome};
ghost use Rattle.std.specs.Io.KnownBytes.{Appends, Consumes, IsAtEnd, ReadConsumes};
ghost use Rattle.level_input.specs.inner.Lines.{LineCame};
ghost use Rattle.level_input.specs.inner.Moved.{moved_on};

use std::io;
use std::io::{Read, Write};

// One read into the slice from place n on: how many bytes came, at least one, or none where the input has ended. An
// error is that of the read.
pub fn read_some<R: Read>(from: &mut R, bytes: &mut [u8], n: usize) -> io::Result<usize>
    requires { n < length bytes.old }
    ensures fits { IfOk result (λ more. n + more ≤ length bytes.old) }
    ensures bytes { ReadConsumes (R.remaining from.old) (R.remaining from.new) result (drop n bytes.new) }
    ensures kept { take n bytes.new ≡ take n bytes.old }
{
    from.read(&mut bytes[n..])
}

// Reads until the slice is full, the input ends or a read fails: how many bytes came. Fewer than asked for mean that
// the input has ended.
pub fn fill<R: Read>(from: &mut R, bytes: &mut [u8]) -> io::Result<usize>
    ensures fits { IfOk result (λ n. n ≤ length bytes.old) }
    ensures bytes { IfOk result (λ n. Consumes (R.remaining from.old) (R.remaining from.new) (take n bytes.new)) }
    ensures end { IfOk result (λ n. n < length bytes.old → IsAtEnd (R.remaining from.new)) }
{
    let mut n = 0;
    // By as many bytes as a read gives: no step is that of a `for`.
    while n < bytes.len() {
        let more = read_some(from, bytes, n)?;
        if more == 0 {
            return Ok(n);
        }
        n += more;
    }
    Ok(n)
}

// Reads a line byte by byte, and no byte past its newline or past the slice: how many bytes stand before the newline,
// where it came.
pub fn read_line<R: Read>(from: &mut R, line: &mut [u8]) -> io::Result<Option<usize>>
    ensures fits { IfOk result (λ came. IfSome came (λ n. n ≤ length line.old)) }
    ensures line { IfOk result (LineCame line.new (R.remaining from.old) (R.remaining from.new)) }
{
    for n in 0..line.len() {
        let got = fill(from, &mut line[n..n + 1])?;
        if got == 0 {
            return Ok(None);
        }
        if line[n] == b'\n' {
            return Ok(Some(n));
        }
    }
    Ok(None)
}

// Moves the frames one place to the front.
#[tactic(auto, using(crate::proofs::Moving::all_moved))]
pub fn move_on(three: &mut [u8], size: usize)
    requires { length three.old ≡ 3 * size }
    ensures { three.new ≡ moved_on size three.old }
{
    three.copy_within(size.., 0);
}

// Writes the first n bytes of a text.
pub fn write_first<W: Write>(to: &mut W, text: &[u8], n: usize) -> io::Result<()>
    requires { n ≤ length text.now }
    ensures wrote { IfOk result (λ _. Appends (W.contents to.old) (W.contents to.new) (take n text.now)) }
{
    to.write_all(&text[..n])
}
