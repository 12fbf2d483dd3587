// Bytes out of a seed, parts of lists, digests.
ghost use Rattle.std.specs.Prelude.{◌≡◌, ◌/◌, ◌%◌, take};
ghost use Rattle.test_support.specs.inner.Answers.{following, digest_on};

// The next number of a sequence below 2^32, and the byte that it stands for.
pub fn next(x: u64) -> u64
    ensures { result ≡ following x }
{
    (x % 0x1_0000_0000 * 1664525 + 1013904223) % 0x1_0000_0000
}

pub fn top(x: u64) -> u8
    ensures { result ≡ x / 16777216 % 256 }
{
    (x / 0x100_0000 % 256) as u8
}

// The bytes that a seed stands for.
pub fn fill(seed: u64, bytes: &mut [u8]) {
    let mut x = seed;
    for place in bytes {
        x = next(x);
        *place = top(x);
    }
}

// A list put into another from a place on, as far as both go.
pub fn put(bytes: &mut [u8], at: usize, s: &[u8]) {
    for (place, b) in bytes.iter_mut().skip(at).zip(s) {
        *place = *b;
    }
}

// The bytes of numbers of eight bytes each, lowest first, as far as both go.
pub fn words(bytes: &mut [u8], numbers: &[u64]) {
    for (place, n) in bytes.as_chunks_mut::<8>().0.iter_mut().zip(numbers) {
        *place = n.to_le_bytes();
    }
}

pub fn digest(bytes: &[u8]) -> u64
    ensures { result ≡ digest_on 0 bytes.now }
{
    let mut h = 0u64;
    for b in bytes {
        h = (h % 4294967291 * 1664525 + u64::from(*b) + 1) % 4294967291;
    }
    h
}

// The first n of a list, or all.
pub fn up_to<T>(s: &[T], n: u64) -> &[T]
    ensures { result.now ≡ take n s.now }
{
    &s[..s.len().min(n as usize)]
}

// What stands behind the first n.
pub fn behind<T>(s: &[T], n: u64) -> &[T] {
    &s[s.len().min(n as usize)..]
}
