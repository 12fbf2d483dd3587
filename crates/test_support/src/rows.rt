// Stored cases: files of hexadecimal numbers, each with one byte behind it.
ghost use Rattle.std.specs.Prelude.{◌≡◌, IfOk, IfSome, is_some, ◌*◌, ◌-◌, ◌/◌, ◌<◌, length, get_or};
ghost use Rattle.std.specs.Simd.{first_chunks};
ghost use Rattle.test_support.specs.inner.Answers as answers;
ghost use Rattle.test_support.specs.inner.Answers.{numbers_behind};

use std::alloc::{AllocError, Global};
use std::rt::Files;
use std::{fs, io};

#[tactic(auto, using(std::proofs::lemmas::Bool::Decides::nat_tests), unfolding(crate::specs::inner::Answers::digit))]
fn digit(b: u8) -> Option<u64>
    ensures { (result ≡ answers.digit b) × IfSome result (λ d. d < 16) }
{
    match b {
        b'0'..=b'9' => Some(u64::from(b - 48)),
        b'a'..=b'f' => Some(u64::from(b - 87)),
        _ => None,
    }
}

fn numbers_of(alloc: Global, text: &[u8]) -> Result<Vec<u64>, AllocError>
    ensures { IfOk result (λ all. all.items ≡ numbers_behind 0 text.now) }
{
    let mut all = Vec::new(alloc);
    let mut n = 0u64;
    for b in text {
        match digit(*b) {
            Some(d) => n = n % 0x1000_0000_0000_0000 * 16 + d,
            None => {
                all.push(n)?;
                n = 0;
            }
        }
    }
    Ok(all)
}

// Whether no byte stands behind a text's last number.
fn ends_within_a_number(text: &[u8]) -> bool
    ensures { result ≡ is_some (answers.digit (get_or text.now (length text.now - 1) 0)) }
{
    let last = text.len().saturating_sub(1);
    digit(*text.get(last).unwrap_or(&0)).is_some()
}

// The bytes of a stored file. That it is not there is said, and it has none then.
pub fn bytes_of<R: Files + Print + AllocGlobal>(rt: &R, path: &str) -> io::Result<Vec<u8>> {
    if fs::exists(rt, path)? {
        return fs::read(rt, path);
    }
    println!(rt; "{path} is missing")?;
    Ok(Vec::new(rt.alloc()))
}

// The numbers of a file. Nothing is said of it, and one that is missing is an error.
pub fn numbers<R: Files + AllocGlobal>(rt: &R, path: &str) -> io::Result<Vec<u64>> {
    let text = fs::read(rt, path)?;
    Ok(numbers_of(rt.alloc(), &text)?)
}

// The numbers of a stored file. That it is missing, or ends within one, is said.
pub fn stored_numbers<R: Files + Print + AllocGlobal>(rt: &R, path: &str) -> io::Result<Vec<u64>> {
    let text = bytes_of(rt, path)?;
    if ends_within_a_number(&text) {
        println!(rt; "{path} has half a number")?;
    }
    Ok(numbers_of(rt.alloc(), &text)?)
}

// The numbers as rows of so many. That a row is not whole is said.
pub fn rows_of<'a, const N: usize>(
    rt: &impl Print,
    name: &str,
    numbers: &'a [u64],
) -> io::Result<&'a [[u64; N]]>
    requires { 0 < N }
    ensures { IfOk result (λ rows. rows.now ≡ first_chunks N (length numbers.now / N) numbers.now) }
{
    let (rows, rest) = numbers.as_chunks::<N>();
    if !rest.is_empty() {
        println!(rt; "{name} has another number of numbers")?;
    }
    Ok(rows)
}

// How many cases there are, and how many are right.
pub fn print_right<T, F: Fn(&T) -> io::Result<bool>>(
    rt: &impl Print,
    name: &str,
    cases: &[T],
    test: F,
) -> io::Result<()>
    requires { F.IsAlwaysCallable test }
{
    let all = cases.len();
    let mut right = 0u64;
    for case in cases {
        right = right.saturating_add(u64::from(test(case)?));
    }
    println!(rt; "{name} {all} right {right}")
}
