// Turns on boards beside their answers, which compare/turns.py works out turn by turn. A file has a line with the turn
// length and a line FRAMES DUE for each album, a byte '=' and the lines that are to be printed. Boards 97 to 134 are
// none, so that no call is made of them: command/faults tries them, and that the command prints the lines.
use std::alloc::{AllocError, Global};
use std::rt::Files;
use std::{fs, io};

// The numbers of a text, each with one byte behind it. One that is past all ranges stays past them.
fn numbers(alloc: Global, text: &[u8]) -> Result<Vec<u64>, AllocError> {
    let mut all = Vec::new(alloc);
    let mut n = 0u64;
    for b in text {
        match *b {
            b'0'..=b'9' => n = n.saturating_mul(10).saturating_add(u64::from(*b - b'0')),
            _ => {
                all.push(n)?;
                n = 0;
            }
        }
    }
    Ok(all)
}

// The lines of these results.
fn lines(alloc: Global, finishes: &[u64], late: &[i32]) -> Result<String, AllocError> {
    let mut text = String::new(alloc);
    for (a, (finish, late)) in finishes.iter().zip(late).enumerate() {
        let line = format!(in alloc; "album {a} finish {finish} late {late}\n")?;
        text.push_str(&line)?;
    }
    let latest = late.iter().copied().max().unwrap_or(0);
    let line = format!(in alloc; "latest {latest}\n")?;
    text.push_str(&line)?;
    Ok(text)
}

// What a board is answered: its first number is the turn length, then each album's frames and due.
fn answer(alloc: Global, numbers: &[u64]) -> Result<String, AllocError> {
    let turn = numbers.first().copied().unwrap_or(0);
    let albums = test_support::behind(numbers, 1).as_chunks::<2>().0;
    let frames: Vec<u64> = albums.iter().map(|album| album[0]).collect(alloc)?;
    let dues: Vec<u64> = albums.iter().map(|album| album[1]).collect(alloc)?;
    let mut finishes = vec![in alloc; 0u64; albums.len()]?;
    let mut late = vec![in alloc; 0i32; albums.len()]?;
    match schedule::simulate(&frames, &dues, turn, &mut finishes, &mut late) {
        Ok(()) => lines(alloc, &finishes, &late),
        Err(e) => format!(in alloc; "refused {}\n", e.number()),
    }
}

fn board_right<R: Files + AllocGlobal>(rt: &R, k: u64) -> io::Result<bool> {
    let alloc = rt.alloc();
    let path = format!(in alloc; "board{k:03}")?;
    let text = fs::read(rt, path.as_str())?;
    let border = text.iter().position(|b| *b == b'=').unwrap_or(0);
    let numbers = numbers(alloc, &text[..border])?;
    let right = answer(alloc, &numbers)?;
    let lines = test_support::behind(&text, border as u64 + 1);
    Ok(lines == right.as_bytes())
}

pub fn all<R: Files + Print + AllocGlobal>(rt: &R) -> io::Result<()> {
    let boards: Vec<u64> = (1..97).chain(135..195).collect(rt.alloc())?;
    test_support::print_right(rt, "boards", &boards, |k| board_right(rt, *k))
}
