// What is said of a stored file that is missing, and of one that ends within a number or within a row of two; and what
// is read of each, also by a reader that says nothing.
use std::rt::Files;
use std::{fs, io};
use test_support::{numbers, rows_of, stored_numbers};

// Whether `numbers`, which asks for no `Print`, reads the same, and gives an error where a file is missing. A pipe
// gives what it has once, and is not read again; nor is a long file, since both lists are held.
pub fn read_alike<R: Files + AllocGlobal>(rt: &R, path: &str, stored: &[u64]) -> bool {
    match fs::metadata(rt, path) {
        Ok(it) => !it.is_file()
            || 65536 < it.len()
            || numbers(rt, path).is_ok_and(|all| &all[..] == stored),
        Err(_) => numbers(rt, path).is_err(),
    }
}

pub fn all<R: Files + Print + AllocGlobal>(rt: &R) -> io::Result<()> {
    let none = stored_numbers(rt, "none")?;
    let half = stored_numbers(rt, "half")?;
    let three = stored_numbers(rt, "three")?;
    let pairs = rows_of::<2>(rt, "three", &three)?;
    let right = none.is_empty()
        && half.len() == 1
        && half[0] == 1
        && pairs.len() == 1
        && pairs[0] == [1, 2]
        && read_alike(rt, "none", &none)
        && read_alike(rt, "half", &half)
        && read_alike(rt, "three", &three)
        && numbers(rt, ".").is_err();
    println!(rt; "stored files read as they are: {right}")
}
