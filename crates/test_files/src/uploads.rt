// Uploads given up early. A row has the number of a header, what is changed in it (place, number of bytes, bytes), the
// upload's length, and the answer's kind and number. Short uploads are also given whole.
use dsf_upload::Upload;
use std::alloc::Global;
use std::io;
use std::rt::Files;
use test_support::{print_right, put, rows_of, stored_numbers, up_to, words};

const WHOLE: u64 = 65536;

fn told(kind: u64, n: u64) -> Upload {
    match kind {
        0 => Upload::Accepted,
        1 => Upload::Unfinished,
        _ => Upload::GiveUp(n),
    }
}

fn upload_right(alloc: Global, heads: &[[u64; 12]], row: &[u64; 7]) -> io::Result<bool> {
    let [k, at, n, bytes, length, kind, number] = *row;
    let Some(numbers) = heads.get(k as usize) else {
        return Ok(false);
    };
    let mut head = [0u8; 96];
    words(&mut head, numbers);
    put(&mut head, at as usize, up_to(&bytes.to_le_bytes(), n));
    let right = told(kind, number);
    let head = up_to(&head, length.min(92));
    if dsf_upload::give_up_header(head, length) != right {
        return Ok(false);
    }
    if WHOLE < length {
        return Ok(true);
    }
    let mut file = vec![in alloc; 0x69u8; length as usize]?;
    put(&mut file, 0, head);
    Ok(dsf_upload::give_up(&file) == right)
}

pub fn all<R: Files + Print + AllocGlobal>(rt: &R) -> io::Result<()> {
    let alloc = rt.alloc();
    let heads = stored_numbers(rt, "heads")?;
    let heads = rows_of::<12>(rt, "heads", &heads)?;
    let uploads = stored_numbers(rt, "uploads")?;
    print_right(
        rt,
        "uploads",
        rows_of::<7>(rt, "uploads", &uploads)?,
        |row| { upload_right(alloc, heads, row) },
    )
}
