// How early an upload can be given up. The definition is in specs/Uploads.
#![tactic(auto)]

ghost use Rattle.std.specs.Prelude.{◌≡◌, true, ◌&&◌, ◌||◌, ◌+◌, ◌*◌, ◌^◌, ◌≤◌, ◌<◌, ltb, leb, length};
ghost use Rattle.reference.specs.Refusals.{decide, is_accepted};
ghost use Rattle.dsf.specs.Dsf.{layout, all, fits};
ghost use Rattle.dsf.specs.Reading.{header_places};
ghost use Rattle.dsf_upload.specs.Uploads.{OfEvery, UploadPromise, HeadPromise};
ghost use Rattle.dsf_upload.specs.Deciding.{head_hopeful};

use dsf::{at_frequency, holds, laid_out, needs, number, read_header};

// The answer for a file: accepted; refused, but a longer file may be accepted; or the length of its shortest hopeless
// beginning.
#[derive(Clone, Copy, PartialEq, Eq)]
pub enum Upload {
    Accepted,
    Unfinished,
    GiveUp(u64),
}

// Whether a beginning of so many bytes and this stated length can go on to a file that needs so many bytes of data. The
// length is there from byte 20 on.
fn has_room(total: u64, stated: u64, need: u64) -> bool
    requires { need ≤ 6 * (2 ^ 61 + 4095) }
    ensures { result ≡ (ltb total 20 || leb (92 + need) stated && leb total stated) }
{
    total < 20 || 92 + need <= stated && total <= stated
}

// Whether a beginning that is laid out, of so many bytes, has an accepted continuation.
#[tactic(auto, using(crate::proofs::Joined::hopeful_is, text::proofs::Bytes::eight_bytes), unfolding(dsf::specs::Dsf::sample_count, dsf::specs::Dsf::stated_length))]
fn goes_on(head: &[u8], total: u64) -> bool
    requires { all (fits head.now) layout ≡ true }
    ensures { result ≡ head_hopeful head.now total }
{
    let need = needs(head);
    let size = (12 + need).to_le_bytes();
    let sized = holds(head, 84, &size);
    let whole = number(head, 64, 8) % 8 == 0;
    let room = has_room(total, number(head, 12, 8), need);
    at_frequency(head) && sized && whole && room
}

// Whether a beginning has an accepted continuation.
#[tactic(auto, using(crate::proofs::Joined::not_laid_out))]
fn may_go_on(head: &[u8], total: u64) -> bool
    ensures { result ≡ head_hopeful head.now total }
{
    laid_out(head) && goes_on(head, total)
}

// Whether the reader accepts a file.
#[tactic(auto, using(crate::proofs::Joined::ok_accepted))]
fn is_accepted(head: &[u8], total: u64) -> bool
    ensures { result ≡ is_accepted (decide (header_places head.now total)) }
{
    read_header(head, total).is_ok()
}

// The answer for a file by its first 92 bytes, or all where it has fewer, and its length.
fn answer(head: &[u8], total: u64) -> Upload
    requires { length head.now < 92 → total ≡ length head.now }
    ensures { OfEvery head.now total result }
{
    if is_accepted(head, total) {
        return Upload::Accepted;
    }
    if may_go_on(head, total) {
        return Upload::Unfinished;
    }
    // No `find`: its closure would have to know by itself that `head` is as long as `size`, which holds as a shorter
    // beginning is hopeless at its whole length or was answered above.
    for k in 0..92 {
        let size = k + 1;
        if !may_go_on(&head[..size], size as u64) {
            return Upload::GiveUp(size as u64);
        }
    }
    let stated = number(head, 12, 8);
    let end = stated + 1;
    Upload::GiveUp(end)
}

// The answer from a file's first bytes and its length.
pub fn give_up_header(head: &[u8], length: u64) -> Upload
    ensures { HeadPromise head.now «length» result }
{
    let known = length.min(head.len() as u64).min(92);
    if known < 92 {
        return answer(&head[..known as usize], known);
    }
    answer(&head[..92], length)
}

// The answer for a file.
pub fn give_up(file: &[u8]) -> Upload
    ensures { UploadPromise file.now result }
{
    give_up_header(file, file.len() as u64)
}
