// The refusals of a file in their order, and the numbers of one that is accepted.
ghost use Rattle.std.specs.Prelude.{◌≡◌, true};
ghost use Rattle.reference.specs.Refusals.{decide, decision};
ghost use Rattle.dsf.specs.Dsf.{layout, all, fits, right_format, right_sizes};
ghost use Rattle.dsf.specs.Reading.{ReadPromise, HeaderPromise, header_places, file_header};

use crate::DsfHeader;
use crate::bytes::number;
use crate::fields::{at_frequency, laid_out, needs};
use reference::{FRAME_BYTES, PcmError};

// The frequency and whole bytes of samples: else 10.
#[tactic(auto, unfolding(crate::specs::Dsf::sample_count))]
fn right_format(head: &[u8]) -> bool
    ensures { result ≡ right_format head.now }
{
    at_frequency(head) && number(head, 64, 8) % 8 == 0
}

// The stated length, the data chunk's size, and the file's end: else 11.
#[tactic(auto, unfolding(crate::specs::Dsf::stated_length, crate::specs::Dsf::data_size))]
fn right_sizes(head: &[u8], total: u64) -> bool
    requires { all (fits head.now) layout ≡ true }
    ensures { result ≡ right_sizes head.now total }
{
    let need = needs(head);
    number(head, 12, 8) == total && number(head, 84, 8) == 12 + need && 92 + need <= total
}

// 9, 10, 11 of a file with these first bytes and of so many bytes.
#[tactic(auto, using(crate::proofs::Tests::short_head, crate::proofs::Tests::short_file, crate::proofs::Tests::wrong_layout, crate::proofs::Tests::wrong_format, crate::proofs::Tests::wrong_lengths, crate::proofs::Tests::all_right))]
fn tried(head: &[u8], total: u64) -> Result<(), PcmError>
    ensures { decision result ≡ decide (header_places head.now total) }
{
    if head.len() < 92 || total < 92 || !laid_out(head) {
        return Err(PcmError::NotDsf);
    }
    if !right_format(head) {
        return Err(PcmError::DsfFormat);
    }
    if !right_sizes(head, total) {
        return Err(PcmError::DsfLength);
    }
    Ok(())
}

// The numbers in a header.
#[tactic(auto, unfolding(crate::specs::Reading::file_header, crate::specs::Dsf::channel_type, crate::specs::Dsf::channels, crate::specs::Dsf::bits_per_sample, crate::specs::Dsf::sample_count, crate::specs::Dsf::frames, crate::specs::Dsf::frames_in))]
pub fn header_numbers(head: &[u8]) -> DsfHeader
    ensures { result ≡ file_header head.now }
{
    let samples = number(head, 64, 8);
    DsfHeader {
        channel_type: number(head, 48, 4),
        channels: number(head, 52, 4),
        bits_per_sample: number(head, 60, 4),
        samples,
        frames: (samples / 8).div_ceil(FRAME_BYTES as u64),
    }
}

// What a file holds, from its first bytes and its length.
pub fn read_header(head: &[u8], length: u64) -> Result<DsfHeader, PcmError>
    ensures { HeaderPromise head.now «length» result }
{
    tried(head, length)?;
    Ok(header_numbers(head))
}

// What a file holds.
#[tactic(auto, using(crate::proofs::Head::whole_head))]
pub fn read(file: &[u8]) -> Result<DsfHeader, PcmError>
    ensures { ReadPromise file.now result }
{
    read_header(file, file.len() as u64)
}
