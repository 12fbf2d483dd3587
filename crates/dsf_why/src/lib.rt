// Why a DSF file is refused: the first wrong field, what stands there, and what is asked.
#![tactic(auto)]

ghost use Rattle.std.specs.Prelude.{◌≡◌, true, ◌+◌, ◌%◌, map, option_map, ◌≤◌, length};
ghost use Rattle.dsf.specs.Dsf.{all, fits, layout, sample_count, stated_length, data_size};
ghost use Rattle.dsf_why.specs.inner.Fields.{field_of};
ghost use Rattle.dsf_why.specs.Why as spelled;
ghost use Rattle.dsf_why.specs.Why.{first_unfit, of_field, why_of};
ghost use Rattle.dsf_why.specs.inner.Why.{all_readable};

use dsf::number;
use table::{Field, LAYOUT, fits};

mod table;

// Where a field stands in the file, the number that stands there, and the number that is asked.
#[derive(Clone, Copy)]
pub struct Why {
    pub place: u64,
    pub value: u64,
    pub asked: u64,
}

fn wrong(place: u64, value: u64, asked: u64) -> Why
    ensures { result ≡ spelled.why place value asked }
{
    Why {
        place,
        value,
        asked,
    }
}

// What stands in a field, and its first value.
fn told(head: &[u8], field: &Field) -> Why
    requires { (field.now.start ≤ 92) × (1 ≤ length field.now.values.now) × (length (spelled.first_value (field_of field.now)) ≤ 8) }
    ensures { result ≡ of_field head.now (field_of field.now) }
{
    let asked = field.values[0];
    let size = asked.len();
    let value = number(head, field.start, size);
    wrong(field.start as u64, value, number(asked, 0, size))
}

// The first of some fields of which a file has no value.
fn unfit(head: &[u8], fields: &[Field]) -> Option<Why>
    requires { all_readable (map field_of fields.now) ≡ true }
    ensures { result ≡ option_map (of_field head.now) (first_unfit head.now (map field_of fields.now)) }
{
    for field in fields {
        if !fits(head, field) {
            return Some(told(head, field));
        }
    }
    None
}

// The first wrong field of the layout.
fn layout(head: &[u8]) -> Option<Why>
    ensures { result ≡ option_map (of_field head.now) (first_unfit head.now layout) }
{
    unfit(head, &LAYOUT)
}

// The first wrong number of a file that is laid out: the frequency, the samples, and the lengths.
#[tactic(auto, unfolding(crate::specs::Why::why_laid_out, dsf::specs::Dsf::sample_count, dsf::specs::Dsf::stated_length, dsf::specs::Dsf::data_size))]
fn numbers(head: &[u8], length: u64) -> Why
    requires { all (fits head.now) layout ≡ true }
    ensures { result ≡ spelled.why_laid_out head.now «length» }
{
    let need = dsf::needs(head);
    let samples = number(head, 64, 8);
    let stated = number(head, 12, 8);
    let size = number(head, 84, 8);
    if !dsf::at_frequency(head) {
        return wrong(56, number(head, 56, 4), 2822400);
    }
    if samples % 8 != 0 {
        return wrong(64, samples, 8);
    }
    if stated != length {
        return wrong(12, stated, length);
    }
    if size != 12 + need {
        return wrong(84, size, 12 + need);
    }
    if length < 92 + need {
        return wrong(92, length, 92 + need);
    }
    wrong(0, 0, 0)
}

// Why a file of so many bytes is refused, by its first bytes.
#[tactic(auto, unfolding(crate::specs::Why::why_of))]
pub fn why_of(head: &[u8], length: u64) -> Why
    ensures { result ≡ why_of head.now «length» }
{
    let known = length.min(head.len() as u64);
    if known < 92 {
        return wrong(92, known, 92);
    }
    match layout(head) {
        Some(found) => found,
        None => numbers(head, length),
    }
}
