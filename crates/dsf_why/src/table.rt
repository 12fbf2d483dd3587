// The fields of refusal 9 as a table, in the order in which they stand.
ghost use Rattle.std.specs.Prelude.{◌≡◌};
ghost use Rattle.dsf.specs.Dsf.{fits};
ghost use Rattle.dsf_why.specs.inner.Fields.{field_of};

// A field of the header: where it stands, and the values that it may have.
pub struct Field {
    pub start: usize,
    pub values: &'static [&'static [u8]],
}

// The fields of refusal 9. Of them the channel type with its channels, and bits per sample, have more values than one.
pub const LAYOUT: [Field; 11] = [
    Field {
        start: 0,
        values: &[b"DSD "],
    },
    Field {
        start: 4,
        values: &[b"\x1c\0\0\0\0\0\0\0"],
    },
    Field {
        start: 28,
        values: &[b"fmt "],
    },
    Field {
        start: 32,
        values: &[b"\x34\0\0\0\0\0\0\0"],
    },
    Field {
        start: 40,
        values: &[b"\x01\0\0\0"],
    },
    Field {
        start: 44,
        values: &[b"\0\0\0\0"],
    },
    Field {
        start: 48,
        values: &[
            b"\x01\0\0\0\x01\0\0\0",
            b"\x02\0\0\0\x02\0\0\0",
            b"\x03\0\0\0\x03\0\0\0",
            b"\x04\0\0\0\x04\0\0\0",
            b"\x05\0\0\0\x04\0\0\0",
            b"\x06\0\0\0\x05\0\0\0",
            b"\x07\0\0\0\x06\0\0\0",
        ],
    },
    Field {
        start: 60,
        values: &[b"\x01\0\0\0", b"\x08\0\0\0"],
    },
    Field {
        start: 72,
        values: &[b"\0\x10\0\0"],
    },
    Field {
        start: 76,
        values: &[b"\0\0\0\0"],
    },
    Field {
        start: 80,
        values: &[b"data"],
    },
];

// Whether a field has one of its values, as far as the file goes.
pub fn fits(file: &[u8], field: &Field) -> bool
    ensures { result ≡ fits file.now (field_of field.now) }
{
    field
        .values
        .iter()
        .any(|value| dsf::holds(file, field.start, value))
}
