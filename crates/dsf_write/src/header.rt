// The 92 bytes before the data.
ghost use Rattle.std.specs.Prelude.{◌≡◌, ◌+◌, ◌≤◌, length};
ghost use Rattle.text.specs.Bytes.{bytes};
ghost use Rattle.dsf.specs.Dsf.{pair};
ghost use Rattle.dsf.specs.Headers.{header_with};
ghost use Rattle.dsf_write.specs.Written.{type_of};
ghost use Rattle.dsf_write.specs.inner.Putting.{PutPromise};

// Bytes put into a list from a place on.
fn put(out: &mut [u8], at: usize, bytes: &[u8])
    requires { at + length bytes.now ≤ length out.old }
    ensures { PutPromise at bytes.now out.old out.new }
{
    out[at..at + bytes.len()].copy_from_slice(bytes);
}

// The header: the stated length of the file, the samples of each channel, and the size of the data's chunk.
pub fn put_header(channels: u8, stated: u64, samples: u64, size: u64, out: &mut [u8])
    requires { (1 ≤ channels) × (channels ≤ 6) × (92 ≤ length out.old) }
    ensures { PutPromise 0 (header_with (bytes 8 stated) (bytes 8 0) (pair (type_of channels) channels) 1 (bytes 8 samples) (bytes 8 size)) out.old out.new }
{
    put(out, 0, b"DSD \x1c\0\0\0\0\0\0\0");
    put(out, 12, &stated.to_le_bytes());
    put(
        out,
        20,
        b"\0\0\0\0\0\0\0\0fmt \x34\0\0\0\0\0\0\0\x01\0\0\0\0\0\0\0",
    );
    put(out, 48, &[kind_of(channels), 0, 0, 0, channels, 0, 0, 0]);
    put(out, 56, b"\0\x11\x2b\0\x01\0\0\0");
    put(out, 64, &samples.to_le_bytes());
    put(out, 72, b"\0\x10\0\0\0\0\0\0data");
    put(out, 84, &size.to_le_bytes());
}

// The channel type that is written.
#[tactic(auto, unfolding(crate::specs::Written::type_of))]
fn kind_of(channels: u8) -> u8
    requires { channels ≤ 6 }
    ensures { result ≡ type_of channels }
{
    if channels <= 4 {
        return channels;
    }
    channels + 1
}
