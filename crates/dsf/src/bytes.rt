// Bytes as numbers, lowest first.
ghost use Rattle.std.specs.Prelude.{◌≡◌, ◌≤◌};
ghost use Rattle.text.specs.Bytes.{number_at};

// The number in so many bytes from a place on, lowest first; a byte past the end counts as 0.
pub fn number(file: &[u8], start: usize, size: usize) -> u64
    requires { (start ≤ 92) × (size ≤ 8) }
    ensures { result ≡ number_at file.now start size }
{
    let first = start.min(file.len());
    let last = (start + size).min(file.len());
    let part = &file[first..last];
    let mut bytes = [0u8; 8];
    bytes[..part.len()].copy_from_slice(part);
    u64::from_le_bytes(bytes)
}
