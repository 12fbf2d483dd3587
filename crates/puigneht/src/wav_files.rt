// WAV files read, and made of sample bytes.
ghost use Rattle.c_wav.specs.Calls as wav;

// Rate, channels, and where the sample bytes of a file are and how many.
#[unsafe(no_mangle)]
pub extern "C" fn puigneht_wav_read_call(file: &[u8], told: &mut [u64; 4]) -> u8
    ensures { wav.WavReadCall file.now told.old told.new result }
{
    c_wav::read(file, told)
}

// A file from rate, channels and sample bytes.
#[unsafe(no_mangle)]
pub extern "C" fn puigneht_wav_write_call(
    rate: u64,
    channels: u8,
    bytes: &[u8],
    out: &mut [u8],
    data: &mut [u64; 2],
) -> u8
    ensures { wav.WavWriteCall rate channels bytes.now out.old out.new «data».new result }
{
    c_wav::write(rate, channels, bytes, out, data)
}

// The first 44 bytes of a file with so many bytes of samples.
#[unsafe(no_mangle)]
pub extern "C" fn puigneht_wav_header_call(
    rate: u64,
    channels: u8,
    bytes: u64,
    out: &mut [u8; 44],
) -> u8
    ensures { wav.WavHeaderCall rate channels bytes out.old out.new result }
{
    c_wav::header(rate, channels, bytes, out)
}
