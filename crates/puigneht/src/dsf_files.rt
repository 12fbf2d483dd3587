// DSF files.
ghost use Rattle.c_dsf.specs.Calls as dsf;

// What a file holds.
#[unsafe(no_mangle)]
pub extern "C" fn puigneht_dsf_read_call(
    file: &[u8],
    header: &mut [u64; 5],
    data: &mut [u64; 2],
) -> u8
    ensures { dsf.DsfReadCall file.now header.old header.new «data».new result }
{
    c_dsf::read(file, header, data)
}

// What a file holds, from its first 92 bytes and its length.
#[unsafe(no_mangle)]
pub extern "C" fn puigneht_dsf_read_header_call(
    head: &[u8],
    length: u64,
    header: &mut [u64; 5],
    data: &mut [u64; 2],
) -> u8
    ensures { dsf.ReadHeaderCall head.now «length» header.old header.new «data».new result }
{
    c_dsf::read_header(head, length, header, data)
}

// Why the file of this header is refused: the first wrong field.
#[unsafe(no_mangle)]
pub extern "C" fn puigneht_dsf_why_call(head: &[u8], length: u64, told: &mut [u64; 3]) -> u8
    ensures { dsf.WhyCall head.now «length» told.new result }
{
    c_dsf::why(head, length, told)
}

// What to read of the data for a frame.
#[unsafe(no_mangle)]
pub extern "C" fn puigneht_dsf_window_call(
    channels: u64,
    samples: u64,
    frame: u64,
    window: &mut [u64; 2],
)
    ensures { dsf.WindowCall channels samples frame window.new }
{
    c_dsf::window(channels, samples, frame, window)
}

// A frame out of a window of the data.
#[unsafe(no_mangle)]
pub extern "C" fn puigneht_dsf_window_frame_call<'a>(
    head: &'a [u8],
    length: u64,
    frame: u64,
    window: &'a [u8],
    start: u64,
    out: &mut [u8],
    data: &mut [u64; 2],
) -> u8
    ensures { dsf.WindowFrameCall head.now «length» frame window.now start out.old out.new «data».new result }
{
    c_dsf::window_frame(head, length, frame, window, start, out, data)
}

// A frame of a file.
#[unsafe(no_mangle)]
pub extern "C" fn puigneht_dsf_frame_call(
    file: &[u8],
    frame: u64,
    out: &mut [u8],
    data: &mut [u64; 2],
) -> u8
    ensures { dsf.FrameCall file.now frame out.old out.new «data».new result }
{
    c_dsf::frame(file, frame, out, data)
}

// The file of some frames.
#[unsafe(no_mangle)]
pub extern "C" fn puigneht_dsf_write_call(
    channels: u8,
    frames: &[u8],
    out: &mut [u8],
    data: &mut [u64; 2],
) -> u8
    ensures { dsf.DsfWriteCall channels frames.now out.old out.new «data».new result }
{
    c_dsf::write(channels, frames, out, data)
}

// The first 92 bytes of the file of so many bytes of frames.
#[unsafe(no_mangle)]
pub extern "C" fn puigneht_dsf_head_call(
    channels: u8,
    bytes: usize,
    out: &mut [u8; 92],
    data: &mut [u64; 2],
) -> u8
    ensures { dsf.HeadCall channels bytes out.old out.new «data».new result }
{
    c_dsf::head(channels, bytes, out, data)
}

// The data of some frames.
#[unsafe(no_mangle)]
pub extern "C" fn puigneht_dsf_lay_out_call(
    channels: u8,
    frames: &[u8],
    out: &mut [u8],
    data: &mut [u64; 2],
) -> u8
    ensures { dsf.LayOutCall channels frames.now out.old out.new «data».new result }
{
    c_dsf::lay_out(channels, frames, out, data)
}

// The length of the file of so many bytes of frames.
#[unsafe(no_mangle)]
pub extern "C" fn puigneht_dsf_length_call(
    channels: u8,
    bytes: usize,
    size: &mut [u64; 1],
    data: &mut [u64; 2],
) -> u8
    ensures { dsf.LengthCall channels bytes size.old size.new «data».new result }
{
    c_dsf::length(channels, bytes, size, data)
}

// How early a file can be given up.
#[unsafe(no_mangle)]
pub extern "C" fn puigneht_dsf_give_up_call(file: &[u8], place: &mut [u64; 1]) -> u8
    ensures { dsf.GiveUpCall file.now place.old place.new result }
{
    c_dsf::give_up(file, place)
}

// How early a file can be given up, from its first 92 bytes and its length.
#[unsafe(no_mangle)]
pub extern "C" fn puigneht_dsf_give_up_header_call(
    head: &[u8],
    length: u64,
    place: &mut [u64; 1],
) -> u8
    ensures { dsf.GiveUpHeaderCall head.now «length» place.old place.new result }
{
    c_dsf::give_up_header(head, length, place)
}
