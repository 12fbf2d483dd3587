// The records and numbers of document 01. The definition of a conversion is in specs/.
#![tactic(auto)]

ghost use Rattle.std.specs.Prelude.{◌≡◌, sum_by, ◌^◌, ◌<◌, ◌≤◌, length, option_copied};
ghost use Rattle.reference.specs.Frames.{frame_length, run_of};
ghost use Rattle.reference.specs.inner.Frames.{if_there};
ghost use Rattle.reference.specs.Stages as stages;
ghost use Rattle.reference.specs.Stages.{taps_of};
ghost use Rattle.reference.specs.Output.{samples_per_frame};
ghost use Rattle.reference.specs.Refusals.{error_decision, refusal_number, length_number};
ghost use Rattle.reference.specs.Settings.{built_in, filter_of, converter_of, held_settings};
ghost use Rattle.reference.specs.Statistics as statistics;
ghost use Rattle.reference.specs.Statistics.{no_stats};

mod codes;
mod taps;

pub use codes::{UnknownCutoff, UnknownRate};

// Bytes of one channel in a frame.
pub const FRAME_BYTES: usize = 4704;

// Frames of the longest run.
pub const MOST_FRAMES: usize = 540000;

#[derive(Clone, Copy, PartialEq, Eq)]
pub enum PcmRate {
    Hz88200,
    Hz176400,
    Hz352800,
}

impl PcmRate {
    // Samples of one channel in a frame.
    #[tactic(auto, unfolding(crate::specs::Output::samples_per_frame))]
    pub fn samples_per_frame(self) -> usize
        ensures { (result ≡ samples_per_frame self) × (result ≤ 4704) }
    {
        match self {
            PcmRate::Hz88200 => FRAME_BYTES / 4,
            PcmRate::Hz176400 => FRAME_BYTES / 2,
            PcmRate::Hz352800 => FRAME_BYTES,
        }
    }
}

#[derive(Clone, Copy, PartialEq, Eq)]
pub enum Cutoff {
    Standard,
    Low,
    Wide,
}

// A gain in decibels and the factor that it stands for.
#[derive(Clone, Copy)]
pub struct Gain {
    pub db: f64,
    pub linear: f64,
}

// A low-pass: its first `count` taps, from the centre outwards. The places past them are free: nothing here is on the
// heap, so a filter of at most 117 taps is held in an array of that length.
#[derive(Clone, Copy)]
pub struct Filter {
    pub taps: [i32; 117],
    pub count: usize,
}

impl Filter {
    // F40.
    #[tactic(auto, unfolding(crate::specs::Settings::built_in, crate::specs::Taps::F40))]
    pub fn built_in() -> Self
        ensures { result ≡ built_in }
    {
        Filter {
            taps: taps::F40,
            count: 61,
        }
    }

    // Its taps: those past 117 are not there.
    #[tactic(auto, using(crate::proofs::Filters::first_taps))]
    pub fn taps(&self) -> &[i32]
        ensures { (result.now ≡ taps_of self.now) × (length result.now ≤ 117) }
    {
        &self.taps[..self.count.min(117)]
    }

    // Bytes of each channel before and after a stretch of frames that its samples may depend on.
    #[tactic(auto, unfolding(crate::specs::Stages::reach))]
    pub fn reach(&self, rate: PcmRate, cutoff: Cutoff) -> usize
        ensures { result ≡ stages.reach rate cutoff (taps_of self.now) }
    {
        let last_tap = self.taps().len().saturating_sub(1);
        match (cutoff, rate) {
            (Cutoff::Standard, PcmRate::Hz352800) => 2 * last_tap + 35,
            (Cutoff::Standard, _) => 2 * last_tap + 19,
            (Cutoff::Low, PcmRate::Hz352800) => 195,
            (Cutoff::Low, _) => 179,
            (Cutoff::Wide, PcmRate::Hz88200) => 0,
            (Cutoff::Wide, PcmRate::Hz176400) => 122,
            (Cutoff::Wide, PcmRate::Hz352800) => 66,
        }
    }
}

// What opening is given. Without a filter, F40 is taken.
#[derive(Clone, Copy)]
pub struct Settings {
    pub rate: PcmRate,
    pub cutoff: Cutoff,
    pub channels: u8,
    pub gain: Gain,
    pub filter: Option<Filter>,
}

// What opening gives, and each conversion is given: the settings, and three numbers of theirs. These are samples of a
// channel in a frame, the reach in bytes, and the bytes of a frame over all channels.
#[derive(Clone, Copy)]
pub struct Converter {
    pub rate: PcmRate,
    pub cutoff: Cutoff,
    pub channels: u8,
    pub gain: Gain,
    pub filter: Filter,
    pub samples_per_frame: usize,
    pub reach: usize,
    pub frame_length: usize,
}

impl Settings {
    // The filter given, or F40.
    #[tactic(auto, unfolding(crate::specs::Settings::filter_of))]
    pub fn filter(self) -> Filter
        ensures { result ≡ filter_of self }
    {
        self.filter.unwrap_or(Filter::built_in())
    }

    // The converter that opening gives where these settings are accepted.
    #[tactic(auto, unfolding(crate::specs::Settings::converter_of))]
    pub fn converter(self) -> Converter
        ensures { result ≡ converter_of self }
    {
        let filter = self.filter();
        let reach = filter.reach(self.rate, self.cutoff);
        Converter {
            rate: self.rate,
            cutoff: self.cutoff,
            channels: self.channels,
            gain: self.gain,
            filter,
            samples_per_frame: self.rate.samples_per_frame(),
            reach,
            frame_length: frame_length(self.channels),
        }
    }
}

impl Converter {
    // The settings that it holds.
    pub fn settings(self) -> Settings
        ensures { result ≡ held_settings self }
    {
        Settings {
            rate: self.rate,
            cutoff: self.cutoff,
            channels: self.channels,
            gain: self.gain,
            filter: Some(self.filter),
        }
    }
}

// Bytes of a frame, of all channels.
pub fn frame_length(channels: u8) -> usize
    ensures { result ≡ frame_length channels }
{
    FRAME_BYTES * (channels as usize)
}

// A run of frames, and the frames beside it that its first and last samples depend on. The slice of a neighbour that
// is not there is not read. The customer named this form, a flag beside each slice; the methods answer an `Option`.
#[derive(Clone, Copy)]
pub struct Run<'a> {
    pub has_before: bool,
    pub before: &'a [u8],
    pub frames: &'a [u8],
    pub has_after: bool,
    pub after: &'a [u8],
}

impl<'a> Run<'a> {
    // The frame before, where there is one.
    #[tactic(auto, unfolding(crate::specs::inner::Frames::if_there))]
    pub fn frame_before(self) -> Option<&'a [u8]>
        ensures { option_copied result ≡ if_there (run_of self.entry).has_before (run_of self.entry).before }
    {
        self.has_before.then_some(self.before)
    }

    // The frame after, where there is one.
    #[tactic(auto, unfolding(crate::specs::inner::Frames::if_there))]
    pub fn frame_after(self) -> Option<&'a [u8]>
        ensures { option_copied result ≡ if_there (run_of self.entry).has_after (run_of self.entry).after }
    {
        self.has_after.then_some(self.after)
    }
}

// The lowest and the highest of some numbers before the clamp.
#[derive(Clone, Copy)]
pub struct Extremes {
    pub lowest: i64,
    pub highest: i64,
}

// What a stretch of a channel's samples tells beside them: how many the clamp changed, and the extremes before it,
// where there are samples.
#[derive(Clone, Copy)]
pub struct ChannelStats {
    pub clipped: u64,
    pub extremes: Option<Extremes>,
}

// Of two stretches taken as one, each perhaps without samples.
#[tactic(auto, unfolding(crate::specs::Statistics::joined_extremes, numbers::specs::Extremes::lesser, numbers::specs::Extremes::greater))]
fn joined_extremes(a: Option<Extremes>, b: Option<Extremes>) -> Option<Extremes>
    ensures { result ≡ statistics.joined_extremes a b }
{
    let Some(x) = a else { return b };
    let Some(y) = b else { return a };
    Some(Extremes {
        lowest: x.lowest.min(y.lowest),
        highest: x.highest.max(y.highest),
    })
}

impl ChannelStats {
    // Of no samples.
    #[tactic(auto, unfolding(crate::specs::Statistics::no_samples))]
    pub fn none() -> Self
        ensures { result ≡ statistics.no_samples }
    {
        ChannelStats {
            clipped: 0,
            extremes: None,
        }
    }

    // Of two stretches taken as one. A count that does not fit is held at the greatest number that does.
    #[tactic(auto, unfolding(crate::specs::Statistics::joined_channel, crate::specs::Statistics::add_clips))]
    pub fn join(self, other: Self) -> Self
        ensures { result ≡ statistics.joined_channel self other }
    {
        ChannelStats {
            clipped: self.clipped.saturating_add(other.clipped),
            extremes: joined_extremes(self.extremes, other.extremes),
        }
    }
}

// What a conversion tells of its samples, channel by channel.
#[derive(Clone, Copy)]
pub struct ConvertStats {
    pub channels: [ChannelStats; 6],
}

fn clips_of(channels: &[ChannelStats]) -> u64
    requires { sum_by (λ c. c.clipped) channels.now < 2 ^ 64 }
    ensures { result ≡ sum_by (λ c. c.clipped) channels.now }
{
    channels.iter().map(|channel| channel.clipped).sum()
}

impl ConvertStats {
    // Clips over the first channels.
    #[tactic(auto, using(crate::proofs::Statistics::first_clips))]
    pub fn clips(&self, channels: usize) -> u64
        requires { (channels ≤ 6) × (statistics.clip_sum self.now channels < 2 ^ 64) }
        ensures { result ≡ statistics.clip_sum self.now channels }
    {
        clips_of(&self.channels[..channels])
    }
}

// Of no samples.
#[tactic(auto, unfolding(crate::specs::Statistics::no_stats))]
pub fn no_stats() -> ConvertStats
    ensures { result ≡ no_stats }
{
    ConvertStats {
        channels: [ChannelStats::none(); 6],
    }
}

// Whose limit of frames a call has: the rack's, or the listening desk's.
#[derive(Clone, Copy, PartialEq, Eq)]
pub enum Limit {
    Rack,
    Desk,
}

// What the input is to be: whole frames, or one frame.
#[derive(Clone, Copy, PartialEq, Eq)]
pub enum Length {
    WholeFrames,
    OneFrame,
}

impl Length {
    // Its number in a refusal's data.
    #[tactic(auto, unfolding(crate::specs::Refusals::length_number))]
    pub fn number(self) -> u64
        ensures { result ≡ length_number self }
    {
        match self {
            Length::WholeFrames => 0,
            Length::OneFrame => 1,
        }
    }
}

// Why a call is refused. specs/Refusals.antt gives each case its number and data.
#[derive(Clone, Copy, PartialEq)]
pub enum PcmError {
    Channels(u8),
    Unsupported(PcmRate, Cutoff),
    Gain(f64),
    // The length, and what it is not.
    InputLength(usize, Length),
    Frames(usize),
    // The length, and the length expected; so in the next two.
    OutputLength(usize, usize),
    OutputBytes(usize, usize),
    FrameCounts(usize, usize),
    // Of a DSF file: not as the document lays it out, its frequency or sample count, its lengths.
    NotDsf,
    DsfFormat,
    DsfLength,
    // Not a file that the WAV reader takes, or none that it would.
    NotWav,
    // A number of a simulation of turns outside its range.
    Schedule,
    // The length of a frame before, or of a frame after, that is not one frame.
    Before(usize),
    After(usize),
    // More frames than the listening desk takes.
    Desk,
    // Of a filter: the number of its taps, their sums.
    Taps,
    TapSums,
    // A number too wide for its column of the level sheet.
    Sheet,
    // Stored numbers of a converter that are not those of its settings.
    Stored,
}

impl PcmError {
    // The refusal's number.
    pub fn number(self) -> u64
        ensures { result ≡ refusal_number (error_decision self) }
    {
        match self {
            PcmError::Channels(_) => 1,
            PcmError::Unsupported(_, _) => 2,
            PcmError::Gain(_) => 3,
            PcmError::InputLength(_, _) => 4,
            PcmError::Frames(_) => 5,
            PcmError::OutputLength(_, _) => 6,
            PcmError::OutputBytes(_, _) => 7,
            PcmError::FrameCounts(_, _) => 8,
            PcmError::NotDsf => 9,
            PcmError::DsfFormat => 10,
            PcmError::DsfLength => 11,
            PcmError::NotWav => 12,
            PcmError::Before(_) => 13,
            PcmError::After(_) => 14,
            PcmError::Stored => 15,
            PcmError::Desk => 16,
            PcmError::Taps => 17,
            PcmError::TapSums => 18,
            PcmError::Schedule => 19,
            PcmError::Sheet => 20,
        }
    }
}
