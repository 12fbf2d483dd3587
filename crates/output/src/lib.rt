// Module 7, output: a block's samples of one channel go to their places; and samples are packed as bytes.
#![tactic(auto)]

ghost use Rattle.std.specs.Prelude.{ℕ, ◌+◌, ◌*◌, ◌≤◌, ◌<◌, ℤ, pos, length};
ghost use Rattle.numbers.specs.inner.Lists.{Held};
ghost use Rattle.reference.specs.Promises.{PackPromise};
ghost use Rattle.output.specs.inner.Fills.{Layout, items, byte_layout, Put, Drawn};
ghost use Rattle.std.proofs.Common.{rules};

// What an output is a list of: 32-bit numbers, of which a sample takes one, or bytes, of which it takes three.
pub trait Place: Copy {
    ghost layout: { Layout Self };

    // A sample goes to the places of item `item`.
    fn put(out: &mut [Self], item: usize, sample: i32)
        requires { layout.width * item + layout.width ≤ length out.old }
        ensures { Put layout item sample out.old out.new };

    ghost some: { 0 < layout.width };
}

impl Place for i32 {
    ghost layout = { items };

    ghost some = { Prim.search rules };

    fn put(out: &mut [i32], item: usize, sample: i32) {
        out[item] = sample;
    }
}

// The low 24 bits, least first.
impl Place for u8 {
    ghost layout = { byte_layout };

    ghost some = { Prim.search rules };

    fn put(out: &mut [u8], item: usize, sample: i32) {
        let [first, second, third, _] = sample.to_le_bytes();
        out[3 * item] = first;
        out[3 * item + 1] = second;
        out[3 * item + 2] = third;
    }
}

// Samples n, n + 1, .. of a channel: sample n is item n * channels + channel.
pub fn store<P: Place>(samples: &[i32], n: usize, channels: usize, channel: usize, out: &mut [P])
    requires { (channel < channels) × (P.layout.width * ((n + length samples.now) * channels) ≤ length out.old) }
    ensures { (S : ℕ → ℕ → ℤ) → Held (pos 0) (S channel) n (length samples.now) samples.now → Drawn P.layout S channels n (n + length samples.now) channel (channel + 1) out.old out.new }
{
    for (k, sample) in samples.iter().enumerate() {
        P::put(out, (n + k) * channels + channel, *sample);
    }
}

// The samples that there is room for, three bytes each from the start; the bytes past them are kept.
pub fn pack(samples: &[i32], bytes: &mut [u8])
    ensures { PackPromise samples.now bytes.old bytes.new }
{
    let n = samples.len().min(bytes.len() / 3);
    store(&samples[..n], 0, 1, 0, &mut bytes[..3 * n]);
}
