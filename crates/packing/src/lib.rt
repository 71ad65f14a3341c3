// RAW10 packing: four samples in five bytes, by shifts and masks.
#![tactic(auto)]

ghost use Rattle.std.specs.Prelude.{◌≡◌, ◌+◌, ◌*◌, ◌%◌, ◌≤◌, length};
ghost use Rattle.frame_file.specs.Lists.{Below, put_at};
ghost use Rattle.frame_file.specs.FrameFile.{packed, unpacked};

// The low two bits of four samples in one byte, first sample lowest.
fn low_bits(a: u16, b: u16, c: u16, d: u16) -> u8
    ensures { result ≡ a % 4 + 4 * (b % 4) + 16 * (c % 4) + 64 * (d % 4) }
{
    ((a & 3) | ((b & 3) << 2) | ((c & 3) << 4) | ((d & 3) << 6)) as u8
}

// Four samples in five bytes: four of high eight bits, then one of low bits.
#[tactic(auto, unfolding(frame_file::specs::FrameFile::packed))]
pub fn pack(samples: [u16; 4]) -> [u8; 5]
    requires { Below 1024 samples }
    ensures { result ≡ packed samples }
{
    // Entry by entry: the fifth byte is made otherwise, so `from_fn` would give four of the five.
    let [a, b, c, d] = samples;
    [
        (a >> 2) as u8,
        (b >> 2) as u8,
        (c >> 2) as u8,
        (d >> 2) as u8,
        low_bits(a, b, c, d),
    ]
}

// A sample of its high eight bits and, lowest in another byte, its low two.
fn join_bits(high: u8, low: u8) -> u16
    ensures { result ≡ 4 * high + low % 4 }
{
    (u16::from(high) << 2) | u16::from(low & 3)
}

// The four samples of five bytes.
#[tactic(auto, unfolding(frame_file::specs::FrameFile::unpacked))]
pub fn unpack(bytes: [u8; 5]) -> [u16; 4]
    ensures { result ≡ unpacked bytes }
{
    std::array::from_fn(|i| join_bits(bytes[i], bytes[4] >> (2 * i)))
}

// Copies bytes into a slice, from position `at` on.
#[tactic(auto, unfolding(frame_file::specs::Lists::put_at))]
pub fn store_bytes(to: &mut [u8], at: usize, source: &[u8])
    requires { at + length source.now ≤ length to.old }
    ensures { to.new ≡ put_at to.old at source.now }
{
    let end = at + source.len();
    to[at..end].copy_from_slice(source);
}
