// A payload: 400 samples in 500 bytes, 100 groups of four samples in five bytes.
#![tactic(auto)]

ghost use Rattle.std.specs.Prelude.{◌≡◌, ◌*◌, ◌<◌, ◌≤◌, length, get_or, take, drop};
ghost use Rattle.frame_file.specs.Lists.{Below, part, all_zero};
ghost use Rattle.frame_file.specs.FrameFile.{packed, unpacked, filled_up, packed_payload, unpacked_payload};

// Sample k, and 0 past the last.
fn sample_or_zero(samples: &[u16], k: usize) -> u16
    requires { Below 1024 samples.now }
    ensures { (result ≡ get_or samples.now k 0) × (result < 1024) }
{
    samples.get(k).copied().unwrap_or(0)
}

// Group g of the samples, filled up with zeros, in five bytes.
#[tactic(auto, using(crate::proofs::Groups::packed_group))]
fn pack_group(samples: &[u16], g: usize) -> [u8; 5]
    requires below { Below 1024 samples.now }
    requires g_bound { g < 100 }
    ensures { result ≡ packed (part (filled_up samples.now) (4 * g) 4) }
{
    packing::pack(std::array::from_fn(|i| sample_or_zero(samples, 4 * g + i)))
}

// The payload of samples, filled up with zeros.
#[tactic(auto, using(crate::proofs::Groups::stored_none, crate::proofs::Groups::stored_next, crate::proofs::Groups::stored_all))]
pub fn pack_payload(samples: &[u16]) -> [u8; 500]
    requires { Below 1024 samples.now }
    ensures { result ≡ packed_payload (filled_up samples.now) }
{
    let mut payload = [0; 500];
    for g in 0..100 {
        packing::store_bytes(&mut payload, 5 * g, &pack_group(samples, g));
    }
    payload
}

// The four samples of group g of a payload.
#[tactic(auto, using(frame_file::specs::Lists::slice_part))]
fn unpack_group(payload: &[u8; 500], g: usize) -> [u16; 4]
    requires { g < 100 }
    ensures { result ≡ unpacked (part payload.now (5 * g) 5) }
{
    packing::unpack(payload[5 * g..5 * g + 5].try_into().unwrap())
}

// Sample k of a payload.
#[tactic(auto, using(crate::proofs::Groups::sample_of_group))]
fn sample_at(payload: &[u8; 500], k: usize) -> u16
    requires { k < 400 }
    ensures { result ≡ get_or (unpacked_payload payload.now) k 0 }
{
    unpack_group(payload, k / 4)[k % 4]
}

// Fills a slice with the first samples of a payload; of the last group only those that are left are stored.
#[tactic(auto, using(crate::proofs::Groups::group_stored))]
pub fn unpack_payload(payload: &[u8; 500], samples: &mut [u16])
    requires { length samples.old ≤ 400 }
    ensures { samples.new ≡ take (length samples.old) (unpacked_payload payload.now) }
{
    // Whole groups apart: one loop that copies up to four samples was slower, since each copy's length varies.
    let whole = samples.len() / 4;
    for g in 0..whole {
        samples[4 * g..4 * g + 4].copy_from_slice(&unpack_group(payload, g));
    }
    let rest = samples.len() % 4;
    if rest > 0 {
        samples[4 * whole..].copy_from_slice(&unpack_group(payload, whole)[..rest]);
    }
}

// Whether the samples of a payload from position `from` on are all zero.
pub fn zero_from(payload: &[u8; 500], from: usize) -> bool
    ensures { result ≡ all_zero (drop from (unpacked_payload payload.now)) }
{
    (from..400).all(|k| sample_at(payload, k) == 0)
}
