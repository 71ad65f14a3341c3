// One block of the frame file: its numbers, its check, its tag, its payload.
#![tactic(auto)]

ghost use Rattle.std.specs.Prelude.{◌≡◌, ◌+◌, ◌*◌, ◌^◌, ◌<◌, ◌≤◌, length};
ghost use Rattle.frame_file.specs.Lists.{part};
ghost use Rattle.frame_file.specs.FrameFile.{little_endian, little_endian_bytes, check, has_tag, block as block_of, payload as payload_of, block_count};
ghost use Rattle.block.specs.BlockTest.{block_answer};

use answers::{Answer, Refusal};

// BAYR in ASCII: the reader compares it, the writer writes it.
pub const TAG: [u8; 4] = *b"BAYR";

// A number as four bytes, little-endian.
#[tactic(auto, unfolding(frame_file::specs::FrameFile::little_endian_bytes))]
pub fn bytes4(number: usize) -> [u8; 4]
    ensures { result ≡ little_endian_bytes 4 number }
{
    let [a, b, c, d, ..] = number.to_le_bytes();
    [a, b, c, d]
}

// The number in N bytes, little-endian.
pub fn number<const N: usize>(bytes: &[u8], at: usize) -> usize
    requires { (N ≤ 8) × (at + N ≤ length bytes.now) }
    ensures { (result ≡ little_endian (part bytes.now at N)) × (result < 256 ^ N) }
{
    let mut number = [0; 8];
    number[..N].copy_from_slice(&bytes[at..at + N]);
    usize::from_le_bytes(number)
}

// The check: the sum of (k+1) times byte k for k = 0..507.
#[tactic(auto, using(crate::proofs::Laws::summed_none, crate::proofs::Laws::summed_next))]
pub fn check_of(block: &[u8]) -> usize
    requires { 508 ≤ length block.now }
    ensures { result ≡ check block.now }
{
    let mut sum = 0;
    for (k, byte) in block[..508].iter().enumerate() {
        sum += (k + 1) * usize::from(*byte);
    }
    sum
}

// The tests that every block has: its check, then its number.
#[tactic(auto, using(crate::proofs::Answers::check_refused, crate::proofs::Answers::number_refused, crate::proofs::Answers::block_passes))]
pub fn test_block(block: &[u8; 512], n: usize) -> Answer
    ensures { result ≡ block_answer block.now n }
{
    if number::<4>(block, 508) != check_of(block) {
        return Err(Refusal::Check(n));
    }
    if number::<4>(block, 0) != n {
        return Err(Refusal::BlockNumber(n));
    }
    Ok(())
}

// Whether a block has the tag in bytes 4..7.
#[tactic(auto, using(crate::proofs::Laws::tag_compared))]
pub fn tagged(block: &[u8; 512]) -> bool
    ensures { result ≡ has_tag block.now }
{
    block[4..8] == TAG[..]
}

// Block n, as a part of the file.
#[tactic(auto, using(frame_file::specs::Lists::slice_part), unfolding(frame_file::specs::FrameFile::block))]
pub fn at(file: &[u8], n: usize) -> &[u8; 512]
    requires { 512 * n + 512 ≤ length file.now }
    ensures { result.now ≡ block_of file.now n }
{
    let start = 512 * n;
    file[start..start + 512].try_into().unwrap()
}

// The payload of block n, as a part of the file.
#[tactic(auto, using(crate::proofs::Laws::payload_of_block))]
pub fn payload(file: &[u8], n: usize) -> &[u8; 500]
    requires { 512 * n + 512 ≤ length file.now }
    ensures { result.now ≡ payload_of file.now n }
{
    at(file, n)[4..504].try_into().unwrap()
}

// How many blocks a file of so many samples has.
#[tactic(auto, unfolding(frame_file::specs::FrameFile::block_count))]
pub fn count_for(samples: usize) -> usize
    requires { samples ≤ 16777216 }
    ensures { (result ≡ block_count samples) × (result ≤ 41945) }
{
    1 + samples.div_ceil(400)
}
