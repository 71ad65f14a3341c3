// Reads a frame file. All blocks are tested before the first sample is stored.
#![tactic(auto)]

ghost use Rattle.std.specs.Prelude.{◌≡◌, ◌+◌, ◌*◌, ◌-◌, ◌≤◌, length};
ghost use Rattle.answers.specs.Calls.{in_order};
ghost use Rattle.frame_file.specs.Lists.{all_zero};
ghost use Rattle.frame_file.specs.FrameFile.{header, block_count, block_tests, stored_samples};
ghost use Rattle.calls.specs.WhatCallsLeave.{ReadLeaves};
ghost use Rattle.reader.specs.ReadSteps.{header_answer, first_answer, later_answer};

use answers::{Answer, ReadAnswer, Refusal};
use frame::Shape;

// Whether all bytes of a slice are zero.
fn zero(bytes: &[u8]) -> bool
    ensures { result ≡ all_zero bytes.now }
{
    bytes.iter().all(|&b| b == 0)
}

// W, H and the phase that block 0 holds.
#[tactic(auto, unfolding(frame_file::specs::FrameFile::header))]
fn header_of(block: &[u8; 512]) -> Shape
    ensures { result ≡ header block.now }
{
    Shape {
        width: block::number::<2>(block, 8),
        height: block::number::<2>(block, 10),
        phase: usize::from(block[12]),
    }
}

// Block 0 for 8, 10.
#[tactic(auto, using(crate::proofs::Tests::header_laws), unfolding(frame_file::specs::Lists::part, frame_file::specs::FrameFile::header_filler))]
fn test_header(block: &[u8; 512]) -> Answer
    ensures { result ≡ header_answer block.now }
{
    if !block::tagged(block) || !admission::shape_in_range(header_of(block)) {
        return Err(Refusal::Header);
    }
    if !zero(&block[13..508]) {
        return Err(Refusal::Filler(0));
    }
    Ok(())
}

// The length, then block 0 for 7, 9, 8, 10.
#[tactic(auto, using(crate::proofs::Tests::first_laws))]
fn test_first(file: &[u8]) -> Answer
    ensures { result ≡ first_answer file.now }
{
    if file.len() < 512 || file.len() % 512 != 0 {
        return Err(Refusal::FileLength);
    }
    let first = block::at(file, 0);
    block::test_block(first, 0)?;
    test_header(first)
}

// Block n, from 1, for 7, 9, 10, in the file of a frame of so many samples.
#[tactic(auto, using(crate::proofs::Tests::later_laws), unfolding(frame_file::specs::Lists::part, frame_file::specs::FrameFile::block_filler))]
fn test_later(file: &[u8], samples: usize, n: usize) -> Answer
    requires { (1 ≤ n) × (512 * n + 512 ≤ length file.now) × (400 * (n - 1) ≤ samples) }
    ensures { result ≡ later_answer file.now samples n }
{
    let block = block::at(file, n);
    block::test_block(block, n)?;
    if !zero(&block[504..508]) {
        return Err(Refusal::Filler(n));
    }
    if !payload::zero_from(block::payload(file, n), samples - 400 * (n - 1)) {
        return Err(Refusal::Filler(n));
    }
    Ok(())
}

// Blocks 1, 2, .. of a file, each for 7, 9, 10.
#[tactic(auto, using(crate::proofs::Tests::blocks_laws))]
fn test_blocks(file: &[u8], samples: usize, count: usize) -> Answer
    requires { (count ≡ block_count samples) × (length file.now ≡ 512 * count) }
    ensures { result ≡ in_order (block_tests file.now samples 1 (count - 1)) }
{
    for n in 1..count {
        test_later(file, samples, n)?;
    }
    Ok(())
}

// Fills the samples from the payloads of blocks 1, 2, ..
fn unpack_blocks(file: &[u8], samples: &mut [u16])
    requires { 512 * block_count (length samples.old) ≤ length file.now }
    ensures { samples.new ≡ stored_samples file.now (length samples.old) }
{
    // By index: of what is written through `chunks_mut`, a proof knows no element after the loop.
    for k in 0..samples.len().div_ceil(400) {
        let start = 400 * k;
        let end = samples.len().min(start + 400);
        payload::unpack_payload(block::payload(file, k + 1), &mut samples[start..end]);
    }
}

// Reads a frame file: its W, H and phase are answered, and its samples stand at the front of `samples`. A refusal leaves `samples`
// as it was.
pub fn read(file: &[u8], samples: &mut [u16]) -> ReadAnswer
    ensures { ReadLeaves file.now samples.old result samples.new }
{
    test_first(file)?;
    let shape = header_of(block::at(file, 0));
    let count = admission::sample_count(shape);
    let blocks = block::count_for(count);
    let size = 512 * blocks;
    if file.len() != size {
        return Err(Refusal::FileLength);
    }
    if samples.len() < count {
        return Err(Refusal::BufferLength);
    }
    test_blocks(file, count, blocks)?;
    unpack_blocks(file, &mut samples[0..count]);
    Ok(shape)
}
