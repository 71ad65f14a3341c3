// Writes a frame file, block by block.
#![tactic(auto)]

ghost use Rattle.std.specs.Prelude.{◌≡◌, ◌*◌, ◌-◌, ◌≤◌, length};
ghost use Rattle.frame.specs.Sites.{frame as frame_of};
ghost use Rattle.frame_file.specs.Lists.{Below, part};
ghost use Rattle.frame_file.specs.FrameFile.{filled_up, with_check, header_bytes, sample_bytes, written_file};
ghost use Rattle.calls.specs.WhatCallsLeave.{WriteLeaves};
ghost use Rattle.writer.specs.Ready.{Ready};

use answers::{Answer, Refusal};
use frame::Shape;

// The first 13 bytes of block 0: number, tag, W, H, phase.
#[tactic(auto, unfolding(frame_file::specs::Lists::part, frame_file::specs::FrameFile::header_bytes, frame_file::specs::FrameFile::little_endian_bytes, frame_file::specs::FrameFile::tag))]
fn header_front(shape: Shape) -> [u8; 13]
    requires { shape.phase ≤ 3 }
    ensures { result ≡ part (header_bytes shape) 0 13 }
{
    let [b, a, y, r] = block::TAG;
    let [w0, w1, ..] = shape.width.to_le_bytes();
    let [h0, h1, ..] = shape.height.to_le_bytes();
    [0, 0, 0, 0, b, a, y, r, w0, w1, h0, h1, shape.phase as u8]
}

// Stores the check of a block's first 508 bytes after them.
#[tactic(auto, using(crate::proofs::Blocks::check_stored))]
fn store_check(b: &mut [u8; 512])
    ensures { b.new ≡ with_check (part b.old 0 508) }
{
    let check = block::bytes4(block::check_of(b));
    packing::store_bytes(b, 508, &check);
}

// Block 0, composed in 512 zero bytes.
fn header_block(shape: Shape) -> [u8; 512]
    requires { shape.phase ≤ 3 }
    ensures { result ≡ with_check (header_bytes shape) }
{
    let mut b = [0; 512];
    packing::store_bytes(&mut b, 0, &header_front(shape));
    store_check(&mut b);
    b
}

// Block n, from 1, composed in 512 zero bytes: number, payload, check.
fn samples_block(samples: &[u16], n: usize) -> [u8; 512]
    requires { Below 1024 samples.now }
    ensures { result ≡ with_check (sample_bytes n (filled_up samples.now)) }
{
    let mut b = [0; 512];
    packing::store_bytes(&mut b, 0, &block::bytes4(n));
    packing::store_bytes(&mut b, 4, &payload::pack_payload(samples));
    store_check(&mut b);
    b
}

// The samples of block n, from 1, as a part of the mosaic.
fn samples_of(mosaic: &[u16], n: usize) -> &[u16]
    requires { (1 ≤ n) × (400 * (n - 1) ≤ length mosaic.now) }
    ensures { result.now ≡ part mosaic.now (400 * (n - 1)) 400 }
{
    let start = 400 * (n - 1);
    &mosaic[start..mosaic.len().min(start + 400)]
}

// The whole file, block by block.
fn write_blocks(file: &mut [u8], shape: Shape, mosaic: &[u16])
    requires { Ready shape mosaic.now (length file.old) }
    ensures { file.new ≡ written_file (frame_of shape mosaic.now) }
{
    let count = block::count_for(mosaic.len());
    packing::store_bytes(file, 0, &header_block(shape));
    for n in 1..count {
        packing::store_bytes(file, 512 * n, &samples_block(samples_of(mosaic, n), n));
    }
}

// Writes the frame file of a shape and a mosaic. A refusal leaves the file as it was.
pub fn write(shape: Shape, mosaic: &[u16], file: &mut [u8]) -> Answer
    ensures { WriteLeaves (frame_of shape mosaic.now) file.old result file.new }
{
    admission::test_shape(shape)?;
    admission::test_count(shape, mosaic.len())?;
    let size = 512 * block::count_for(mosaic.len());
    if file.len() != size {
        return Err(Refusal::BufferLength);
    }
    admission::test_samples(mosaic)?;
    write_blocks(file, shape, mosaic);
    Ok(())
}
