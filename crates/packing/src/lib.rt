// Packed codes: their width, packing and unpacking (document 01, Lexicon; rows 9, 12 and 14 to 16 of its refusal
// table).
#![tactic(auto)]

ghost use Rattle.std.specs.Prelude.{◌≡◌, ◌+◌, ◌*◌, ◌≤◌, ◌<◌, length, take, drop};
ghost use mathlib.Core.List.{◌++◌, flat_map};
ghost use Rattle.endian.specs.Lists.{any};
ghost use Rattle.endian.specs.Bytes.{u32_bytes};
ghost use Rattle.call.specs.Table.{answer_of};
ghost use Rattle.call.specs.Limits.{bad_code};
ghost use Rattle.call.specs.Buffers.{zeroed};
ghost use Rattle.packing.specs.Packing.{number_of, to_bits, packed, packed_size, unpacked, bad_packed, pack_answer, pack_out, unpack_answer, unpack_out};
ghost use Rattle.packing.specs.Width.{width, width_answer};
ghost use Rattle.packing.specs.Offsets.{overlay, CodeOffset, CodeLimits, PackedFits, RightSize, CodeInBytes};

use crate::bits::{BitOffset, code_at, put_code};
use call::{Refusal, inside};
use endian::u32_bytes;

mod bits;
// The walks of request 5 (docs/PORT.md): proved, and not yet what packing and unpacking go by.
mod putting;
mod taking;

// The most words of a lexicon (row 9).
const WORDS: usize = 1048576;

// The most codes that are packed together (row 12).
const CODES: usize = 8;

// The bits of a code below a number of words: none where there is one word, else the length of the greatest code in
// binary.
fn width_of(words: u32) -> u32
    requires { 1 ≤ words }
    ensures { result ≡ width words }
{
    // 1 apart and all others by leading zeros: a form that docs/SPECIFICATION.md names
    if words == 1 {
        return 0;
    }
    u32::BITS - (words - 1).leading_zeros()
}

// The same for any number of words; 9 for 0 and above 1,048,576.
pub fn width(words: u32) -> Result<u32, Refusal>
    ensures { answer_of result ≡ width_answer words }
{
    if !inside(words as usize, 1, WORDS) {
        return Err(Refusal::WordCount);
    }
    Ok(width_of(words))
}

// Code i begins at bit i × b, in byte i × b / 8; nothing else here knows where codes begin.
fn offset_of(i: usize, b: u32) -> BitOffset
    requires { CodeLimits i b }
    ensures { CodeOffset i b result.byte result.bit }
{
    let at = i * (b as usize);
    BitOffset {
        byte: at / 8,
        bit: (at % 8) as u32,
    }
}

// n codes take n × b / 8 bytes, rounded up.
fn packed_size(n: usize, b: u32) -> usize
    requires { CodeLimits n b }
    ensures { result ≡ packed_size b n }
{
    (n * (b as usize)).div_ceil(8)
}

// Row 15, for codes that are given.
fn has_bad_code(words: u32, codes: &[u32]) -> bool
    ensures { result ≡ any (bad_code words) codes.now }
{
    codes.iter().any(|code| words <= *code)
}

// The rows of packing in the table's order, all judged before a byte is written, or the bytes that the codes take.
fn judge_pack(words: u32, codes: &[u32], out: &[u8]) -> Result<u32, Refusal>
    ensures { answer_of result ≡ pack_answer words codes.now out.now }
{
    if !inside(words as usize, 1, WORDS) {
        return Err(Refusal::WordCount);
    }
    if !inside(codes.len(), 1, CODES) {
        return Err(Refusal::Count);
    }
    if has_bad_code(words, codes) {
        return Err(Refusal::Code);
    }
    let size = packed_size(codes.len(), width_of(words));
    if out.len() < size {
        return Err(Refusal::Output);
    }
    Ok(size as u32)
}

// Makes the first n bytes zero, so that the padding is.
fn zero_first(out: &mut [u8], n: usize)
    requires { n ≤ length out.old }
    ensures { out.new ≡ zeroed n out.old }
{
    out[..n].fill(0);
}

// Packs codes that were judged.
fn put_codes(out: &mut [u8], b: u32, codes: &[u32])
    requires { PackedFits b (length codes.now) out.old }
    ensures { out.new ≡ packed b codes.now ++ drop (packed_size b (length codes.now)) out.old }
{
    zero_first(out, packed_size(codes.len(), b));
    for (i, code) in codes.iter().enumerate() {
        put_code(out, offset_of(i, b), b, *code);
    }
}

// Packs the codes and answers the bytes written.
pub fn pack(words: u32, codes: &[u32], out: &mut [u8]) -> Result<u32, Refusal>
    ensures result_value { answer_of result ≡ pack_answer words codes.now out.old }
    ensures out_after { out.new ≡ pack_out words codes.now out.old }
{
    let size = judge_pack(words, codes, &out[..])?;
    put_codes(out, width_of(words), codes);
    Ok(size)
}

// Row 14. The padding, from where code n would begin, is read as one number: it is 0 where all its bits are.
fn is_bad_packed(n: usize, packed: &[u8], b: u32) -> bool
    requires { CodeLimits n b }
    ensures { result ≡ bad_packed b n packed.now }
{
    if packed.len() != packed_size(n, b) {
        return true;
    }
    let end = offset_of(n, b);
    let padding = (packed.len() - end.byte) as u32 * 8 - end.bit;
    code_at(packed, end, padding) != 0
}

// Code i of those that the bytes hold.
fn unpacked_code(packed: &[u8], i: usize, b: u32) -> u32
    requires { CodeInBytes i b packed.now }
    ensures { result ≡ number_of (take b (drop (i * b) (to_bits packed.now))) }
{
    code_at(packed, offset_of(i, b), b)
}

// Row 15, for codes that are still packed, since nothing may be written yet.
fn has_bad_unpacked(words: u32, n: usize, packed: &[u8], b: u32) -> bool
    requires { RightSize b n packed.now }
    ensures { result ≡ any (bad_code words) (unpacked b n packed.now) }
{
    for i in 0..n {
        if words <= unpacked_code(packed, i, b) {
            return true;
        }
    }
    false
}

// The rows of unpacking in the table's order, all judged before a byte is written, or n.
fn judge_unpack(words: u32, n: u32, packed: &[u8], out: &[u8]) -> Result<u32, Refusal>
    ensures { answer_of result ≡ unpack_answer words n packed.now out.now }
{
    let count = n as usize;
    if !inside(words as usize, 1, WORDS) {
        return Err(Refusal::WordCount);
    }
    if !inside(count, 1, CODES) {
        return Err(Refusal::Count);
    }
    let b = width_of(words);
    if is_bad_packed(count, packed, b) {
        return Err(Refusal::Packed);
    }
    if has_bad_unpacked(words, count, packed, b) {
        return Err(Refusal::Code);
    }
    if out.len() < 4 * count {
        return Err(Refusal::Output);
    }
    Ok(n)
}

// Puts a number as u32, little-endian. Other crates do the like in a line: a shared function would be public, and test
// for room.
fn put_u32(out: &mut [u8], at: usize, v: u32)
    requires { at + 4 ≤ length out.old }
    ensures { out.new ≡ overlay at (u32_bytes v) out.old }
{
    out[at..at + 4].copy_from_slice(&u32_bytes(v));
}

// Unpacks codes that were judged.
fn put_unpacked(out: &mut [u8], n: usize, packed: &[u8], b: u32)
    requires { RightSize b n packed.now × (n * 4 ≤ length out.old) }
    ensures { out.new ≡ overlay 0 (flat_map u32_bytes (unpacked b n packed.now)) out.old }
{
    for i in 0..n {
        put_u32(out, i * 4, unpacked_code(packed, i, b));
    }
}

// Unpacks n codes, writes each as u32, and answers n.
pub fn unpack(words: u32, n: u32, packed: &[u8], out: &mut [u8]) -> Result<u32, Refusal>
    ensures result_value { answer_of result ≡ unpack_answer words n packed.now out.old }
    ensures out_after { out.new ≡ unpack_out words n packed.now out.old }
{
    let count = judge_unpack(words, n, packed, &out[..])?;
    put_unpacked(out, n as usize, packed, width_of(words));
    Ok(count)
}
