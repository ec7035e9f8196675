// Packing codes that were judged. Codes are joined, the highest bit first, and a byte is put when eight bits are there.
// Byte and bit are carried along, so that no division finds where a code begins (document 02, 5/13).
ghost use Rattle.std.specs.Prelude.{◌≡◌, ◌++◌, ◌+◌, ◌*◌, ◌^◌, ◌≤◌, ◌<◌, length, drop};
ghost use Rattle.packing.specs.Packing.{packed, packed_size};
ghost use Rattle.packing.specs.Walks.{Packable, BitsFit, BytePut, CodeFits, CodePut, RestFits, RestPut};

use crate::bits::BitOffset;

// A place says here that so many bytes are put, and that so many bits behind them are in no byte yet: fewer than 8
// where a code begins.

// The bits that are held, with the b bits of a code behind them.
fn join(held: u32, b: u32, code: u32) -> u32
    requires { (held < 256) × (b ≤ 20) × (code < 2 ^ b) }
    ensures { result ≡ held * 2 ^ b + code }
{
    (held << b) + code
}

// Puts the next byte, if eight bits for it are there.
fn put_byte(out: &mut [u8], at: BitOffset, joined: u32) -> BitOffset
    requires { BitsFit at.byte at.bit out.old }
    ensures { BytePut joined at.byte at.bit result.byte result.bit out.old out.new }
{
    if at.bit < 8 {
        return at;
    }
    let byte = at.byte;
    let bit = at.bit - 8;
    out[byte] = ((joined >> bit) % 256) as u8;
    BitOffset {
        byte: byte + 1,
        bit,
    }
}

// The step from code to code: byte and bit of i × b in, those of (i + 1) × b out. The bits joined end with the code; 7
// before it and 20 of its own fill three bytes at most. A loop over these bytes is slower (docs/DECISIONS.md, 119).
fn put_code(out: &mut [u8], at: BitOffset, b: u32, joined: u32) -> BitOffset
    requires { CodeFits b at.byte at.bit out.old }
    ensures { CodePut b joined at.byte at.bit result.byte result.bit out.old out.new }
{
    let end = BitOffset {
        byte: at.byte,
        bit: at.bit + b,
    };
    let after_one = put_byte(out, end, joined);
    let after_two = put_byte(out, after_one, joined);
    put_byte(out, after_two, joined)
}

// Puts the last bits of the codes, where they fill no byte, with zero bits up to the byte's end.
fn put_rest(out: &mut [u8], at: BitOffset, held: u32)
    requires { RestFits at.byte at.bit held out.old }
    ensures { RestPut (packed_size 1 (at.byte * 8 + at.bit)) at.byte at.bit held
        out.old out.new }
{
    if at.bit == 0 {
        return;
    }
    let byte = at.byte;
    out[byte] = ((held << (8 - at.bit)) % 256) as u8;
}

// Puts the packed codes at the front of the output.
pub(crate) fn put_codes(out: &mut [u8], b: u32, codes: &[u32])
    requires { Packable b codes.now out.old }
    ensures { out.new
        ≡ packed b codes.now ++ drop (packed_size b (length codes.now)) out.old }
{
    let mut at = BitOffset { byte: 0, bit: 0 };
    let mut held = 0;
    for code in codes {
        let joined = join(held, b, *code);
        at = put_code(out, at, b, joined);
        // the bits that are in no byte yet are fewer than 8, the last of them all
        held = joined % 256;
    }
    put_rest(out, at, held);
}
