// Bits in bytes, the highest first: a code of b bits that begins anywhere in a byte. A code is put and read in chunks,
// each of which lies in one byte, so that a step handles up to eight bits.
ghost use Rattle.std.specs.Prelude.{◌≡◌, ◌+◌, ◌-◌, ◌*◌, ◌^◌, ◌≤◌, ◌<◌, min, take, drop};
ghost use Rattle.packing.specs.Packing.{bits, number_of, to_bits};
ghost use Rattle.packing.specs.Offsets.{overlay, InBytes};

// A place in bytes: bit `bit` of byte `byte`.
#[derive(Clone, Copy)]
pub(crate) struct BitOffset {
    pub byte: usize,
    pub bit: u32,
}

// A chunk ends with its byte, or with the code, of which `left` bits are left.
fn chunk_size(used: u32, left: u32) -> u32
    requires { used < 8 }
    ensures { result ≡ min (8 - used) left }
{
    left.min(8 - used)
}

// 2^k.
pub(crate) fn power(k: u32) -> u32
    requires { k < 32 }
    ensures { result ≡ 2 ^ k }
{
    1 << k
}

// The byte with the bits of a chunk in place of those after its first `used` bits; the others stay, since they may be
// another code's.
fn with_chunk(byte: u8, used: u32, size: u32, chunk: u32) -> u8
    requires { (used + size ≤ 8) × (chunk < 2 ^ size) }
    ensures { bits 8 result ≡ overlay used (bits size chunk) (bits 8 byte) }
{
    let after = power(8 - used - size);
    let old = byte as u32;
    let high = old >> (8 - used);
    let low = old % after;
    ((high * power(size) + chunk) * after + low) as u8
}

// The number that `size` bits of the byte make, after its first `used` bits.
fn chunk_of(byte: u8, used: u32, size: u32) -> u32
    requires { used + size ≤ 8 }
    ensures { result ≡ number_of (take size (drop used (bits 8 byte))) }
{
    ((byte as u32) >> (8 - used - size)) % power(size)
}

// Puts the code's b bits at a place; which one is the caller's matter.
pub(crate) fn put_code(out: &mut [u8], start: BitOffset, b: u32, code: u32)
    requires { InBytes start.byte start.bit b out.old }
    ensures { to_bits out.new ≡ overlay (start.byte * 8 + start.bit) (bits b code) (to_bits out.old) }
{
    let end = start.bit + b;
    let mut at = start.bit;
    // a step is a chunk, of one bit to eight, so that no range counts the steps
    while at < end {
        let used = at % 8;
        let size = chunk_size(used, end - at);
        let chunk = (code >> (end - at - size)) % power(size);
        let i = start.byte + (at / 8) as usize;
        out[i] = with_chunk(out[i], used, size, chunk);
        at += size;
    }
}

// Reads what `put_code` puts: the number of the b bits from a place on.
pub(crate) fn code_at(packed: &[u8], start: BitOffset, b: u32) -> u32
    requires { InBytes start.byte start.bit b packed.now }
    ensures { result ≡ number_of (take b (drop (start.byte * 8 + start.bit) (to_bits packed.now))) }
{
    let end = start.bit + b;
    let mut at = start.bit;
    let mut code = 0;
    // the steps are those of `put_code`
    while at < end {
        let used = at % 8;
        let size = chunk_size(used, end - at);
        let chunk = chunk_of(packed[start.byte + (at / 8) as usize], used, size);
        code = code * power(size) + chunk;
        at += size;
    }
    code
}
