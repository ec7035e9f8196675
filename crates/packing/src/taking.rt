// Unpacking: bytes are taken until the bits of a code are held. Bytes taken and bits held are carried along from code
// to code, and no division finds where a code begins. It is a walk of its own: packing puts a byte when its last bit is
// there, and unpacking takes one as soon as its first is needed.
ghost use Rattle.std.specs.Prelude.{◌≡◌, ◌-◌, ◌%◌, ◌^◌, ◌≤◌, ◌<◌, length};
ghost use Rattle.packing.specs.Walks.{PackedLength, CanTake, BytesTaken, CodesRead};

use crate::bits::power;

// So many bytes are taken, and of their bits so many are held, as the number that they make.
#[derive(Clone, Copy)]
struct Taken {
    bytes: usize,
    bits: u32,
    held: u32,
}

// Takes bytes until b bits are held.
fn take_bytes(packed: &[u8], at: Taken, b: u32) -> Taken
    requires { CanTake b at.bytes at.bits at.held packed.now }
    ensures { BytesTaken b at.bytes at.bits at.held result.bytes result.bits result.held
        packed.now }
{
    let mut bytes = at.bytes;
    let mut bits = at.bits;
    let mut held = at.held;
    // what ends it is the number of bits held, and a range would need a division
    while bits < b {
        held = held * 256 + packed[bytes] as u32;
        bytes += 1;
        bits += 8;
    }
    Taken { bytes, bits, held }
}

// What is held behind the first b bits, which are a code.
fn pass_code(at: Taken, b: u32) -> Taken
    requires { (b ≤ at.bits) × (at.bits < 32) }
    ensures { (result.bytes ≡ at.bytes) × (result.bits ≡ at.bits - b) × (result.held ≡ at.held % 2 ^ (at.bits - b)) }
{
    let left = at.bits - b;
    Taken {
        bytes: at.bytes,
        bits: left,
        held: at.held % power(left),
    }
}

// Reads as many codes as there is room for, and answers the padding: the number that the bits behind them make.
pub(crate) fn read_codes(packed: &[u8], b: u32, codes: &mut [u32]) -> u32
    requires { PackedLength b (length codes.old) packed.now }
    ensures { CodesRead b (length codes.old) result packed.now codes.new }
{
    let mut at = Taken {
        bytes: 0,
        bits: 0,
        held: 0,
    };
    for code in codes.iter_mut() {
        let more = take_bytes(packed, at, b);
        *code = more.held >> (more.bits - b);
        at = pass_code(more, b);
    }
    at.held
}
