// Numbers stored in bytes: little-endian, signed ones in two's complement. Each function takes any arguments.
#![tactic(auto)]

ghost use Rattle.std.specs.Prelude.{◌≡◌, [], ◌∷◌};
ghost use Rattle.endian.specs.Bytes.{u16, u32, i16, i32, u32_bytes, i32_bytes};

// The library's conversions, under contracts in the definitions' words. They stay six functions: a trait over the types
// would have the same bodies.

// The u16 that two bytes hold.
pub fn u16_of(lo: u8, hi: u8) -> u16
    ensures { result ≡ u16 (lo ∷ hi ∷ []) 0 }
{
    number_of([lo, hi])
}

// The number that a pair of bytes holds. A loop over the pairs of a list reads each in one step by it.
pub fn number_of(pair: [u8; 2]) -> u16
    ensures { result ≡ u16 pair 0 }
{
    u16::from_le_bytes(pair)
}

// The i16 that two bytes hold.
pub fn i16_of(lo: u8, hi: u8) -> i16
    ensures { result ≡ i16 (lo ∷ hi ∷ []) 0 }
{
    i16::from_le_bytes([lo, hi])
}

// The u32 that four bytes hold.
pub fn u32_of(b0: u8, b1: u8, b2: u8, b3: u8) -> u32
    ensures { result ≡ u32 (b0 ∷ b1 ∷ b2 ∷ b3 ∷ []) 0 }
{
    u32::from_le_bytes([b0, b1, b2, b3])
}

// The i32 that four bytes hold.
pub fn i32_of(b0: u8, b1: u8, b2: u8, b3: u8) -> i32
    ensures { result ≡ i32 (b0 ∷ b1 ∷ b2 ∷ b3 ∷ []) 0 }
{
    i32::from_le_bytes([b0, b1, b2, b3])
}

// The u16 stored at an offset; a byte past the end reads as 0.
pub fn u16_at(bytes: &[u8], at: usize) -> u16
    ensures { result ≡ u16 bytes.now at }
{
    if bytes.len() <= at {
        return 0;
    }
    match &bytes[at..] {
        [lo, hi, ..] => u16_of(*lo, *hi),
        [lo] => u16_of(*lo, 0),
        [] => 0,
    }
}

// The bytes of a u32.
pub fn u32_bytes(n: u32) -> [u8; 4]
    ensures { result ≡ u32_bytes n }
{
    n.to_le_bytes()
}

// The bytes of an i32.
pub fn i32_bytes(z: i32) -> [u8; 4]
    ensures { result ≡ i32_bytes z }
{
    z.to_le_bytes()
}
