// The parts of the input: two images, each after its u16 length, then n, then the frames. The input may end anywhere.
ghost use Rattle.std.specs.Prelude.{◌≡◌, drop};
ghost use Rattle.endian.specs.Bytes.{u8};
ghost use Rattle.report.specs.Report.{image_in, after_image};

use endian::u16_of;

// An image after its length, and what follows it. Missing bytes leave the image short.
pub(crate) fn cut_image(input: &[u8]) -> (&[u8], &[u8])
    ensures image { result.0.now ≡ image_in input.now }
    ensures rest { result.1.now ≡ after_image input.now }
{
    let Some((&[lo, hi], rest)) = input.split_first_chunk::<2>() else {
        return (&[], &[]);
    };
    let size = u16_of(lo, hi) as usize;
    rest.split_at(size.min(rest.len()))
}

// n is the first byte after the images; a missing n is 0.
pub(crate) fn count(rest: &[u8]) -> u32
    ensures { result ≡ u8 rest.now 0 }
{
    match rest.first() {
        Some(n) => u32::from(*n),
        None => 0,
    }
}

// The frames follow n.
pub(crate) fn frames(rest: &[u8]) -> &[u8]
    ensures { result.now ≡ drop 1 rest.now }
{
    match rest.split_first() {
        Some((_, frames)) => frames,
        None => &[],
    }
}
