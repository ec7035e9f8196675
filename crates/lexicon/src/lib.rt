// The lexicon image: the verdict on its fields, and where the successors of a vertex stand.
#![tactic(auto)]

ghost use Rattle.std.specs.Prelude.{◌≡◌, ◌+◌, ◌*◌, ◌≤◌, min, length};
ghost use Rattle.endian.specs.Bytes.{u16};
ghost use Rattle.call.specs.Table.{refusal_of};
ghost use Rattle.voice.specs.Fields.{verdict_of};
ghost use Rattle.lexicon.specs.Lexicon.{arcs_at, listed, numbers_of, successor_part};
ghost use Rattle.lexicon.specs.Lexicon.{lexicon_verdict, lexicon_refused};

use crate::fields::{arcs, nodes, reserve};
use call::Refusal;
use endian::{u16_at, u16_of};
use voice::Fault;

mod fields;

// Past the count and the list of u16 that stand at `at`, or the end of the bytes where they end before the list does.
fn skip(lexicon: &[u8], at: usize) -> usize
    requires { at ≤ length lexicon.now }
    ensures { result ≡ min (at + 2 + 2 * u16 lexicon.now at) (length lexicon.now) }
{
    let left = lexicon.len() - at;
    let size = 2 + 2 * (u16_at(lexicon, at) as usize);
    at + size.min(left)
}

// Where the list of a vertex begins, with its count, or the end of the bytes where they end before that.
fn arcs_at(lexicon: &[u8], vertex: usize) -> usize
    ensures { result ≡ min (arcs_at lexicon.now vertex) (length lexicon.now) }
{
    let nodes = u16_at(lexicon, 0) as usize;
    let mut at = lexicon.len().min(2 + nodes);
    for _u in 0..vertex {
        at = skip(lexicon, at);
    }
    at
}

// The part of the image that holds the successors of a vertex, for any bytes and any vertex: empty where the vertex is
// above the N read there or the bytes end before its list does. Only its bytes are promised, not where in the image
// they lie.
pub fn successors(lexicon: &[u8], vertex: usize) -> &[u8]
    ensures { result.now ≡ successor_part lexicon.now vertex }
{
    if (u16_at(lexicon, 0) as usize) < vertex {
        return &lexicon[0..0];
    }
    let at = arcs_at(lexicon, vertex);
    let left = lexicon.len() - at;
    let size = 2 * (u16_at(lexicon, at) as usize);
    if left < 2 + size {
        return &lexicon[0..0];
    }
    let start = at + 2;
    let end = start + size;
    &lexicon[start..end]
}

// The numbers of the list that stands at an offset behind its count, two bytes each, for any bytes and any offset: none
// where the bytes end before the list does.
pub fn list_at(lexicon: &[u8], at: usize) -> &[[u8; 2]]
    ensures { numbers_of result.now ≡ listed lexicon.now at }
{
    let Some(list) = lexicon.get(at..) else {
        return &[];
    };
    let Some((&[lo, hi], rest)) = list.split_first_chunk::<2>() else {
        return &[];
    };
    let count = u16_of(lo, hi) as usize;
    let (numbers, _) = rest.as_chunks::<2>();
    if numbers.len() < count {
        return &[];
    }
    &numbers[..count]
}

// All fields, section by section: the first that is missing or out of its range decides, and bytes after the last come
// last.
fn judge_fields(lexicon: &[u8], letters: usize) -> Result<(), Fault>
    ensures { verdict_of result ≡ lexicon_verdict letters lexicon.now }
{
    let n = nodes(lexicon, letters)?;
    let end = arcs(lexicon, n)?;
    reserve(lexicon, end)
}

// Whether any bytes are a well-formed lexicon of words in so many letters; if not, 4 or 5. It is no function over the
// two refusals with `voice::judge`, since each image has its own judge of fields.
pub fn judge(lexicon: &[u8], letters: usize) -> Result<(), Refusal>
    ensures { refusal_of result ≡ lexicon_refused letters lexicon.now }
{
    match judge_fields(lexicon, letters) {
        Ok(()) => Ok(()),
        Err(Fault::WrongLength) => Err(Refusal::LexiconLength),
        Err(Fault::OutOfRange) => Err(Refusal::LexiconRange),
    }
}
