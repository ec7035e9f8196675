// The C interface (include/wundaleth.h): a slice is a pointer and a length, and a call answers its value, or a
// refusal's number made negative.
#![tactic(auto)]

ghost use Rattle.std.specs.Prelude.{ℕ, ◌≡◌, pos};
ghost use Rattle.call.specs.Table.{answer_of, signed_answer};
ghost use Rattle.graph.specs.Checking.{check_answer, check_work};
ghost use Rattle.codes.specs.Lookup.{word_to_code_answer, word_to_code_work, code_to_word_answer, code_to_word_work};
ghost use Rattle.codes.specs.Lookup.{code_to_word_out, list_answer, list_out, list_work};
ghost use Rattle.codes.specs.Items.{words_to_codes_answer, words_to_codes_work, words_to_codes_out};
ghost use Rattle.canonical.specs.Canonical.{canonical_answer, canonical_out, canonical_work, canonical_further};
ghost use Rattle.decoder.specs.Decoding.{decode_answer, decode_out, decode_work};
ghost use Rattle.decoder.specs.Demand.{ListsHits};
ghost use Rattle.packing.specs.Packing.{pack_answer, pack_out, unpack_answer, unpack_out};
ghost use Rattle.wundaleth.specs.Answers.{FitsInt};

use building::canonical;
use call::Refusal;
use checking::check;
use codes::{code_to_word, list};
use decoding::decode;
use lookup::{word_to_code, words_to_codes};
use packing::{pack, unpack};

// An answer as C takes it.
fn signed_of(answer: Result<u32, Refusal>) -> i32
    requires { FitsInt (answer_of answer) }
    ensures { result ≡ signed_answer (answer_of answer) }
{
    match answer {
        Ok(n) => n as i32,
        Err(refusal) => -i32::from(refusal.number()),
    }
}

// Checks a voice model and a lexicon, and answers W.
#[unsafe(no_mangle)]
pub extern "C" fn wundaleth_check(voice: &[u8], lexicon: &[u8], work: &mut [u8]) -> i32
    ensures value { result ≡ signed_answer (check_answer voice.now lexicon.now work.old) }
    ensures work_after { work.new ≡ check_work voice.now lexicon.now work.old }
{
    signed_of(check(voice, lexicon, work))
}

// The code of a word, given as print bytes.
#[unsafe(no_mangle)]
pub extern "C" fn wundaleth_word_to_code(
    voice: &[u8],
    lexicon: &[u8],
    word: &[u8],
    work: &mut [u8],
) -> i32
    ensures value { result ≡ signed_answer (word_to_code_answer voice.now lexicon.now word.now work.old) }
    ensures work_after { work.new ≡ word_to_code_work voice.now lexicon.now word.now work.old }
{
    signed_of(word_to_code(voice, lexicon, word, work))
}

// Looks up each item of a stock list, writes u32 refusal number or 0 and u32 code or 0 for each, and answers the number
// of items, found or not.
#[unsafe(no_mangle)]
pub extern "C" fn wundaleth_words_to_codes(
    voice: &[u8],
    lexicon: &[u8],
    items: &[u8],
    work: &mut [u8],
    out: &mut [u8],
) -> i32
    ensures value { result ≡ signed_answer (words_to_codes_answer voice.now lexicon.now
        items.now work.old out.old) }
    ensures work_after { work.new ≡ words_to_codes_work voice.now lexicon.now
        items.now work.old }
    ensures out_after { out.new ≡ words_to_codes_out voice.now lexicon.now items.now
        work.old out.old }
{
    signed_of(words_to_codes(voice, lexicon, items, work, out))
}

// Writes the word of a code, as print bytes, and answers the bytes written.
#[unsafe(no_mangle)]
pub extern "C" fn wundaleth_code_to_word(
    voice: &[u8],
    lexicon: &[u8],
    code: u32,
    work: &mut [u8],
    out: &mut [u8],
) -> i32
    ensures value { result ≡ signed_answer (code_to_word_answer voice.now lexicon.now code work.old out.old) }
    ensures work_after { work.new ≡ code_to_word_work voice.now lexicon.now code work.old }
    ensures out_after { out.new ≡ code_to_word_out voice.now lexicon.now code work.old out.old }
{
    signed_of(code_to_word(voice, lexicon, code, work, out))
}

// Writes the words in code order, each followed by byte 10, and answers the bytes written.
#[unsafe(no_mangle)]
pub extern "C" fn wundaleth_list(
    voice: &[u8],
    lexicon: &[u8],
    work: &mut [u8],
    out: &mut [u8],
) -> i32
    ensures value { result ≡ signed_answer (list_answer voice.now lexicon.now work.old out.old) }
    ensures work_after { work.new ≡ list_work voice.now lexicon.now work.old }
    ensures out_after { out.new ≡ list_out voice.now lexicon.now work.old out.old }
{
    signed_of(list(voice, lexicon, work, out))
}

// Writes the canonical image of a lexicon, and answers the bytes written.
#[unsafe(no_mangle)]
pub extern "C" fn wundaleth_canonical(
    voice: &[u8],
    lexicon: &[u8],
    work: &mut [u8],
    further: &mut [u8],
    out: &mut [u8],
) -> i32
    ensures value { result ≡ signed_answer (canonical_answer voice.now lexicon.now work.old
        further.old out.old) }
    ensures work_after { work.new ≡ canonical_work work.old further.old }
    ensures further_after { further.new ≡ canonical_further work.old further.old }
    ensures out_after { out.new ≡ canonical_out voice.now lexicon.now work.old
        further.old out.old }
{
    signed_of(canonical(voice, lexicon, work, further, out))
}

// Writes the hits of the frames, at most n, best first, and answers how many.
#[unsafe(no_mangle)]
pub extern "C" fn wundaleth_decode(
    voice: &[u8],
    lexicon: &[u8],
    frames: &[u8],
    n: u32,
    work: &mut [u8],
    out: &mut [u8],
) -> i32
    ensures value { result ≡ signed_answer (decode_answer voice.now lexicon.now frames.now n work.old out.old) }
    ensures work_after { work.new ≡ decode_work voice.now lexicon.now frames.now n work.old }
    ensures out_after { out.new ≡ decode_out voice.now lexicon.now frames.now n work.old out.old }
    ensures by_index { (k : ℕ) → result ≡ pos k → ListsHits voice.now lexicon.now frames.now n k out.new }
{
    signed_of(decode(voice, lexicon, frames, n, work, out))
}

// Packs codes and answers the bytes written.
#[unsafe(no_mangle)]
pub extern "C" fn wundaleth_pack(words: u32, codes: &[u32], out: &mut [u8]) -> i32
    ensures value { result ≡ signed_answer (pack_answer words codes.now out.old) }
    ensures out_after { out.new ≡ pack_out words codes.now out.old }
{
    signed_of(pack(words, codes, out))
}

// Unpacks n codes, writes each as u32, and answers n.
#[unsafe(no_mangle)]
pub extern "C" fn wundaleth_unpack(words: u32, n: u32, packed: &[u8], out: &mut [u8]) -> i32
    ensures value { result ≡ signed_answer (unpack_answer words n packed.now out.old) }
    ensures out_after { out.new ≡ unpack_out words n packed.now out.old }
{
    signed_of(unpack(words, n, packed, out))
}
