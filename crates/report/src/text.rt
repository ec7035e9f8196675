// Text put on a page, behind what stands there: numbers, and the lines that the program hits prints.
ghost use Rattle.std.specs.Prelude.{◌≡◌, [], ◌∷◌, ◌++◌, ◌+◌, ◌≤◌, length};
ghost use Rattle.call.specs.Table.{number};
ghost use Rattle.packing.specs.Width.{width};
ghost use Rattle.report.specs.Page.{blank_page};
ghost use Rattle.report.specs.Report.{decimal, signed_decimal, first_line, refused_text};
ghost use Rattle.report.specs.Text.{Written};

use crate::Page;
use call::Refusal;
use itoa::{Buffer, Integer};

impl<const N: usize> Page<N> {
    // A page with nothing on it.
    pub(crate) fn blank() -> Self
        ensures text { result.text ≡ blank_page N }
        ensures length { result.length ≡ 0 }
    {
        Page {
            text: [0; N],
            length: 0,
        }
    }

    // Puts bytes.
    pub(crate) fn put_bytes(&mut self, text: &[u8])
        requires { self.old.length + length text.now ≤ N }
        ensures { Written text.now self.old self.new }
    {
        let end = self.length + text.len();
        // of a slice a part can be lent, of an array of N bytes it cannot
        let page = &mut self.text[..];
        page[self.length..end].copy_from_slice(text);
        self.length = end;
    }

    // Puts one byte.
    pub(crate) fn put_byte(&mut self, byte: u8)
        requires { self.old.length + 1 ≤ N }
        ensures { Written (byte ∷ []) self.old self.new }
    {
        self.text[self.length] = byte;
        self.length += 1;
    }

    // Puts a number in decimal digits, with a minus sign before a negative one. Its text is made on the stack, since
    // `write!` says nothing of when it fails, and a page must hold all of it.
    pub(crate) fn put_number<I: Integer>(&mut self, number: I)
        requires { self.old.length + I.MAX_STR_LEN ≤ N }
        ensures text { Written (I.text number) self.old self.new }
        ensures few_bytes { self.new.length ≤ self.old.length + I.MAX_STR_LEN }
    {
        let mut buffer = Buffer::new();
        self.put_bytes(buffer.format(number).as_bytes());
    }

    // Puts a number with its label before it.
    pub(crate) fn put_labelled<I: Integer>(&mut self, label: &[u8], number: I)
        requires { self.old.length + length label.now + I.MAX_STR_LEN ≤ N }
        ensures text { Written (label.now ++ I.text number) self.old self.new }
        ensures few_bytes { self.new.length ≤ self.old.length + length label.now + I.MAX_STR_LEN }
    {
        self.put_bytes(label);
        self.put_number(number);
    }

    // Puts line 1: hits listed, words, bits of a code.
    pub(crate) fn put_first_line(&mut self, listed: u32, words: u32, bits: u32)
        requires bits_value { bits ≡ width words }
        requires in_bounds { self.old.length + 49 ≤ N }
        ensures { Written (first_line listed words) self.old self.new }
    {
        self.put_labelled(b"hits ", listed);
        self.put_labelled(b" words ", words);
        self.put_labelled(b" bits ", bits);
        self.put_byte(10);
    }

    // Puts the one line of a refusal.
    pub(crate) fn put_refusal(&mut self, refusal: Refusal)
        requires { self.old.length + 19 ≤ N }
        ensures { Written (refused_text ++ decimal (number refusal) ++ (10 ∷ [])) self.old self.new }
    {
        self.put_labelled(b"refused ", refusal.number());
        self.put_byte(10);
    }

    // Puts a hit's line: code, score, mean, word.
    pub(crate) fn put_hit_line(&mut self, code: u32, score: i32, mean: i32, word: &[u8])
        requires { self.old.length + 36 + length word.now ≤ N }
        ensures { Written
            (decimal code ++ 32 ∷ signed_decimal score ++ 32 ∷ signed_decimal mean ++ 32 ∷ word.now ++ (10 ∷ []))
            self.old self.new }
    {
        self.put_number(code);
        self.put_labelled(b" ", score);
        self.put_labelled(b" ", mean);
        self.put_byte(32);
        self.put_bytes(word);
        self.put_byte(10);
    }
}
