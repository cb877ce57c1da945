// Values of the header into the words of its record (`head_words` says where each field stands); what is beyond stays as it was.
#![tactic(auto)]

ghost use Rattle.std.specs.Prelude.{◌≡◌, [], ◌∷◌, ◌+◌, ◌*◌, ◌≤◌, length};
ghost use Rattle.std.proofs.lemmas.List.Edits.{sets};
ghost use Rattle.head_words.specs.Words.{span_words, range_words, spans_words, ranges_words};

use head_record::Range;
use table_put::put2;
use text_parts::Span;

// One number.
pub fn put1(words: &mut [u64], at: usize, a: u64)
    requires { at + 1 ≤ length words.old }
    ensures { words.new ≡ sets words.old at (a ∷ []) }
{
    words[at] = a;
}

// A string.
pub fn put_span(words: &mut [u64], at: usize, x: Span)
    requires { at + 2 ≤ length words.old }
    ensures { words.new ≡ sets words.old at (span_words x) }
{
    put2(words, at, x.start as u64, x.len as u64);
}

// A range.
pub fn put_range(words: &mut [u64], at: usize, x: Range)
    requires { at + 2 ≤ length words.old }
    ensures { words.new ≡ sets words.old at (range_words x) }
{
    put2(words, at, x.from, x.to);
}

// The first n strings of a list.
pub fn put_spans(words: &mut [u64], at: usize, items: [Span; 32], n: usize)
    requires { (n ≤ 32) × (at + 2 * n ≤ length words.old) }
    ensures { words.new ≡ sets words.old at (spans_words n items) }
{
    for k in 0..n {
        let x = items[k];
        put2(words, at + 2 * k, x.start as u64, x.len as u64);
    }
}

// The ranges of STREAM_WIN. Apart from `put_spans`: a trait for what takes two words, with its law and two impls, is longer than the loop.
pub fn put_ranges(words: &mut [u64], at: usize, items: [Range; 8])
    requires { at + 16 ≤ length words.old }
    ensures { words.new ≡ sets words.old at (ranges_words 8 items) }
{
    for k in 0..8 {
        let x = items[k];
        put2(words, at + 2 * k, x.from, x.to);
    }
}

// Words that stand elsewhere.
pub fn put_all(words: &mut [u64], at: usize, from: &[u64])
    requires { at + length from.now ≤ length words.old }
    ensures { words.new ≡ sets words.old at from.now }
{
    words[at..at + from.len()].copy_from_slice(from);
}
