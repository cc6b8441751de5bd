//! The words of a line, and what a single word can be.
ghost use Rattle.std.specs.Char.{is_ascii_digit};
ghost use Rattle.std.specs.List.{after_first, before_first, list_all};
ghost use Rattle.std.specs.Prelude.{◌≡◌, [], ◌∷◌, MatchOption};
ghost use Rattle.mc_read.specs.Word.{is_exptime, is_noreply, is_space, is_word, is_zero, spaced_words, without_minus, without_return, words};

use memchr::memchr;
use std::marker::Model;

/// Returns the line without a carriage return at its end, of which at most one is removed.
fn without_return(line: &[u8]) -> &[u8]
    ensures { result.now ≡ without_return line.now }
{
    match line.split_last() {
        Some((b'\r', front)) => front,
        _ => line,
    }
}

/// Returns what comes before the first space and what comes after it; everything and nothing if
/// there is no space.
fn split_at_space(text: &[u8]) -> (&[u8], &[u8])
    ensures front { result.0.now ≡ before_first is_space text.now }
    ensures back { result.1.now ≡ after_first is_space text.now }
{
    match memchr(b' ', text) {
        Some(end) => (&text[..end], &text[end + 1..]),
        None => (text, &text[text.len()..]),
    }
}

/// Returns the first word of a text and what comes after it, or `None` if there is no word.
fn first_word(text: &[u8]) -> Option<(&[u8], &[u8])>
    ensures { MatchOption result (spaced_words text.now ≡ [])
        (λ found. spaced_words text.now ≡ found.0.now ∷ spaced_words found.1.now) }
{
    let mut rest = text;
    while !rest.is_empty() {
        let (word, others) = split_at_space(rest);
        if !word.is_empty() {
            return Some((word, others));
        }
        rest = others;
    }
    None
}

/// The words of a line that are still to be looked at, separated by runs of spaces. They are looked
/// at where they stand.
#[derive(Debug, Drop)]
pub struct Words<'a> {
    rest: &'a [u8],
}

impl<'a> Model for Words<'a> {
    ghost use Rattle.std.specs.Prelude.{ℕ, List};
    ghost use Rattle.mc_read.specs.Word.{spaced_words};

    ghost Value = { List (List ℕ) };

    ghost view = { λ words. spaced_words words.rest.now };
}

impl<'a> Words<'a> {
    /// Returns the words of a line.
    pub fn of(line: &'a [u8]) -> Words<'a>
        ensures { result ≡ words line.now }
    {
        Words {
            rest: without_return(line),
        }
    }

    /// Returns the words that are still to be looked at, for another look.
    pub fn again(&self) -> Words<'a>
        ensures { result ≡ self.now }
    {
        Words { rest: self.rest }
    }

    /// Takes the next word, if there is one.
    pub fn next(&mut self) -> Option<&'a [u8]>
        ensures { MatchOption result ((self.old ≡ []) × (self.new ≡ []))
            (λ word. self.old ≡ word.now ∷ self.new) }
    {
        let (word, rest) = first_word(self.rest)?;
        self.rest = rest;
        Some(word)
    }
}

/// Returns whether the word is this name, byte for byte.
pub fn is_word(word: &[u8], name: &[u8]) -> bool
    ensures { result ≡ is_word word.now name.now }
{
    word == name
}

/// Returns whether the word asks for no reply.
pub fn is_noreply(word: &[u8]) -> bool
    ensures { result ≡ is_noreply word.now }
{
    is_word(word, b"noreply")
}

/// Returns an exptime without its sign.
fn without_minus(word: &[u8]) -> &[u8]
    ensures { result.now ≡ without_minus word.now }
{
    match word.split_first() {
        Some((b'-', rest)) => rest,
        _ => word,
    }
}

/// Returns whether each byte is a decimal digit.
fn are_digits(bytes: &[u8]) -> bool
    ensures { result ≡ list_all is_ascii_digit bytes.now }
{
    bytes.iter().all(|byte| byte.is_ascii_digit())
}

/// Returns whether the word is an exptime: an optional minus and one or more digits, of any count.
#[tactic(auto, using(crate::proofs::WordTests::all_ascii_digits_by_test))]
pub fn is_exptime(word: &[u8]) -> bool
    ensures { result ≡ is_exptime word.now }
{
    let digits = without_minus(word);
    !digits.is_empty() && are_digits(digits)
}

/// Returns whether the digits of the exptime are all 0.
pub fn is_zero(word: &[u8]) -> bool
    ensures { result ≡ is_zero word.now }
{
    without_minus(word).iter().all(|byte| *byte == b'0')
}
