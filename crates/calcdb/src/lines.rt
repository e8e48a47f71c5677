//! A text as lines, and a line as words.

ghost use Rattle.std.specs.Prelude.{◌≡◌, ◌<◌, ◌∷◌, length, option_map, position, IfSome};
ghost use Rattle.calcdb.specs.Reads.{ReadsExactly};
ghost use Rattle.calcdb.specs.Lines as spec;
ghost use Rattle.calcdb.specs.Lines.{left_pieces, pieces, words};

use crate::faults::misreads::{Misread, Quote};
use memchr::memchr;

/// Whether a byte parts words.
#[inline(always)]
fn is_blank(byte: u8) -> bool
    ensures { result ≡ spec.is_blank byte }
{
    byte == b' ' || byte == b'\t'
}

#[inline(always)]
fn line_end(text: &[u8]) -> Option<usize>
    ensures { result ≡ position spec.is_line_feed text.now }
{
    memchr(b'\n', text)
}

#[inline(always)]
fn word_end(line: &[u8]) -> Option<usize>
    ensures { result ≡ position spec.is_blank line.now }
{
    let mut at = 0;
    while at < line.len() {
        let byte = line[at];
        // Most bytes take the first test alone.
        if byte <= b' ' && is_blank(byte) {
            return Some(at);
        }
        at += 1;
    }
    None
}

/// The first line of a text, and what stands after its line feed, if it has one.
#[inline(always)]
pub(crate) fn line_at(text: &[u8]) -> (&[u8], Option<&[u8]>)
    ensures pieces { pieces spec.is_line_feed text.now ≡ result.0.now ∷ left_pieces spec.is_line_feed (option_map (λ r. r.now) result.1) }
    ensures shorter { IfSome result.1 (λ r. length r.now < length text.now) }
{
    match line_end(text) {
        Some(at) => (&text[..at], Some(&text[at + 1..])),
        None => (text, None),
    }
}

/// What stands before the first blank of a line, and what after it, if there is one.
#[inline(always)]
fn piece_at(line: &[u8]) -> (&[u8], Option<&[u8]>)
    ensures pieces { pieces spec.is_blank line.now ≡ result.0.now ∷ left_pieces spec.is_blank (option_map (λ r. r.now) result.1) }
    ensures shorter { IfSome result.1 (λ r. length r.now < length line.now) }
{
    match word_end(line) {
        Some(at) => (&line[..at], Some(&line[at + 1..])),
        None => (line, None),
    }
}

/// A line without the carriage return at its end.
pub(crate) fn without_return(line: &[u8]) -> &[u8]
    ensures { result.now ≡ spec.without_return line.now }
{
    match line {
        [front @ .., b'\r'] => front,
        _ => line,
    }
}

fn may_stand(byte: u8) -> bool
    ensures { result ≡ spec.is_allowed byte }
{
    byte == b'\t' || (b' '..=b'~').contains(&byte)
}

/// Bytes that are looked at together.
const BLOCK: usize = 16;

#[inline(always)]
fn all_may_stand(bytes: &[u8]) -> bool
    ensures { result ≡ spec.all_pass spec.is_allowed bytes.now }
{
    // It goes on behind the first that isn't, so that many bytes are looked at together.
    let mut all = true;
    for byte in bytes {
        all &= may_stand(*byte);
    }
    all
}

/// Whether all bytes are such that a line may have.
#[inline(always)]
pub(crate) fn is_allowed(line: &[u8]) -> bool
    ensures { result ≡ spec.all_pass spec.is_allowed line.now }
{
    if line.len() < BLOCK {
        return all_may_stand(line);
    }
    let mut at = 0;
    while line.len() - at > BLOCK {
        if !all_may_stand(&line[at..at + BLOCK]) {
            return false;
        }
        at += BLOCK;
    }
    // The last block may begin in the one before.
    all_may_stand(&line[line.len() - BLOCK..])
}

/// The first word of a line, if it has one, and what stands after it.
// Most words are short, and so is what it does for one.
#[inline(always)]
pub(crate) fn first_word(line: &[u8]) -> Option<(&[u8], &[u8])>
    ensures words { option_map (λ p. (p.0.now, words p.1.now)) result ≡ spec.first_word (words line.now) }
    ensures shorter { IfSome result (λ p. length p.1.now < length line.now) }
{
    let mut rest = line;
    loop {
        let (piece, behind) = piece_at(rest);
        match behind {
            Some(after) if piece.is_empty() => rest = after,
            Some(after) => return Some((piece, after)),
            None if piece.is_empty() => return None,
            None => return Some((piece, &piece[piece.len()..])),
        }
    }
}

/// The first word of a line, and what stands after it.
#[inline(always)]
pub(crate) fn word_at(line: &[u8]) -> Result<(&[u8], &[u8]), Misread>
    ensures { ReadsExactly (λ p. (p.0.now, words p.1.now)) result (spec.first_word (words line.now)) }
{
    first_word(line).ok_or(Misread::MissingWord)
}

/// Nothing, where no word is left.
pub(crate) fn end_of(line: &[u8]) -> Result<(), Misread>
    ensures { ReadsExactly (λ p. p) result (spec.no_word (words line.now)) }
{
    match first_word(line) {
        Some((word, _)) => Err(Misread::MoreWords(Quote::of(word))),
        None => Ok(()),
    }
}

/// Whether a word begins with `;`, so that its line says nothing.
pub(crate) fn is_comment(word: &[u8]) -> bool
    ensures { result ≡ spec.is_comment word.now }
{
    word.first() == Some(&b';')
}

/// Whether a line says nothing: it has no word, or its first one begins with `;`.
pub(crate) fn is_skipped(line: &[u8]) -> bool
    ensures { result ≡ spec.is_skipped (words line.now) }
{
    match first_word(line) {
        Some((word, _)) => is_comment(word),
        None => true,
    }
}
