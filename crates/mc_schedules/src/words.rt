//! The lines of a text, the words of a line, and what a single word can be.
ghost use Rattle.std.specs.List.{slice_split};
ghost use Rattle.std.specs.Prelude.{◌≡◌, ◌==◌, IfOk, IsOkUnless, map};
ghost use Rattle.mc_read.specs.Word.{is_word, spaced_words};

use mc_model::Fault;
use std::alloc::{AllocError, Global};

/// Returns the pieces of the text that the byte separates, at least one. Returns `AllocError` if
/// the allocation fails.
pub fn pieces(alloc: Global, text: &[u8], byte: u8) -> Result<Vec<&[u8]>, AllocError>
    ensures { IfOk result
        (λ found. map (λ piece. piece.now) found.items
        ≡ slice_split (λ one. one == byte) text.now) }
{
    text.split(|one| *one == byte).collect(alloc)
}

/// Returns the line's words, separated by runs of spaces. Returns `Memory` if an allocation fails.
pub fn words(alloc: Global, line: &[u8]) -> Result<Vec<&[u8]>, Fault>
    ensures words { IfOk result
        (λ found. map (λ word. word.now) found.items ≡ spaced_words line.now) }
    ensures memory { IsOkUnless result Fault.Memory }
{
    let all = pieces(alloc, line, b' ')?;
    let mut found = Vec::with_capacity(alloc, all.len())?;
    for piece in &all {
        if !piece.is_empty() {
            found.push(*piece)?;
        }
    }
    Ok(found)
}

/// Returns whether the word is this name, byte for byte.
pub fn is_word(word: &[u8], name: &[u8]) -> bool
    ensures { result ≡ is_word word.now name.now }
{
    word == name
}
