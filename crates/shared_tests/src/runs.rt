//! Rows of texts, and what runs over memory get and leave.
use mc_stream::{InputStep, MemoryInput, MemoryOutput, OutputStep};
use std::alloc::{AllocError, Global};

/// A text in which `@` stands for a word that is repeated.
#[derive(Clone, Copy)]
pub struct Text<'a> {
    pub form: &'a str,
    pub word: &'a str,
    pub times: usize,
}

impl Text<'_> {
    /// Returns the text with its words.
    pub fn filled(&self, alloc: Global) -> Result<String, AllocError> {
        let word = self.word.repeat(alloc, self.times)?;
        self.form.replace(alloc, '@', &word)
    }
}

/// Returns the three columns of a row, with `|` between them.
pub fn columns<'a>(row: &'a str) -> (&'a str, &'a str, &'a str) {
    let (first, others) = row.split_once('|').unwrap_or((row, "?"));
    let (second, third) = others.split_once('|').unwrap_or((others, "?"));
    (first, second, third)
}

/// Returns an input that holds these bytes, and follows these steps first.
pub fn input_of(
    alloc: Global,
    sent: &[u8],
    steps: &[InputStep],
) -> Result<MemoryInput, AllocError> {
    let bytes = Vec::from_slice(alloc, sent)?;
    Ok(MemoryInput::new(bytes, Vec::from_slice(alloc, steps)?))
}

/// Returns an output that follows these steps first.
pub fn output_of(alloc: Global, steps: &[OutputStep]) -> Result<MemoryOutput, AllocError> {
    Ok(MemoryOutput::new(alloc, Vec::from_slice(alloc, steps)?))
}

/// What a run must leave.
#[derive(Clone, Copy)]
pub struct Wanted<'a> {
    pub status: u8,
    pub output: &'a [u8],
    pub errors: &'a [u8],
}

fn push_word(words: &mut Vec<String>, word: &str) -> Result<(), AllocError> {
    words.push(String::from_str(*words.allocator(), word)?)?;
    Ok(())
}

/// Returns the words of a command line; the given ones have a space between them.
pub fn words_of(alloc: Global, given: &str) -> Result<Vec<String>, AllocError> {
    let mut words = Vec::new(alloc);
    for word in given.split_terminator(' ') {
        push_word(&mut words, word)?;
    }
    Ok(words)
}
