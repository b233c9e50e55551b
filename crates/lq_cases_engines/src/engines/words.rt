// The words of a line.
use std::alloc::{AllocError, Global};

/// The line with a blank in place of each parenthesis and comma, which only help the eye.
pub(crate) fn plain(alloc: Global, line: &str) -> Result<String, AllocError> {
    let mut out = String::new(alloc);
    for c in line.chars() {
        let shown = match c {
            '(' | ')' | ',' => ' ',
            _ => c,
        };
        out.push(shown)?;
    }
    Ok(out)
}

/// The words of a text.
pub(crate) fn words_of<'a>(alloc: Global, text: &'a str) -> Result<Vec<&'a str>, AllocError> {
    let mut words = Vec::new(alloc);
    for word in text.split_whitespace() {
        words.push(word)?;
    }
    Ok(words)
}

/// The text before a key and the text behind it, which is empty where there is no such key.
pub(crate) fn cut<'a>(text: &'a str, key: &str) -> (&'a str, &'a str) {
    match text.split_once(key) {
        Some((front, back)) => (front, back),
        None => (text, ""),
    }
}
