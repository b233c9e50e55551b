// Readings of tokens that a case names by their kinds.
use crate::front::kinds::kind_of_name;
use lq_base_names::TextKind;
use lq_text_grammar::{ReadError, read};
use std::alloc::{AllocError, Global};

// Whether the tokens are a text within the limit, or the number of the token where they stop, counted from 0.
pub(crate) fn reading(
    alloc: Global,
    text: TextKind,
    limit: &str,
    words: &str,
) -> Result<String, AllocError> {
    let Ok(limit) = limit.parse::<usize>() else {
        return String::from_str(alloc, "no limit");
    };
    let mut kinds = Vec::new(alloc);
    for word in words.split_whitespace() {
        match kind_of_name(word) {
            Some(kind) => kinds.push(kind)?,
            None => return format!(in alloc; "no kind {word}"),
        }
    }
    match read(alloc, text, &kinds, limit) {
        Ok(_) => String::from_str(alloc, "ok"),
        Err(ReadError::Syntax(at)) => format!(in alloc; "stop {at}"),
        Err(ReadError::TooDeep(at)) => format!(in alloc; "too deep {at}"),
        Err(ReadError::Memory) => Err(AllocError),
    }
}
