// Names as words: a text and its number in one table, in the order in which they are asked for.
use lq_base_names::NameTable;
use std::alloc::{AllocError, Global};

// The numbers of the words in a new table, and how many texts it has then.
pub(crate) fn numbers_of(alloc: Global, words: &str) -> Result<String, AllocError> {
    let mut table = NameTable::new(alloc)?;
    let mut out = String::new(alloc);
    for word in words.split_whitespace() {
        if table.len() >= 1 << 24 {
            break;
        }
        let name = table.intern(word)?;
        if name.0 < table.len() {
            let text = table.text(name);
            let number = name.0;
            write!(out, "{text}={number} ")?;
        }
    }
    let count = table.len();
    write!(out, "of {count}")?;
    Ok(out)
}
