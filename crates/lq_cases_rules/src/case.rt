// The cases of tables.
use std::alloc::{AllocError, Global};

/// A program with its qualifiers and measures.
#[derive(Drop)]
pub(crate) struct Case {
    pub(crate) program: String,
    pub(crate) qualifiers: String,
    pub(crate) measures: String,
}

fn add_line(text: &mut String, line: &str) -> Result<(), AllocError> {
    text.push_str(line)?;
    text.push('\n')?;
    Ok(())
}

impl Case {
    pub(crate) fn new(alloc: Global) -> Case {
        Case {
            program: String::new(alloc),
            qualifiers: String::new(alloc),
            measures: String::new(alloc),
        }
    }

    /// One line more of the table.
    pub(crate) fn add(&mut self, line: &str) -> Result<(), AllocError> {
        if let Some(rest) = line.strip_prefix("? ") {
            return add_line(&mut self.qualifiers, rest);
        }
        if let Some(rest) = line.strip_prefix("! ") {
            return add_line(&mut self.measures, rest);
        }
        if let Some(rest) = line.strip_prefix("% ") {
            return add_often(&mut self.program, rest);
        }
        add_line(&mut self.program, line)
    }
}

// A text as often as the number before it says, without an end of line.
fn add_often(text: &mut String, line: &str) -> Result<(), AllocError> {
    let Some((count, piece)) = line.split_once(' ') else {
        return Ok(());
    };
    let Ok(count) = count.parse::<u32>() else {
        return Ok(());
    };
    for _ in 0..count {
        text.push_str(piece)?;
    }
    Ok(())
}
