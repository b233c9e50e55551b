// The answers to the lines of a table.
use crate::programs::line::{Line, line_of};
use crate::programs::refusals::refused_text;
use crate::programs::setting::{Setting, calm};
use std::alloc::{AllocError, Global};
use std::mem;

// Runs with what was set, which begins anew.
fn run(alloc: Global, setting: &mut Setting) -> Result<Option<String>, AllocError> {
    let whole = mem::replace(setting, Setting::new(alloc));
    Ok(Some(whole.run(alloc)?))
}

// Runs on prefixes with what was set, which begins anew.
fn prefixes(alloc: Global, setting: &mut Setting) -> Result<Option<String>, AllocError> {
    let whole = mem::replace(setting, Setting::new(alloc));
    Ok(Some(whole.prefixes(alloc)?))
}

/// The answer to a line that has one.
pub(crate) fn answer(
    alloc: Global,
    setting: &mut Setting,
    line: &str,
) -> Result<Option<String>, AllocError> {
    match line_of(alloc, line)? {
        Some(Line::Words(words)) => setting.words = Some(words),
        Some(Line::File(name, text)) => setting.add_file(name, text)?,
        Some(Line::FetchFails(calls)) => setting.failing_fetches = calls,
        Some(Line::SinkTakes(most)) => setting.most = most,
        Some(Line::SinkFails(calls)) => setting.failing_writes = calls,
        Some(Line::Run) => return run(alloc, setting),
        Some(Line::Check(text)) => {
            setting.add_file(String::from_str(alloc, "p.ml")?, text)?;
            return run(alloc, setting);
        }
        Some(Line::Prefixes) => return prefixes(alloc, setting),
        Some(Line::Calm(text)) => return Ok(Some(calm(alloc, text)?)),
        Some(Line::Refusal(refused)) => return Ok(Some(refused_text(alloc, &refused)?)),
        None => return Ok(Some(String::from_str(alloc, "not in the notation")?)),
    }
    Ok(None)
}
