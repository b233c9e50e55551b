// Lists as answers write them.
use std::alloc::{AllocError, Global};

/// What stands before an item of a list.
pub(crate) fn push_gap(out: &mut String) -> Result<(), AllocError> {
    if out.is_empty() {
        Ok(())
    } else {
        out.push_str("; ")
    }
}

/// A list, or that it is empty.
pub(crate) fn listed(alloc: Global, out: String) -> Result<String, AllocError> {
    if out.is_empty() {
        return String::from_str(alloc, "none");
    }
    Ok(out)
}
