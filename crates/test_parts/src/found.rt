//! What is found in scripts.
use script_check::{findings_of, page_of};
use std::alloc::{AllocError, Global};

/// The findings of a script, as they are shown.
pub fn found_page(alloc: Global, script: &[u8]) -> Result<String, AllocError> {
    let findings = findings_of(alloc, script)?;
    let page = page_of(alloc, "awk".as_bytes(), script, &findings)?;
    match std::str::from_utf8(&page) {
        Ok(text) => format!(in alloc; "{text}"),
        Err(_) => format!(in alloc; "no text"),
    }
}
