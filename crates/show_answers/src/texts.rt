//! Texts that one file holds.

use io_edge::MemFiles;
use std::alloc::AllocError;

/// What comes before the name of a text.
const MARK: &str = "//// ";

/// A name, the end of its line, a text, and the end of its last line.
fn add_text(files: &mut MemFiles, section: &str) -> Result<(), AllocError> {
    let Some((name, text)) = section.split_once('\n') else {
        return Ok(());
    };
    files.add(name, text.strip_suffix('\n').unwrap_or(text).as_bytes())
}

/// Adds each text under its name.
pub fn add_texts(files: &mut MemFiles, texts: &str) -> Result<(), AllocError> {
    let mut rest = texts;
    for _ in 0..texts.len() {
        let Some((section, behind)) = rest.split_once(MARK) else {
            break;
        };
        add_text(files, section)?;
        rest = behind;
    }
    add_text(files, rest)
}
