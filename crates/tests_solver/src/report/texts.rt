//! Derivation files of rows, which the tests share.
use std::alloc::{AllocError, Global};
use std::fmt::Write;

/// The four lines of a fork of one platform.
pub(crate) const FORK: &str =
    "no selection serves this fork\nfork: 0\nregion: sys_platform == 'win32'\n\
    world: python_full_version == '0.0.0' and os_name == '' and sys_platform == 'win32' \
    and platform_machine == '' and platform_python_implementation == '' and platform_release == '' \
    and platform_system == '' and platform_version == '' and implementation_name == ''\n";

/// The text of a row, in which `@` at its front stands for the four lines, and `|` for the end of a line.
pub(crate) fn text_of(alloc: Global, row: &str) -> Result<String, AllocError> {
    let rest = row.strip_prefix("@");
    let mut out = String::from_str(alloc, if rest.is_some() { FORK } else { "" })?;
    let mut first = true;
    for piece in rest.unwrap_or(row).split('|') {
        let end = if first { "" } else { "\n" };
        write!(out, "{end}{piece}")?;
        first = false;
    }
    Ok(out)
}
