//! Messages about files.
use std::io;

/// Reports why a file cannot be read or written.
pub(crate) fn report_error(rt: &HostRuntime, name: &str, error: &io::Error) {
    match format!(in rt.alloc(); "{error}") {
        Ok(text) => report(rt, name, reason_in(&text)),
        Err(_) => report(rt, name, "out of memory"),
    }
}

/// Prints a message about a file to standard error. Ignores errors in printing it.
pub(crate) fn report(rt: &HostRuntime, name: &str, reason: &str) {
    let _ = eprintln!(rt; "hordguli: {name}: {reason}");
}

// Returns the system's error message without the error number at its end.
fn reason_in(text: &str) -> &str {
    match text.split_once(" (os error ") {
        Some((reason, _)) => reason,
        None => text,
    }
}
