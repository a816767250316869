// Whether bytes have a form: `#` denotes any number, `+` for any but 0, and `~` for all up to the end of a line.

use std::{fs, io};

// Returns the bytes after the digits that they begin with, or, for `~`, from the next line feed on.
fn after_all(form: u8, bytes: &[u8]) -> &[u8] {
    for (place, byte) in bytes.iter().enumerate() {
        let is_after = if form == b'~' {
            *byte == b'\n'
        } else {
            !byte.is_ascii_digit()
        };
        if is_after {
            return &bytes[place..];
        }
    }
    &[]
}

// Returns the bytes after what one byte of a form denotes, or `None` if they begin otherwise.
fn after_piece(form: u8, bytes: &[u8]) -> Option<&[u8]> {
    let [first, behind @ ..] = bytes else {
        return None;
    };
    match form {
        b'~' => Some(after_all(form, bytes)),
        b'#' if first.is_ascii_digit() => Some(after_all(form, bytes)),
        b'+' if first.is_ascii_digit() && *first != b'0' => Some(after_all(form, bytes)),
        _ if form == *first => Some(behind),
        _ => None,
    }
}

/// Returns whether bytes have a form.
pub fn has_form(form: &[u8], bytes: &[u8]) -> bool {
    let mut rest = bytes;
    for piece in form {
        match after_piece(*piece, rest) {
            Some(behind) => rest = behind,
            None => return false,
        }
    }
    rest.is_empty()
}

/// Prints for each line of `forms.tsv`, a form and bytes with a tab between, whether the bytes have the form.
pub fn try_forms(rt: &HostRuntime) -> io::Result<()> {
    let forms = fs::read_to_string(rt, "forms.tsv")?;
    for line in forms.as_str().lines() {
        let (form, bytes) = line.split_once('\t').unwrap_or((line, ""));
        let has = has_form(form.as_bytes(), bytes.as_bytes());
        println!(rt; "'{form}' of '{bytes}': {has}")?;
    }
    Ok(())
}
