// Texts of the table: bytes by printable characters.
use std::alloc::{AllocError, Global};

/// The bytes of a text in a call.
pub fn bytes_of(alloc: Global, text: &str) -> Result<Vec<u8>, AllocError> {
    let mut bytes = Vec::new(alloc);
    let mut escaped = false;
    for byte in text.as_bytes() {
        let byte = *byte;
        if escaped {
            escaped = false;
            bytes.push(match byte {
                b'n' => b'\n',
                b'f' => b'\x0c',
                b't' => b'\t',
                _ => byte,
            })?;
        } else if byte == b'\\' {
            escaped = true;
        } else if byte == b'_' {
            bytes.push(b' ')?;
        } else {
            bytes.push(byte)?;
        }
    }
    Ok(bytes)
}

/// Adds a byte as it is written in an answer.
pub fn show_byte(out: &mut Vec<u8>, byte: u8) -> Result<(), AllocError> {
    match byte {
        b'\n' => out.extend_from_slice(b"\\n"),
        b'\x0c' => out.extend_from_slice(b"\\f"),
        b'\t' => out.extend_from_slice(b"\\t"),
        b' ' => out.extend_from_slice(b"_"),
        _ => out.extend_from_slice(&[byte]),
    }
}

/// Bytes in quotes.
pub fn shown(alloc: Global, bytes: &[u8]) -> Result<Vec<u8>, AllocError> {
    let mut out = Vec::new(alloc);
    out.push(b'"')?;
    for byte in bytes {
        show_byte(&mut out, *byte)?;
    }
    out.push(b'"')?;
    Ok(out)
}
