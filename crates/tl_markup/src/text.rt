//! Text without markup.
use tl_text::TextBuf;

/// Writes any text, escaped so that none of it is read as markup.
pub fn put_escaped(out: &mut TextBuf, text: &str) {
    if tl_escape::put_escaped(&mut out.text, text.as_bytes()).is_err() {
        out.out_of_memory = true;
    }
}

/// Returns the bytes as text if they are ASCII, and otherwise an empty text.
pub fn ascii(text: &[u8]) -> &str {
    std::str::from_utf8(text).unwrap_or("")
}
