//! Escapes text for an HTML page.
ghost use Rattle.std.specs.Prelude.{◌≡◌, ◌++◌, ℕ, All, OnErr, OnOk, take};
ghost use Rattle.tl_escape.specs.Escaped.{reference, escaped, IsInert};

use std::alloc::AllocError;

/// Returns a byte of a text as it is written in a page.
fn reference_of(byte: &u8) -> &[u8]
    ensures { result.now ≡ reference byte.now }
{
    match *byte {
        b'<' => b"&lt;",
        b'&' => b"&amp;",
        b'"' => b"&quot;",
        _ => std::slice::from_ref(byte),
    }
}

/// Appends a text, escaped for use between the tags of a page or in the value of an attribute. The
/// escaped text has no `<` and no `"`, and each `&` in it begins a reference (HTML: character
/// references). Errors: `AllocError` if the allocator fails; what was appended is then the escaped
/// form of the text's first bytes.
pub fn put_escaped(out: &mut Vec<u8>, text: &[u8]) -> Result<(), AllocError>
    ensures text { OnOk result (out.new.items ≡ out.old.items ++ escaped text.now) }
    ensures part { OnErr result ((n : ℕ) × (out.new.items ≡ out.old.items ++ escaped (take n text.now))) }
    ensures inert { All IsInert (escaped text.now) }
{
    for byte in text {
        out.extend_from_slice(reference_of(byte))?;
    }
    Ok(())
}
