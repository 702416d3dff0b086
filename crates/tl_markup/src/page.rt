//! Whole pages for a browser.
use crate::row::put_rows;
use crate::style::{BEGINNING, END, FOLD, LEGEND, SCRIPT, STYLE};
use crate::summary::{put_answer, put_columns, put_heads, put_problems};
use crate::text::{ascii, put_escaped};
use std::alloc::{AllocError, Global};
use tl_explain::{PageModel, put_cuts};
use tl_text::TextBuf;

/// Returns a page up to its contents.
fn begun(alloc: Global) -> TextBuf {
    let mut out = TextBuf::new(alloc, false);
    out.put_bytes(BEGINNING);
    out.put_bytes(STYLE);
    out
}

/// Writes the contents of a page, and the part after them.
fn put_scene(out: &mut TextBuf, scene: &PageModel) {
    put_answer(out, scene);
    put_problems(out, scene);
    out.put_bytes(FOLD);
    put_columns(out, scene);
    put_heads(out, scene);
    out.put_text("<div class=\"row\">");
    put_rows(out, scene);
    out.put_text("</div>");
    put_cuts(out, &scene.walk, "<p class=\"cut\">", "</p>");
    out.put_bytes(LEGEND);
    out.put_bytes(SCRIPT);
    out.put_bytes(END);
}

/// Returns the page of a trace. Errors: `AllocError` if the allocator fails.
pub fn markup_of(alloc: Global, scene: PageModel) -> Result<Vec<u8>, AllocError> {
    let mut out = begun(alloc);
    out.shown = scene.shown(alloc)?;
    put_scene(&mut out, &scene);
    drop(scene);
    out.into_text()
}

/// Returns the page of a text that is not a valid trace. `said` is the output of `show_fault` for
/// that text. Errors: `AllocError` if the allocator fails.
pub fn fault_markup(alloc: Global, said: &[u8]) -> Result<Vec<u8>, AllocError> {
    let mut out = begun(alloc);
    out.put_text("<header><h1>No trace</h1></header><main><pre class=\"fault\">");
    put_escaped(&mut out, ascii(said));
    out.put_text("</pre></main>");
    out.put_bytes(END);
    out.into_text()
}
