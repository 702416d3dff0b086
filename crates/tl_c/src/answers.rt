//! The texts of the statuses, and the library's version.
ghost use Rattle.std.specs.Prelude.{◌≡◌};
ghost use Rattle.tl_c_beats.specs.Texts.{status_text};
ghost use Rattle.tl_c_beats.specs.declared.answers.TheConstants.{VERSION};

use tl_c_beats::{StatusText, VERSION, status_text};

/// Writes the name and the sentence of a status, each followed by zeros: of 0, of each fault by its
/// number, 1 to 23, and of the statuses that only the library has. Writes only zeros for a number
/// that is not a status.
#[unsafe(no_mangle)]
pub extern "C" fn tl_status_text(answer: u8, text: &mut StatusText)
    ensures { text.new ≡ status_text answer }
{
    *text = status_text(answer);
}

/// Returns the version of the library.
#[unsafe(no_mangle)]
pub extern "C" fn tl_version() -> u32
    ensures { result ≡ VERSION }
{
    VERSION
}
