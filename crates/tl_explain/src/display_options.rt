//! The options for the output: its format, and the choice of lines.
ghost use Rattle.std.specs.Prelude.{◌≡◌};
ghost use Rattle.tl_explain.specs.Explained.{is_page};

use tl_msg::SourceId;

/// The format of the output.
#[derive(Clone, Copy, Default, PartialEq, Eq, Debug)]
pub enum Format {
    /// Sentences.
    #[default]
    Text,
    /// JSON Lines.
    Json,
    /// A page for a browser. It shows the lanes of each beat.
    Page,
}

impl Format {
    /// Returns whether it is a page.
    pub fn is_page(self) -> bool
        ensures { result ≡ is_page self }
    {
        matches!(self, Format::Page)
    }
}

/// The options for the output.
#[derive(Clone, Copy, Default)]
pub struct DisplayOptions {
    pub format: Format,
    /// Whether each beat of a text has a picture of its lanes.
    pub lanes: bool,
    /// Whether the outcome of a line has a colour, for a terminal.
    pub colour: bool,
    /// Whether the remarks of a protocol monitor on accepted beats are written.
    pub remarks: bool,
    /// Whether the lines are in the order of time.
    pub in_order: bool,
    /// Which lines are shown.
    pub choice: LineFilter,
}

/// The lines that are shown: those that satisfy all conditions, so all lines if there is no
/// condition.
#[derive(Clone, Copy, Default)]
pub struct LineFilter {
    /// Only lines whose beat was not accepted, or that have remarks.
    pub only_problems: bool,
    /// Only lines from this number on.
    pub from: Option<u64>,
    /// Only lines up to this number.
    pub to: Option<u64>,
    /// Only beats of this source; a beat of E has none.
    pub source: Option<SourceId>,
    /// Only beats of the channel with this letter.
    pub channel: Option<u8>,
}
