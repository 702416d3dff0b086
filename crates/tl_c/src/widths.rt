//! The widths of both links. A library is built for one pair of them, by `tools/make-library`.

/// The width of the client's link in bytes, a width by [`tl_lanes::is_width`].
pub const CLIENT: usize = 8;

/// The width of the manager's link in bytes, a width by [`tl_lanes::is_width`].
pub const MANAGER: usize = 4;
