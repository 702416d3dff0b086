//! A mask as C passes it: in two words of 64 bits, because C has no integers of 128 bits (this
//! project's choice).
ghost use Rattle.std.specs.Prelude.{◌≡◌};
ghost use Rattle.tl_c_beats.specs.Masks.{whole_mask, low_word, high_word};

use tl_lanes::Mask;

/// Returns the mask of these words: `low` has lanes 0 to 63, `high` those from 64 on.
pub fn whole_mask(low: u64, high: u64) -> Mask
    ensures { result ≡ whole_mask low high }
{
    Mask::from(high) << u64::BITS | Mask::from(low)
}

/// Returns the bits of a mask for lanes 0 to 63.
pub fn low_word(mask: Mask) -> u64
    ensures { result ≡ low_word mask }
{
    (mask % (1 << u64::BITS)) as u64
}

/// Returns the bits of a mask for the lanes from 64 on.
pub fn high_word(mask: Mask) -> u64
    ensures { result ≡ high_word mask }
{
    (mask >> u64::BITS) as u64
}
