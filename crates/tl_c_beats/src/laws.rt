//! Laws of the values that C passes, for the proofs of callers: the conversion of a beat to its
//! fields and back loses nothing. Each function does nothing; its contract is the law.
ghost use Rattle.std.specs.Prelude.{◌≡◌, ◌≤◌, ◌<◌, ◌-◌, ◌^◌, ℕ};
ghost use Rattle.std.specs.Int.{bit_at};
ghost use Rattle.tl_msg.specs.declared.beat.BeatOf.{BeatOf};
ghost use Rattle.tl_msg.specs.declared.head.HeadA.{HeadA};
ghost use Rattle.tl_msg.specs.declared.head.HeadB.{HeadB};
ghost use Rattle.tl_msg.specs.declared.head.HeadC.{HeadC};
ghost use Rattle.tl_msg.specs.declared.head.HeadD.{HeadD};
ghost use Rattle.tl_msg.specs.declared.head.HeadE.{HeadE};
ghost use Rattle.tl_c_beats.specs.Masks.{whole_mask, low_word, high_word};
ghost use Rattle.tl_c_beats.specs.Fields.{beat_a, beat_b, beat_c, beat_d, beat_e, fields_a, fields_b, fields_c, fields_d, fields_e};

/// Lemma: a mask is the mask of its two words, and two words are the words of their mask. The mask
/// has the bits of the low word on lanes 0 to 63, and those of the high word on the lanes from 64
/// on.
pub fn words_tell_masks()
    ensures mask { (mask : ℕ) → whole_mask (low_word mask) (high_word mask) ≡ mask }
    ensures words { (low high : ℕ) → low < 2 ^ 64 →
        (low_word (whole_mask low high) ≡ low) × (high_word (whole_mask low high) ≡ high) }
    ensures low_lanes { (low high lane : ℕ) → lane < 64 →
        bit_at (whole_mask low high) lane ≡ bit_at low lane }
    ensures high_lanes { (low high lane : ℕ) → low < 2 ^ 64 → 64 ≤ lane →
        bit_at (whole_mask low high) lane ≡ bit_at high (lane - 64) }
{}

/// Lemma: on each channel, a beat is the beat of its fields and lanes.
pub fn fields_tell_beats<const W: usize>()
    ensures a { (beat : BeatOf HeadA W) → beat_a (fields_a beat) beat.lanes ≡ beat }
    ensures b { (beat : BeatOf HeadB W) → beat_b (fields_b beat) beat.lanes ≡ beat }
    ensures c { (beat : BeatOf HeadC W) → beat_c (fields_c beat) beat.lanes ≡ beat }
    ensures d { (beat : BeatOf HeadD W) → beat_d (fields_d beat) beat.lanes ≡ beat }
    ensures e { (beat : BeatOf HeadE W) → beat_e (fields_e beat) beat.lanes ≡ beat }
{}
