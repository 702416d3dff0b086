//! The number of waiting far beats, as C receives it.
ghost use Rattle.std.specs.Prelude.{◌≡◌};
ghost use Rattle.tl_c_beats.specs.Counts.{beat_counts, channel_counts};

use tl_ring::Standing;
use tl_sides::Standings;

/// The number of far beats of one channel that wait at each place between its two ends.
#[repr(C)]
#[derive(Drop)]
pub struct BeatCounts {
    /// Beats that wait for a free position in the ring, at most [`tl_ring::STAGE_CAPACITY`].
    pub staged: usize,
    /// Beats in the ring, at most its capacity.
    pub in_ring: usize,
    /// Beats that were fetched and are not yet taken, at most [`tl_ring::STAGE_CAPACITY`].
    pub inbox: usize,
}

/// The number of waiting far beats of each channel.
#[repr(C)]
#[derive(Drop)]
pub struct ChannelCounts {
    pub a: BeatCounts,
    pub b: BeatCounts,
    pub c: BeatCounts,
    pub d: BeatCounts,
    pub e: BeatCounts,
}

// C gets these sizes only from the header.
const _: () = prove!(size_of::<BeatCounts>() == 24);

const _: () = prove!(size_of::<ChannelCounts>() == 120);

/// Returns the counts of all channels, from the number of beats at each place.
pub fn channel_counts(standings: Standings) -> ChannelCounts
    ensures { result ≡ channel_counts standings }
{
    ChannelCounts {
        a: beat_counts(standings.a),
        b: beat_counts(standings.b),
        c: beat_counts(standings.c),
        d: beat_counts(standings.d),
        e: beat_counts(standings.e),
    }
}

fn beat_counts(standing: Standing) -> BeatCounts
    ensures { result ≡ beat_counts standing }
{
    BeatCounts {
        staged: standing.staged,
        in_ring: standing.in_ring,
        inbox: standing.inbox,
    }
}
