//! The step that converts a near beat into staged far beats.
ghost use Rattle.std.specs.Prelude.{◌≡◌, ◌<◌, ◌^◌, ◌++◌, [], ◌∷◌, List, ℕ};
ghost use Rattle.tl_lanes.specs.Lanes.{IsWidth};
ghost use Rattle.tl_msg.specs.Beats.{IsBeat};
ghost use Rattle.tl_msg.specs.declared.beat.BeatOf.{BeatOf};
ghost use Rattle.tl_burst.specs.Handing.{homes_with};
ghost use Rattle.tl_burst.specs.Tracking.{IsPlaceOf};
ghost use Rattle.tl_convert.specs.Due.{due};
ghost use Rattle.tl_convert.specs.Converting as converting;
ghost use Rattle.tl_ring.specs.Boxes.{AreLawful};

use crate::queue::{Queue, remove_all};
use tl_burst::Place;
use tl_convert::Converter;
use tl_msg::{Beat, Channel, ranges_of_beat};

// Feeds a near beat at its place to the converter, and puts the far beats that it completes into
// the stage, which is empty before.
pub(crate) fn stage_beat<K: Channel, const W: usize, const V: usize>(
    converter: &mut Converter<K, W, V>,
    beat: &Beat<K, W>,
    place: Place<K>,
    home: u64,
    stage: &mut Queue<Beat<K, V>>,
)
    // (one clause, because the checker proves each clause separately at each call)
    requires { IsWidth W × IsWidth V × IsPlaceOf K.rules W converter.old.burst beat.now place ×
        (stage.old ≡ []) }
    ensures beat { IsBeat K.rules beat.now }
    ensures home { K.rules.lane_address beat.now.head home < 2 ^ 64 }
    ensures stands { (bs : List (BeatOf K.Head W)) (homes : List ℕ) →
        converting.StandsFor K.rules converter.old bs homes →
        converting.StandsFor K.rules converter.new (bs ++ beat.now ∷ [])
        (homes_with K.rules bs homes beat.now home) }
    ensures due { (bs : List (BeatOf K.Head W)) (homes : List ℕ) →
        converting.StandsFor K.rules converter.old bs homes →
        due K.rules W V (bs ++ beat.now ∷ []) (homes_with K.rules bs homes beat.now home) ≡
        due K.rules W V bs homes ++ stage.new }
    ensures lawful { AreLawful K.rules stage.new }
{
    // (these two lines show that memory can hold the beat and its home)
    let _home = K::lane_address(&beat.head, home);
    ranges_of_beat::<K, W>(beat);
    remove_all(&mut stage.items);
    stage.first = 0;
    converter.feed_at(beat, place, home, &mut stage.items);
}
