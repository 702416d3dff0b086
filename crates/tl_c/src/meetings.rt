//! Calls that bring both sides of a bridge together.
ghost use Rattle.std.specs.Prelude.{◌≡◌, ◌≢◌};
ghost use Rattle.tl_sides.specs.Sides.{ClientPast, ManagerPast};
ghost use Rattle.tl_c.specs.Calls.{HoldsClient, HoldsManager, HoldSides, KeepsClient, KeepsManager, KeepsOfClient, KeepsOfManager, ClientStays, ManagerStays, MayMeet, HaveMet, AreCounted, AreKnown};
ghost use Rattle.tl_c.specs.Settling.{HaveSettled, HaveArrived, AreStill, meeting_answer};

use crate::client_handle::ClientHandle;
use crate::manager_handle::ManagerHandle;
use crate::widths::{CLIENT, MANAGER};
use std::alloc::Global;
use tl_c_beats::{BRIDGE_MISMATCH, ChannelCounts, NOT_OPEN, channel_counts, settle};
use tl_sides::laws::sides_obey;
use tl_sides::meet_sides;

// Makes a call on the sides that two handles hold, which are taken out for the call and put back,
// and writes the counts that it returns. If a handle holds none, or their numbers or openings
// differ, the calling function returns that status at once.
macro_rules! on_both {
    ($client:ident, $manager:ident, $alloc:ident, $counts:ident, $call:ident) => {{
        let Some(mut client_held) = $client.take($alloc) else {
            return NOT_OPEN;
        };
        let Some(mut manager_held) = $manager.take($alloc) else {
            $client.put(client_held);
            return NOT_OPEN;
        };
        if !$client.bridge.is($manager.bridge) {
            $client.put(client_held);
            $manager.put(manager_held);
            return BRIDGE_MISMATCH;
        }
        let standings = $call(&mut client_held.side, &mut manager_held.side);
        $client.put(client_held);
        $manager.put(manager_held);
        *$counts = channel_counts(standings);
        0
    }};
}

/// Inspects both sides of one bridge together, in one thread, and writes the number of far beats in
/// the stage, the ring and the inbox of each channel. No beat moves. Each side then knows every
/// beat in the rings that it takes from, and every free position in those that it sends to. Legal
/// in, legal out: no beat taken on B, C or E has a fault, and the beats of A and D have obeyed the
/// rules of both links, whatever each side did since the last meeting.
///
/// Returns 0 if they met. Otherwise nothing changes. Errors: `NOT_OPEN` if a handle holds none;
/// otherwise `BRIDGE_MISMATCH` if their numbers or openings differ.
///
/// Requires: two sides with the same number and opening were made by one call of
/// [`tl_open`](crate::tl_open).
#[unsafe(no_mangle)]
pub extern "C" fn tl_meet(
    alloc: Global,
    client: &mut ClientHandle,
    manager: &mut ManagerHandle,
    counts: &mut ChannelCounts,
) -> u8
    requires { client.old.bridge ≡ manager.old.bridge →
        MayMeet client.old.owned.held manager.old.owned.held }
    ensures answer { result ≡ meeting_answer client.old manager.old }
    ensures met { (x : ClientPast CLIENT MANAGER) (y : ManagerPast CLIENT MANAGER) →
        HoldsClient client.old.owned.held x → HoldsManager manager.old.owned.held y →
        result ≡ 0 → HaveMet client.new.owned.held manager.new.owned.held x y }
    ensures known { result ≡ 0 → AreKnown client.new.owned.held manager.new.owned.held }
    ensures counts { result ≡ 0 →
        AreCounted client.new.owned.held manager.new.owned.held counts.new }
    ensures sides { result ≡ 0 → HoldSides client.new.owned.held manager.new.owned.held }
    ensures kept { KeepsOfClient ClientStays client.old client.new ×
        KeepsOfManager ManagerStays manager.old manager.new }
    ensures same { result ≢ 0 → (client.new.owned.held ≡ client.old.owned.held) ×
        (manager.new.owned.held ≡ manager.old.owned.held) × (counts.new ≡ counts.old) }
{
    sides_obey::<CLIENT, MANAGER, Global>();
    on_both!(client, manager, alloc, counts, meet_sides)
}

/// Pumps and fetches on both sides of one bridge, in one thread, until nothing more can move. Then
/// brings them together, and writes the number of far beats in the stage, the ring and the inbox of
/// each channel. Afterwards beats are staged only if the ring is full, and are in a ring only if
/// the inbox is full. The sides have then met, with all that [`tl_meet`] promises: legal in, legal
/// out.
///
/// Every accepted beat arrives. On each channel, the beats taken and then those in the inbox are
/// all far beats that the accepted beats made due, unless the inbox is full. So a caller that
/// settles both sides and takes everything, again and again, takes in each round all beats that are
/// due, or as many as an inbox holds. If no inbox has a beat afterwards, every beat that is due was
/// taken.
///
/// Returns 0 if they settled. Otherwise nothing changes. Errors: `NOT_OPEN` if a handle holds none;
/// otherwise `BRIDGE_MISMATCH` if their numbers or openings differ.
///
/// Requires: two sides with the same number and opening were made by one call of
/// [`tl_open`](crate::tl_open).
#[unsafe(no_mangle)]
pub extern "C" fn tl_settle(
    alloc: Global,
    client: &mut ClientHandle,
    manager: &mut ManagerHandle,
    counts: &mut ChannelCounts,
) -> u8
    requires { client.old.bridge ≡ manager.old.bridge →
        MayMeet client.old.owned.held manager.old.owned.held }
    ensures answer { result ≡ meeting_answer client.old manager.old }
    ensures settled { (x : ClientPast CLIENT MANAGER) (y : ManagerPast CLIENT MANAGER) →
        HoldsClient client.old.owned.held x → HoldsManager manager.old.owned.held y →
        result ≡ 0 → HaveSettled client.new.owned.held manager.new.owned.held x y }
    ensures arrived { (x : ClientPast CLIENT MANAGER) (y : ManagerPast CLIENT MANAGER) →
        HoldsClient client.old.owned.held x → HoldsManager manager.old.owned.held y →
        result ≡ 0 → HaveArrived client.new.owned.held manager.new.owned.held x y }
    ensures still { result ≡ 0 → AreStill client.new.owned.held manager.new.owned.held }
    ensures known { result ≡ 0 → AreKnown client.new.owned.held manager.new.owned.held }
    ensures counts { result ≡ 0 →
        AreCounted client.new.owned.held manager.new.owned.held counts.new }
    ensures sides { result ≡ 0 → HoldSides client.new.owned.held manager.new.owned.held }
    ensures kept { KeepsClient client.old client.new × KeepsManager manager.old manager.new }
    ensures same { result ≢ 0 → (client.new.owned.held ≡ client.old.owned.held) ×
        (manager.new.owned.held ≡ manager.old.owned.held) × (counts.new ≡ counts.old) }
{
    sides_obey::<CLIENT, MANAGER, Global>();
    on_both!(client, manager, alloc, counts, settle)
}
