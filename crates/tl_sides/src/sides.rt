//! Both sides of the bridge: making them, and inspecting them together.
ghost use Rattle.std.specs.Prelude.{◌≡◌, ◌≤◌, ◌<◌, ◌↔◌, ◌⊎◌, [], ℕ, IsOk, IfOk, IfErr};
ghost use Rattle.tl_lanes.specs.Lanes.{IsWidth};
ghost use Rattle.tl_ring.specs.declared.pipe.TheConstants.{MAX_RING};
ghost use Rattle.tl_ring.specs.Ends.{Met, IsNewRing};
ghost use Rattle.tl_settle.specs.Books.{KnowsClient, KnowsManager};
ghost use Rattle.tl_sides.specs.Ends.{AreStanding};
ghost use Rattle.tl_sides.specs.Inner.Making.{AreNewSides};
ghost use Rattle.tl_sides.specs.Inner.Meeting.{AreCounted};
ghost use Rattle.tl_sides.specs.Sides.{ClientPast, ManagerPast, ClientStandsFor, ManagerStandsFor, SidesMeet};
ghost use Rattle.tl_sides.specs.Sides.{AreSides, IsNewClient, IsNewManager, new_client, new_manager};

use crate::client_port::ClientPort;
use crate::client_side::ClientSide;
use crate::making::{Halves, Parts, new_parts};
use crate::manager_port::ManagerPort;
use crate::manager_side::ManagerSide;
use crate::sync_bridge::Standings;
use std::alloc::Allocator;
use tl_msg::{ChA, ChB, ChC, ChD, ChE};
use tl_ring::{BuildFault, RingReader, Standing, observe_both};

// Creates both sides from the halves of their rings and their books. Has no precondition on the
// widths; its postconditions apply only to valid ones.
fn sides_over<const C: usize, const M: usize, A: Allocator>(
    parts: Parts<
        Halves<ChA, M, A>,
        Halves<ChB, C, A>,
        Halves<ChC, M, A>,
        Halves<ChD, C, A>,
        Halves<ChE, M, A>,
        C,
        M,
        A,
    >,
) -> (ClientSide<C, M, A>, ManagerSide<C, M, A>)
    // for new rings of one size, and for the books of a new bridge
    ensures { (size : ℕ) → IsWidth C → IsWidth M → IsNewRing size parts.0.0 parts.0.1 ×
        IsNewRing size parts.1.0 parts.1.1 × IsNewRing size parts.2.0 parts.2.1 ×
        IsNewRing size parts.3.0 parts.3.1 × IsNewRing size parts.4.0 parts.4.1 →
        KnowsClient {w = C} parts.5 [] → KnowsManager {w = M} parts.6 [] →
        AreNewSides size result.0 result.1 }
{
    let ((a, a_take), (b, b_take), (c, c_take), (d, d_take), (e, e_take), client, manager) = parts;
    let client = ClientSide {
        port: ClientPort::with_book(client),
        a,
        b: RingReader::from_half(b_take),
        c,
        d: RingReader::from_half(d_take),
        e,
    };
    let manager = ManagerSide {
        port: ManagerPort::with_book(manager),
        a: RingReader::from_half(a_take),
        b,
        c: RingReader::from_half(c_take),
        d,
        e: RingReader::from_half(e_take),
    };
    (client, manager)
}

/// Creates a bridge. Returns its two sides, for two threads. The five rings of `ring` beats each
/// and the tables of both sides, of 64 KiB and 1 MiB, are the only memory that is allocated.
///
/// Errors: `RingSize` if and only if `ring` is 0 or above 4,096; otherwise `OutOfMemory` if the
/// allocator fails for a ring or a table. Requires: `C` and `M` are widths.
#[inline(never)]
pub fn bridge<const C: usize, const M: usize, A: Allocator + Copy>(
    alloc: A,
    ring: usize,
) -> Result<(ClientSide<C, M, A>, ManagerSide<C, M, A>), BuildFault>
    requires client { IsWidth C }
    requires manager { IsWidth M }
    ensures pair { IfOk result (λ sides. AreSides sides.0 sides.1) }
    ensures client { IfOk result (λ sides. ClientStandsFor sides.0 (new_client ring)) }
    ensures manager { IfOk result (λ sides. ManagerStandsFor sides.1 (new_manager ring)) }
    // a new side knows all positions of its rings to be free, and its inboxes are empty
    ensures client_knows { IfOk result (λ sides. IsNewClient ring sides.0) }
    ensures manager_knows { IfOk result (λ sides. IsNewManager ring sides.1) }
    ensures size { IsOk result → (1 ≤ ring) × (ring ≤ MAX_RING) }
    ensures ring_size { IfErr result (λ fault.
        (fault ≡ BuildFault.RingSize) ↔ ((ring ≡ 0) ⊎ (MAX_RING < ring))) }
{
    let parts = given!(new_parts(alloc, ring));
    Ok(sides_over(parts))
}

// Returns the number of beats at each place of each channel, from the ports of both sides and the
// number of beats in each ring.
pub(crate) fn standings_between<const C: usize, const M: usize, A: Allocator>(
    client: &ClientPort<C, M, A>,
    manager: &ManagerPort<C, M, A>,
    a: usize,
    b: usize,
    c: usize,
    d: usize,
    e: usize,
) -> Standings
    ensures a { AreCounted client.now.a a manager.now.a result.a }
    ensures b { AreCounted manager.now.b b client.now.b result.b }
    ensures c { AreCounted client.now.c c manager.now.c result.c }
    ensures d { AreCounted manager.now.d d client.now.d result.d }
    ensures e { AreCounted client.now.e e manager.now.e result.e }
{
    Standings {
        a: Standing::between(&client.a, a, &manager.a),
        b: Standing::between(&manager.b, b, &client.b),
        c: Standing::between(&client.c, c, &manager.c),
        d: Standing::between(&manager.d, d, &client.d),
        e: Standing::between(&client.e, e, &manager.e),
    }
}

/// Inspects both sides of one [`bridge`] call together, in one thread. Returns the number of far
/// beats in the stage, the ring and the inbox of each channel. On each channel the beats taken,
/// followed by those in the inbox, the ring and the stage, are the far layout of the accepted
/// beats: each beat once, in order. No beat moves. Each side then knows every beat in the rings
/// that it takes from, and every free position in those that it sends to. Requires: the sides are
/// of one bridge.
pub fn meet_sides<const C: usize, const M: usize, A: Allocator>(
    client: &mut ClientSide<C, M, A>,
    manager: &mut ManagerSide<C, M, A>,
) -> Standings
    requires { AreSides client.old manager.old }
    ensures a { Met client.old.a manager.old.a client.new.a manager.new.a }
    ensures b { Met manager.old.b client.old.b manager.new.b client.new.b }
    ensures c { Met client.old.c manager.old.c client.new.c manager.new.c }
    ensures d { Met manager.old.d client.old.d manager.new.d client.new.d }
    ensures e { Met client.old.e manager.old.e client.new.e manager.new.e }
    ensures standing_a { AreStanding client.new.a manager.new.a result.a }
    ensures standing_b { AreStanding manager.new.b client.new.b result.b }
    ensures standing_c { AreStanding client.new.c manager.new.c result.c }
    ensures standing_d { AreStanding manager.new.d client.new.d result.d }
    ensures standing_e { AreStanding client.new.e manager.new.e result.e }
    ensures books { (client.new.book ≡ client.old.book) × (manager.new.book ≡ manager.old.book) }
    // for every past that each side represents
    ensures meets { (x : ClientPast C M) (y : ManagerPast C M) →
        ClientStandsFor client.old x → ManagerStandsFor manager.old y →
        SidesMeet client.new manager.new x y }
{
    let a = observe_both(&mut client.a, &mut manager.a.half);
    let b = observe_both(&mut manager.b, &mut client.b.half);
    let c = observe_both(&mut client.c, &mut manager.c.half);
    let d = observe_both(&mut manager.d, &mut client.d.half);
    let e = observe_both(&mut client.e, &mut manager.e.half);
    standings_between(&client.port, &manager.port, a, b, c, d, e)
}
