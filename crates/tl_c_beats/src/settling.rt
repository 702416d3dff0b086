//! Both sides of a bridge in one thread, until nothing more can move.
ghost use Rattle.std.specs.Prelude.{◌≡◌, ◌+◌};
ghost use Rattle.tl_sides.specs.Ends.{AreStanding};
ghost use Rattle.tl_sides.specs.Sides.{ClientPast, ManagerPast, ClientStandsFor, ManagerStandsFor, AreSides, SameClient, SameManager};
ghost use Rattle.tl_c_beats.specs.Settling.{KnownSides, StillSides, SidesSettle, all_moves_left};

use std::alloc::Allocator;
use tl_sides::{ClientSide, ManagerSide, Standings, meet_sides};

/// The result of a round: the number of its moves, and the number of far beats at each place after
/// it.
#[derive(Drop)]
struct Moved {
    pub count: usize,
    pub standings: Standings,
}

// Pumps and fetches on both sides, and brings them together. Returns the result.
fn round<const C: usize, const M: usize, A: Allocator>(
    client: &mut ClientSide<C, M, A>,
    manager: &mut ManagerSide<C, M, A>,
) -> Moved
    requires sides { AreSides client.old manager.old }
    requires known { KnownSides client.old manager.old }
    ensures client { SameClient client.old client.new }
    ensures manager { SameManager manager.old manager.new }
    ensures known { KnownSides client.new manager.new }
    ensures went { (x : ClientPast C M) (y : ManagerPast C M) →
        ClientStandsFor client.old x → ManagerStandsFor manager.old y →
        SidesSettle client.new manager.new x y }
    ensures fewer { all_moves_left client.new manager.new + result.count ≡
        all_moves_left client.old manager.old }
    ensures still { result.count ≡ 0 → StillSides client.new manager.new }
    ensures standing_a { AreStanding client.new.a manager.new.a result.standings.a }
    ensures standing_b { AreStanding manager.new.b client.new.b result.standings.b }
    ensures standing_c { AreStanding client.new.c manager.new.c result.standings.c }
    ensures standing_d { AreStanding manager.new.d client.new.d result.standings.d }
    ensures standing_e { AreStanding client.new.e manager.new.e result.standings.e }
{
    let pumped = client.pump() + manager.pump();
    let fetched = client.fetch() + manager.fetch();
    let standings = meet_sides(client, manager);
    Moved {
        count: pumped + fetched,
        standings,
    }
}

/// Pumps and fetches on both sides of one bridge until nothing more can move, and brings them
/// together. Returns the number of far beats in the stage, the ring and the inbox of each channel.
/// Requires: the sides are of one bridge.
pub fn settle<const C: usize, const M: usize, A: Allocator>(
    client: &mut ClientSide<C, M, A>,
    manager: &mut ManagerSide<C, M, A>,
) -> Standings
    requires { AreSides client.old manager.old }
    ensures client { SameClient client.old client.new }
    ensures manager { SameManager manager.old manager.new }
    ensures settled { (x : ClientPast C M) (y : ManagerPast C M) →
        ClientStandsFor client.old x → ManagerStandsFor manager.old y →
        SidesSettle client.new manager.new x y }
    ensures known { KnownSides client.new manager.new }
    ensures still { StillSides client.new manager.new }
    ensures standing_a { AreStanding client.new.a manager.new.a result.a }
    ensures standing_b { AreStanding manager.new.b client.new.b result.b }
    ensures standing_c { AreStanding client.new.c manager.new.c result.c }
    ensures standing_d { AreStanding manager.new.d client.new.d result.d }
    ensures standing_e { AreStanding client.new.e manager.new.e result.e }
{
    meet_sides(client, manager);
    'rounds: loop {
        let moved = round(client, manager);
        let is_still = moved.count == 0;
        if is_still {
            return moved.standings;
        }
    }
}
