//! An example of the theorem for C on channel D, whose lanes depend on another channel. Nothing
//! calls it: it carries the contract of a meeting to beats.
ghost use Rattle.std.specs.Prelude.{◌≡◌, ◌+◌, ◌∷◌, [], List, false, length};
ghost use Rattle.tl_msg.specs.Tables.{rules_d};
ghost use Rattle.tl_msg.specs.declared.head.HeadA.{HeadA};
ghost use Rattle.tl_msg.specs.declared.head.HeadD.{HeadD};
ghost use Rattle.tl_msg.specs.declared.beat.BeatOf.{BeatOf};
ghost use Rattle.tl_convert.specs.Due.{due};
ghost use Rattle.tl_settle.specs.Histories.{Ask, Answer};
ghost use Rattle.tl_settle.specs.Requests.{is_release_ack};
ghost use Rattle.tl_sides.specs.Sides.{ClientPast, ManagerPast};
ghost use Rattle.tl_c.specs.Calls.{HoldsClient, HoldsManager, MayMeet};

use crate::client_handle::ClientHandle;
use crate::manager_handle::ManagerHandle;
use crate::meetings::tl_meet;
use crate::widths::{CLIENT, MANAGER};
use std::alloc::Global;
use tl_c_beats::ChannelCounts;

/// Brings two sides together after a request and its response. The beat of the response that the
/// client's side took, and those under way, which the meeting counts, are the far layout of the
/// response, whose home is the address of the request.
fn meet_after_response(
    alloc: Global,
    client: &mut ClientHandle,
    manager: &mut ManagerHandle,
    counts: &mut ChannelCounts,
) -> u8
    requires { client.old.bridge ≡ manager.old.bridge →
        MayMeet client.old.owned.held manager.old.owned.held }
    ensures headline { (x : ClientPast CLIENT MANAGER) (y : ManagerPast CLIENT MANAGER)
        (asked : BeatOf HeadA CLIENT) (first : BeatOf HeadD CLIENT)
        (request : BeatOf HeadA MANAGER) (response : BeatOf HeadD MANAGER) →
        HoldsClient client.old.owned.held x → HoldsManager manager.old.owned.held y →
        x.history ≡ Ask asked ∷ Answer first ∷ [] →
        y.history ≡ Ask request ∷ Answer response ∷ [] →
        is_release_ack response.head ≡ false → result ≡ 0 →
        (under_way : List (BeatOf HeadD CLIENT)) × (first ∷ under_way ≡
        due rules_d MANAGER CLIENT (response ∷ []) (request.head.address ∷ [])) ×
        (length under_way ≡ counts.new.d.staged + counts.new.d.in_ring + counts.new.d.inbox) }
{
    tl_meet(alloc, client, manager, counts)
}
