use crate::five::empty;
use crate::run::runs::run_short;
use crate::values::{data, get};
use std::alloc::Global;
use std::hint::spin_loop;
use std::sync::atomic::{AtomicU64, Ordering};
use std::thread::Threads;
use tl_bridge::Gate;
use tl_trace::Script;

/// A gate that counts its calls, and waits until the other gate has been called as often. It never
/// waits again after it has waited in vain.
#[derive(Drop)]
struct Spin<'a> {
    passed: &'a AtomicU64,
    others: &'a AtomicU64,
    missed: bool,
}

impl<'a> Gate for Spin<'a> {
    fn pass(&mut self) {
        let passed = self.passed.fetch_add(1, Ordering::SeqCst).wrapping_add(1);
        if self.missed {
            return;
        }
        for _ in 0..500_000_000 {
            if self.others.load(Ordering::SeqCst) >= passed {
                return;
            }
            spin_loop();
        }
        self.missed = true;
    }
}

/// Adds two requests by one source and two responses to it. Returns whether there was memory for
/// them.
pub fn use_twice(script: &mut Script<4, 4>) -> bool {
    let asks = script
        .a
        .extend_from_slice(&[get(1, 0, 0xf), get(1, 4, 0xf)]);
    let answers = [data(1, 2, 1, [0x11; 4]), data(1, 2, 1, [0x22; 4])];
    asks.is_ok() & script.d.extend_from_slice(&answers).is_ok()
}

/// Returns whether neither side waits in vain, and each calls its gate as many times as there are
/// rounds.
fn meet_in_each_round<R: Threads>(rt: &R, alloc: Global, script: &Script<4, 4>) -> bool {
    let there = AtomicU64::new(0);
    let back = AtomicU64::new(0);
    let mut client = Spin {
        passed: &there,
        others: &back,
        missed: false,
    };
    let mut manager = Spin {
        passed: &back,
        others: &there,
        missed: false,
    };
    let ended = run_short(rt, alloc, script, 1, &mut client, &mut manager);
    let has_missed = client.missed | manager.missed;
    let passed = (there.load(Ordering::SeqCst), back.load(Ordering::SeqCst));
    !has_missed & matches!(ended, Some(rounds) if passed == (rounds, rounds))
}

/// If one thread ran both sides in turn, each would wait in vain.
#[test]
fn both_sides_work_at_the_same_time(rt: HostRuntime) {
    let mut script = empty::<4, 4>(rt.alloc());
    let is_so = use_twice(&mut script) & meet_in_each_round(&rt, rt.alloc(), &script);
    drop(script);
    assert!(rt; is_so);
}
