//! The destination of the far beats that a side of a run in two threads takes.
ghost use Rattle.std.specs.Prelude.{◌≡◌, ◌+◌, ◌++◌, ◌≤◌, length, vec_len, vec_capacity};

// Appends the beats of an inbox to a list. Requires: the list has room for them.
pub(crate) fn append<B: Copy>(far: &mut Vec<B>, beats: &[B])
    requires { vec_len far.old + length beats.now ≤ vec_capacity far.old }
    ensures items { far.new.items ≡ far.old.items ++ beats.now }
    ensures capacity { vec_capacity far.new ≡ vec_capacity far.old }
{
    for beat in beats {
        far.push_reserved(*beat);
    }
}
