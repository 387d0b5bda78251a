// Tasks side by side, each with a value of its own. Written over type parameters: a closure over a type that names a
// lifetime can't be proved.
ghost use Rattle.std.specs.Prelude.{◌≡◌, ◌<◌, ℕ, All, length, slice_index_or};

use std::thread;
use std::thread::Threads;

/// What a thread does with a value of its own, beside what all threads share. It has no allocator.
pub(crate) trait Task<S> {
    // What it starts from.
    ghost ready: { Self → S → Type 0 };

    // What it makes of what it was, at its place among the others.
    ghost done: { Self → Self → S → ℕ → Type 0 };

    fn perform(&mut self, shared: &S, index: usize)
        requires { ready self.old shared.now }
        ensures { done self.old self.new shared.now index };
}

/// Each task in a thread of its own if one can be had, or else on the calling thread.
pub(crate) fn perform_all<R: Threads + Sync, S: Sync, T: Task<S> + Send>(
    rt: &R,
    tasks: &mut [T],
    shared: &S,
)
    requires { All (λ task. T.ready task shared.now) tasks.old }
    ensures count { length tasks.new ≡ length tasks.old }
    ensures done { (i : ℕ) (task : T) → i < length tasks.old
        → T.done (slice_index_or tasks.old i task) (slice_index_or tasks.new i task) shared.now i }
{
    let threads = tasks.len();
    if threads > 0 {
        thread::for_each_mut(
            rt,
            tasks,
            threads,
            &|index, task| task.perform(shared, index),
        );
    }
}
