// Tasks side by side, each with a value of its own. Written over type parameters: a closure over a type that names a
// lifetime can't be proved.
ghost use Rattle.std.specs.Prelude.{◌≡◌, ◌<◌, ℕ, List, map, All, IfOk, IsErrOf, length, slice_index_or};
ghost use denote.Param.Send.{IsSend, IsSync};
ghost use Rattle.scan_spec.specs.declared.refusal.ScanRefusal.{ScanRefusal};
ghost use Rattle.segment_code.specs.declared.error.ScanError.TheVariants.{Scan};

use segment_code::ScanError;
use std::thread;
use std::thread::Threads;

/// What a thread does with a value of its own.
pub(crate) trait Task {
    // It can be done.
    ghost ready: { Self → Type 0 };

    // What it makes of what it was.
    ghost done: { Self → Self → Type 0 };

    fn perform(&mut self)
        requires { ready self.old }
        ensures { done self.old self.new };
}

/// A task that streams come of.
pub(crate) trait Coding: Task {
    // The streams that come of it.
    ghost makes: { Self → List (List ℕ) → Type 0 };

    // What holds if it is refused.
    ghost refused: { Self → Type 0 };

    fn streams(self) -> Result<Vec<Vec<u8>>, ScanError>
        ensures made { (old : Self) → Self.done old self
            → IfOk result (λ streams. makes old (map (λ v. v.items) streams.items)) }
        ensures refused { (old : Self) (refusal : ScanRefusal) → Self.done old self
            → IsErrOf result (Scan refusal) → refused old };
}

/// Each task in a thread of its own if one can be had, or else on the calling thread, and the last one there. The
/// calling thread starts all the others, so that a thread that begins late holds up no other.
#[cycle(tasks)]
pub(crate) fn perform_all<R: Threads + Sync, T: Task + Send>(rt: &R, tasks: &mut [T])
    requires { All T.ready tasks.old }
    ensures count { length tasks.new ≡ length tasks.old }
    ensures done { (i : ℕ) (task : T) → i < length tasks.old
        → T.done (slice_index_or tasks.old i task) (slice_index_or tasks.new i task) }
{
    match tasks.split_first_mut() {
        Some((first, rest)) => perform_beside(rt, first, rest),
        None => {}
    }
}

// A task, beside the others after it if there are any.
#[cycle(tasks)]
fn perform_beside<R: Threads + Sync, T: Task + Send>(rt: &R, first: &mut T, rest: &mut [T])
    requires first { T.ready first.old }
    requires rest { All T.ready rest.old }
    ensures first { T.done first.old first.new }
    ensures count { length rest.new ≡ length rest.old }
    ensures rest { (i : ℕ) (task : T) → i < length rest.old
        → T.done (slice_index_or rest.old i task) (slice_index_or rest.new i task) }
{
    if rest.is_empty() {
        first.perform();
        return;
    }
    thread::join_mut(
        rt,
        &mut ||
            requires { T.ready first.now }
            ensures { T.done first.entry.now first.exit.now }
        { first.perform() },
        &mut ||
            requires { IsSync R.row × IsSend T.row × All T.ready rest.now }
            ensures count { length rest.exit.now ≡ length rest.entry.now }
            ensures done { (i : ℕ) (task : T) → i < length rest.entry.now
                → T.done (slice_index_or rest.entry.now i task) (slice_index_or rest.exit.now i task) }
        { perform_all(rt, rest) },
    );
}
