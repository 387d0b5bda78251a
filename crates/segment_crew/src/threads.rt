// Tasks side by side, one of them on this thread.
ghost use Rattle.std.specs.Prelude.{◌≡◌, All, length};
ghost use denote.Param.Send.{IsSend, IsSync};

use std::sync::Wait;
use std::thread;
use std::thread::Threads;

// What a thread does with a value of its own, beside what all threads share.
pub(crate) trait Task<S> {
    // What it starts from.
    ghost ready: { Self → S → Type 0 };

    // What it comes to.
    ghost done: { Self → S → Type 0 };

    fn perform<R: Wait>(&mut self, rt: &R, shared: &S)
        requires { ready self.old shared.now }
        ensures { done self.new shared.now };
}

// What this thread does beside them, with a value to which it writes.
pub(crate) trait Lead<S, K> {
    type Answer;

    // What it starts from.
    ghost begins: { Self → S → Type 0 };

    // What the value takes then.
    ghost takes: { S → K → Type 0 };

    // What it comes to: from one state to another, from what the value was to what it is, and with which answer.
    ghost ends: { Self → Self → S → K → K → Self.Answer → Type 0 };

    fn lead<R: Wait>(&mut self, rt: &R, shared: &S, sink: &mut K) -> Self::Answer
        requires begins { begins self.old shared.now }
        requires takes { takes shared.now sink.old }
        ensures { ends self.old self.new shared.now sink.old sink.new result };
}

// Each task in a thread of its own where one can be had.
fn perform_all<R: Threads + Wait + Sync, S: Sync, T: Task<S> + Send>(
    rt: &R,
    tasks: &mut [T],
    shared: &S,
)
    requires { All (λ task. T.ready task shared.now) tasks.old }
    ensures done { All (λ task. T.done task shared.now) tasks.new }
    ensures count { length tasks.new ≡ length tasks.old }
{
    let threads = tasks.len();
    if threads > 0 {
        thread::for_each_mut(rt, tasks, threads, &|_, task| task.perform(rt, shared));
    }
}

// The most tasks whose threads this thread starts itself. Each is a step of a recursion, which takes some KiB of the
// stack under the lead.
const MOST_IN_TURN: usize = 4;

// The lead on this thread, beside the tasks in theirs. Where no thread can be had the lead comes first.
pub(crate) fn lead_beside<R: Threads + Wait + Sync, S: Sync, K, L: Lead<S, K>, T: Task<S> + Send>(
    rt: &R,
    lead: &mut L,
    tasks: &mut [T],
    shared: &S,
    sink: &mut K,
) -> L::Answer
    requires lead { L.begins lead.old shared.now }
    requires takes { L.takes shared.now sink.old }
    requires tasks { All (λ task. T.ready task shared.now) tasks.old }
    ensures lead { L.ends lead.old lead.new shared.now sink.old sink.new result }
    ensures tasks { All (λ task. T.done task shared.now) tasks.new }
    ensures count { length tasks.new ≡ length tasks.old }
{
    if tasks.len() <= MOST_IN_TURN {
        return lead_in_turn(rt, lead, tasks, shared, sink);
    }
    let ((), answer) = thread::join_mut(
        rt,
        &mut ||
            requires { All (λ task. T.ready task shared.now) tasks.now }
            ensures done { All (λ task. T.done task shared.entry.now) tasks.exit.now }
            ensures count { length tasks.exit.now ≡ length tasks.entry.now }
        { perform_all(rt, tasks, shared) },
        &mut || lead.lead(rt, shared, sink),
    );
    answer
}

// The same, with all threads started by this one, so that a thread that begins late holds up no other.
#[cycle(turns)]
fn lead_in_turn<R: Threads + Wait + Sync, S: Sync, K, L: Lead<S, K>, T: Task<S> + Send>(
    rt: &R,
    lead: &mut L,
    tasks: &mut [T],
    shared: &S,
    sink: &mut K,
) -> L::Answer
    requires lead { L.begins lead.old shared.now }
    requires takes { L.takes shared.now sink.old }
    requires tasks { All (λ task. T.ready task shared.now) tasks.old }
    ensures lead { L.ends lead.old lead.new shared.now sink.old sink.new result }
    ensures tasks { All (λ task. T.done task shared.now) tasks.new }
    ensures count { length tasks.new ≡ length tasks.old }
{
    match tasks.split_first_mut() {
        Some((first, rest)) => lead_beside_first(rt, lead, first, rest, shared, sink),
        None => lead.lead(rt, shared, sink),
    }
}

// A task, beside the others after it and the lead.
#[cycle(turns)]
fn lead_beside_first<R: Threads + Wait + Sync, S: Sync, K, L: Lead<S, K>, T: Task<S> + Send>(
    rt: &R,
    lead: &mut L,
    first: &mut T,
    rest: &mut [T],
    shared: &S,
    sink: &mut K,
) -> L::Answer
    requires lead { L.begins lead.old shared.now }
    requires takes { L.takes shared.now sink.old }
    requires first { T.ready first.old shared.now }
    requires rest { All (λ task. T.ready task shared.now) rest.old }
    ensures lead { L.ends lead.old lead.new shared.now sink.old sink.new result }
    ensures first { T.done first.new shared.now }
    ensures rest { All (λ task. T.done task shared.now) rest.new }
    ensures count { length rest.new ≡ length rest.old }
{
    let ((), answer) = thread::join_mut(
        rt,
        &mut ||
            requires { T.ready first.now shared.now }
            ensures { T.done first.exit.now shared.entry.now }
        { first.perform(rt, shared) },
        &mut ||
            requires { IsSync R.row × IsSync S.row × IsSend T.row × L.begins lead.now shared.now
                × L.takes shared.now sink.now × All (λ task. T.ready task shared.now) rest.now }
            ensures lead { L.ends lead.entry.now lead.exit.now shared.entry.now sink.entry.now sink.exit.now result }
            ensures tasks { All (λ task. T.done task shared.entry.now) rest.exit.now }
            ensures count { length rest.exit.now ≡ length rest.entry.now }
        { lead_in_turn(rt, lead, rest, shared, sink) },
    );
    answer
}
