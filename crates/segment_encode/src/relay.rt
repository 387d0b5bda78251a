// A pass that goes over some work lane by lane, while other threads do the lanes that it has passed. The traits have
// one impl each (`lanes.rt`, `streams.rt`): a closure over a type that names a lifetime can't be proved, one over a
// type parameter can.
ghost use Rattle.std.specs.Prelude.{◌≡◌, ◌+◌, ◌*◌, ◌<◌, ◌≤◌, ◌++◌, ℕ, List, map, IfOk, OnOk, IsErrOf};
ghost use Rattle.std.specs.Mem.{type_size};
ghost use denote.Param.Send.{IsSend, IsSync};
ghost use Rattle.scan_spec.specs.declared.refusal.ScanRefusal.{ScanRefusal};
ghost use Rattle.segment_code.specs.declared.error.ScanError.TheVariants.{Scan};
ghost use Rattle.allocation.specs.Bounds.{most_at_once};
ghost use Rattle.segment_encode.specs.Lanes.{most_lanes};

use crate::tasks::Coding;
use allocation::{NoMemory, push, with_capacity};
use segment_code::ScanError;
use std::alloc::Global;
use std::thread;
use std::thread::Threads;

// The least bytes of a reserve. If a shorter one is given back, the C library keeps later lists for itself as well.
pub(crate) const LEAST_RESERVE: usize = 33 << 20;

// The pass, whose lanes are of one type. It does the last parts itself.
pub(crate) trait Pass<N: Coding> {
    // It is between two parts.
    ghost holds: { Self → Type 0 };

    // How many parts are left.
    ghost left: { Self → ℕ };

    // From one pass to another at the end, with what comes of each part between them.
    ghost gives_all: { Self → Self → List (List ℕ) → Type 0 };

    // A refusal of what it goes over.
    ghost refuses: { Self → ScanRefusal → Type 0 };

    fn left(&self) -> u32
        requires { holds self.now }
        ensures { result ≡ left self.now };

    // How many bytes may still be asked for, about, with lanes of `each` parts.
    fn room(&self, each: u32) -> usize
        requires holds { holds self.now }
        requires each { 0 < each }
        ensures { result ≤ most_at_once };

    // The lane of the next parts, which are passed over.
    fn lane(&mut self, alloc: Global, count: u32) -> Result<N, ScanError>
        requires holds { holds self.old }
        requires some { 0 < count }
        requires fewer { count < left self.old }
        ensures holds { OnOk result (holds self.new) }
        ensures left { OnOk result (left self.new + count ≡ left self.old) }
        ensures ready { IfOk result N.ready }
        ensures gives { (end : Self) (first rest : List (List ℕ)) → IfOk result (λ lane.
            N.makes lane first → gives_all self.new end rest
            → gives_all self.old end (first ++ rest)) }
        ensures later { (refusal : ScanRefusal) → OnOk result (refuses self.new refusal
            → refuses self.old refusal) }
        ensures none { (end : Self) (rest : List (List ℕ)) → IfOk result (λ lane.
            N.refused lane → gives_all self.new end rest → ⊥) }
        ensures refused { (refusal : ScanRefusal) → IsErrOf result (Scan refusal)
            → refuses self.old refusal };

    // What comes of each part that is left.
    fn rest(&mut self, alloc: Global) -> Result<Vec<Vec<u8>>, ScanError>
        requires holds { holds self.old }
        requires some { 0 < left self.old }
        ensures made { IfOk result (λ streams.
            gives_all self.old self.new (map (λ v. v.items) streams.items)) }
        ensures refused { (refusal : ScanRefusal) → IsErrOf result (Scan refusal)
            → refuses self.old refusal };
}

// What comes of each part that is left, in order, in lanes of `each` parts.
#[cycle(parts)]
pub(crate) fn make_all<R: Threads + Sync, N: Coding + Send + Drop, P: Pass<N>>(
    rt: &R,
    alloc: Global,
    pass: &mut P,
    each: u32,
) -> Result<Vec<Vec<u8>>, ScanError>
    requires holds { P.holds pass.old }
    requires some { 0 < P.left pass.old }
    requires each { 0 < each }
    // So there are at most 16 lanes, with that which the pass does.
    requires most { P.left pass.old ≤ most_lanes * each }
    ensures made { IfOk result
        (λ streams. P.gives_all pass.old pass.new (map (λ v. v.items) streams.items)) }
    ensures refused { (refusal : ScanRefusal) → IsErrOf result (Scan refusal)
        → P.refuses pass.old refusal }
{
    if pass.left() <= each {
        return pass.rest(alloc);
    }
    let mut lane = pass.lane(alloc, each)?;
    let others = with_others(rt, alloc, &mut lane, pass, each)?;
    match lane.streams() {
        Ok(streams) => joined(streams, others),
        Err(ScanError::NoMemory(short)) => Err(ScanError::NoMemory(short)),
        // What was passed over without a refusal has none.
        Err(ScanError::Scan(_)) => unreachable!(),
    }
}

// A lane, and what comes of the parts after it: beside it, if the memory that may still be asked for can be had now and
// is kept as a reserve while a thread starts; else after it. So the stack of a thread takes no addresses that are
// needed later. No byte of the reserve is touched.
#[cycle(parts)]
fn with_others<R: Threads + Sync, N: Coding + Send + Drop, P: Pass<N>>(
    rt: &R,
    alloc: Global,
    lane: &mut N,
    pass: &mut P,
    each: u32,
) -> Result<Vec<Vec<u8>>, ScanError>
    requires ready { N.ready lane.old }
    requires holds { P.holds pass.old }
    requires some { 0 < P.left pass.old }
    requires each { 0 < each }
    requires most { P.left pass.old ≤ most_lanes * each }
    ensures done { N.done lane.old lane.new }
    ensures made { IfOk result
        (λ streams. P.gives_all pass.old pass.new (map (λ v. v.items) streams.items)) }
    ensures refused { (refusal : ScanRefusal) → IsErrOf result (Scan refusal)
        → P.refuses pass.old refusal }
{
    let room = pass.room(each).max(LEAST_RESERVE);
    match with_capacity(alloc, room) {
        Ok(reserve) => {
            let mut reserve = reserve;
            beside(rt, alloc, lane, &mut reserve, pass, each)
        }
        Err(_) => {
            lane.perform();
            make_all(rt, alloc, pass, each)
        }
    }
}

// A lane in a thread of its own if one can be had, and what comes of the parts after it beside it. The reserve is given
// back once the thread has started.
#[cycle(parts)]
fn beside<R: Threads + Sync, N: Coding + Send + Drop, P: Pass<N>>(
    rt: &R,
    alloc: Global,
    lane: &mut N,
    reserve: &mut Vec<u8>,
    pass: &mut P,
    each: u32,
) -> Result<Vec<Vec<u8>>, ScanError>
    requires ready { N.ready lane.old }
    requires holds { P.holds pass.old }
    requires some { 0 < P.left pass.old }
    requires each { 0 < each }
    requires most { P.left pass.old ≤ most_lanes * each }
    ensures done { N.done lane.old lane.new }
    ensures made { IfOk result
        (λ streams. P.gives_all pass.old pass.new (map (λ v. v.items) streams.items)) }
    ensures refused { (refusal : ScanRefusal) → IsErrOf result (Scan refusal)
        → P.refuses pass.old refusal }
{
    let (_, others) = thread::join_mut(
        rt,
        &mut ||
            requires { N.ready lane.now }
            ensures { N.done lane.entry.now lane.exit.now }
        { lane.perform() },
        &mut ||
            requires { IsSync R.row × IsSend N.row × P.holds pass.now × (0 < P.left pass.now) × (0 < each)
                × (P.left pass.now ≤ most_lanes * each) }
            ensures made { IfOk result (λ streams.
                P.gives_all pass.entry.now pass.exit.now (map (λ v. v.items) streams.items)) }
            ensures refused { (refusal : ScanRefusal) → IsErrOf result (Scan refusal)
                → P.refuses pass.entry.now refusal }
        {
            *reserve = Vec::new(alloc);
            make_all(rt, alloc, pass, each)
        },
    );
    others
}

/// Streams before others.
pub(crate) fn joined(
    mut streams: Vec<Vec<u8>>,
    others: Vec<Vec<u8>>,
) -> Result<Vec<Vec<u8>>, ScanError>
    ensures made { IfOk result (λ all. map (λ v. v.items) all.items
        ≡ map (λ v. v.items) streams.items ++ map (λ v. v.items) others.items) }
    ensures memory { (refusal : ScanRefusal) → IsErrOf result (Scan refusal) → ⊥ }
{
    append(&mut streams, others)?;
    Ok(streams)
}

/// Appends items. The one error is out of memory.
pub(crate) fn append<T: Drop>(list: &mut Vec<T>, more: Vec<T>) -> Result<(), NoMemory>
    requires sized { 0 < type_size T.row }
    ensures { OnOk result (list.new.items ≡ list.old.items ++ more.items) }
{
    for item in more {
        push(list, item)?;
    }
    Ok(())
}
