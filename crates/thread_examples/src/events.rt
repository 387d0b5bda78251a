// Events on small boards.
use board_core::{Actor, Core, Event, Took};
use handover::{Handover, Outcome, PadSum, StreamCause, StreamFault};
use std::alloc::Global;
use std::process::Abort;

const GOOD: Outcome = Outcome::Good { pads: NONE };

const NONE: PadSum = PadSum {
    zero: false,
    one: false,
    vain: false,
};

const WORKER: Actor = Actor::Worker(0);

// Lets events happen, each of which is enabled, on a board whose rings hold two bytes at most after each.
fn happen(rt: &impl Abort, core: &mut Core, events: &[Event]) {
    for event in events {
        happens(rt, core, event);
        assert!(rt; has_rings_of_two(core));
    }
}

fn has_rings_of_two(core: &Core) -> bool {
    for i in 0..core.count() {
        if core.ring_capacity(i) != 2 {
            return false;
        }
    }
    true
}

fn happens(rt: &impl Abort, core: &mut Core, event: &Event) -> Took {
    assert!(rt; core.enabled(event));
    assert!(rt; core.fits(event));
    core.step(event)
}

// Whether the ring of the segment that is emitted begins with these bytes.
fn is_first(rt: &impl Abort, core: &Core, bytes: &[u8]) -> bool {
    let mut buf = [0; 4];
    assert!(rt; core.cur() < core.count());
    assert!(rt; bytes.len() <= 4);
    let n = core.front(&mut buf[..bytes.len()]);
    n == bytes.len() && &buf[..n] == bytes
}

#[test]
fn three_segments_in_seventeen_events(rt: HostRuntime) {
    let mut core = Core::new(rt.alloc(), 3, 2, 1).expect(&rt, "memory");
    put_the_first_segment(&rt, &mut core);
    pass_the_second_segment(&rt, &mut core);
    put_the_third_segment(&rt, &mut core);
    happen(&rt, &mut core, &[Event::Take(1), Event::Advance]);
    assert!(rt; !core.ended());
    happen(&rt, &mut core, &[Event::Leave(0)]);
    assert!(rt; core.ended());
}

fn put_the_first_segment(rt: &impl Abort, core: &mut Core) {
    happen(
        rt,
        core,
        &[Event::Claim(WORKER), Event::Put(0, &[0x3f, 0xff])],
    );
    assert!(rt; is_first(rt, core, &[0x3f]));
    happen(rt, core, &[Event::Take(1), Event::Put(0, &[0xd0])]);
    assert!(rt; is_first(rt, core, &[0xff, 0xd0]));
    happen(
        rt,
        core,
        &[Event::Take(2), Event::Finish(WORKER, GOOD), Event::Advance],
    );
}

fn pass_the_second_segment(rt: &impl Abort, core: &mut Core) {
    happen(rt, core, &[Event::Claim(Actor::Emitter), Event::Pass(3)]);
    happen(
        rt,
        core,
        &[Event::Finish(Actor::Emitter, GOOD), Event::Advance],
    );
}

fn put_the_third_segment(rt: &impl Abort, core: &mut Core) {
    happen(rt, core, &[Event::Claim(WORKER), Event::Put(0, &[0x3f])]);
    happen(rt, core, &[Event::Finish(WORKER, GOOD)]);
    assert!(rt; is_first(rt, core, &[0x3f]));
}

#[test]
fn full_ring_takes_no_byte(rt: HostRuntime) {
    let mut core = Core::new(rt.alloc(), 3, 2, 1).expect(&rt, "memory");
    happen(
        &rt,
        &mut core,
        &[Event::Claim(WORKER), Event::Put(0, &[0x3f, 0xff])],
    );
    assert!(rt; !core.enabled(&Event::Put(0, &[0xd0])));
}

#[test]
fn readers_of_a_board(rt: HostRuntime) {
    let mut core = Core::new(rt.alloc(), 2, 2, 1).expect(&rt, "memory");
    assert!(rt; claims_the_first(&rt, &mut core));
    happen(&rt, &mut core, &[Event::Pass(3), Event::Claim(WORKER)]);
    assert!(rt; has_a_passed_and_a_claimed_segment(&rt, &core));
    assert!(rt; has_all_claimed(&rt, &core));
}

fn claims_the_first(rt: &impl Abort, core: &mut Core) -> bool {
    matches!(
        happens(rt, core, &Event::Claim(Actor::Emitter)),
        Took::Segment(0)
    )
}

fn has_a_passed_and_a_claimed_segment(rt: &impl Abort, core: &Core) -> bool {
    assert!(rt; core.count() == 2);
    core.put_of(0) == 3
        && core.taken_of(0) == 3
        && core.waiting(0) == 0
        && core.put_of(1) == 0
        && core.taken_of(1) == 0
        && core.free(1) == 2
}

fn has_all_claimed(rt: &impl Abort, core: &Core) -> bool {
    assert!(rt; core.workers() == 1);
    core.cur() == 0 && core.next() == 2 && !core.left(0) && !core.stopped()
}

#[test]
fn ring_wraps_round_its_end(rt: HostRuntime) {
    let mut core = Core::new(rt.alloc(), 1, 4, 1).expect(&rt, "memory");
    happens(&rt, &mut core, &Event::Claim(WORKER));
    happens(&rt, &mut core, &Event::Put(0, &[1, 2, 3]));
    happens(&rt, &mut core, &Event::Take(2));
    happens(&rt, &mut core, &Event::Put(0, &[4, 5, 6]));
    assert!(rt; has_three_to_six(&rt, &core));
}

fn has_three_to_six(rt: &impl Abort, core: &Core) -> bool {
    assert!(rt; core.cur() < core.count());
    let mut two = [9; 2];
    assert!(rt; core.front(&mut two) == 2 && two == [3, 4]);
    let mut six = [9; 6];
    assert!(rt; core.front(&mut six) == 4 && six == [3, 4, 5, 6, 9, 9]);
    core.waiting(0) == 4 && core.free(0) == 0
}

#[test]
fn numbers_out_of_range_are_not_enabled(rt: HostRuntime) {
    let core = Core::new(rt.alloc(), 1, 1, 1).expect(&rt, "memory");
    assert_strange_numbers_are_not_enabled(&rt, &core);
}

#[test]
fn no_segments_and_no_workers_are_the_end(rt: HostRuntime) {
    let none = Core::new(rt.alloc(), 0, 1, 0).expect(&rt, "memory");
    assert_strange_numbers_are_not_enabled(&rt, &none);
    assert!(rt; none.ended() && !none.enabled(&Event::Claim(Actor::Emitter)));
}

fn assert_strange_numbers_are_not_enabled(rt: &impl Abort, core: &Core) {
    let stranger = Actor::Worker(255);
    for event in &[
        Event::Claim(stranger),
        Event::Put(255, &[1]),
        Event::Put(0, &[]),
        Event::Pass(0),
        Event::Pass(u64::MAX),
        Event::Finish(stranger, GOOD),
        Event::Take(0),
        Event::Take(u64::MAX),
        Event::Advance,
        Event::Leave(255),
    ] {
        assert!(rt; !core.enabled(event));
    }
}

#[test]
fn count_of_bytes_ends_at_its_last_value(rt: HostRuntime) {
    let mut core = Core::new(rt.alloc(), 1, 1, 1).expect(&rt, "memory");
    happens(&rt, &mut core, &Event::Claim(Actor::Emitter));
    happens(&rt, &mut core, &Event::Pass(u64::MAX));
    let one_more = Event::Pass(1);
    assert!(rt; core.enabled(&one_more) && !core.fits(&one_more));
}

#[test]
fn nothing_comes_after_a_fault_but_stop(rt: HostRuntime) {
    let mut core = faulty_board(&rt, rt.alloc());
    happen(&rt, &mut core, &[Event::Claim(WORKER), Event::Stop]);
    assert!(rt; is_stopped_before_the_worker_leaves(&core));
    happen(&rt, &mut core, &[Event::Leave(0)]);
    assert!(rt; core.segment_of(WORKER).is_none() && core.ended());
}

fn is_stopped_before_the_worker_leaves(core: &Core) -> bool {
    !core.enabled(&Event::Put(0, &[1]))
        && !core.enabled(&Event::Stop)
        && matches!(core.segment_of(WORKER), Some(1))
        && !core.ended()
}

// A board of two segments, of which the first ended with a fault.
fn faulty_board(rt: &impl Abort, alloc: Global) -> Core {
    let start = Handover::start();
    let cause = StreamCause::Seam {
        found: start,
        kept: start,
    };
    let bad = Outcome::Bad(StreamFault { segment: 0, cause });
    let mut core = Core::new(alloc, 2, 2, 1).expect(rt, "memory");
    happen(
        rt,
        &mut core,
        &[Event::Claim(WORKER), Event::Finish(WORKER, bad)],
    );
    assert!(rt; !core.enabled(&Event::Advance) && !core.enabled(&Event::Claim(Actor::Emitter)));
    assert!(rt; core.count() == 2);
    assert!(rt; matches!(core.done(0), Some(Outcome::Bad(_))) && core.owner(0).is_none());
    core
}
