// The first and the last bin of each run, and one within, as a program gives them that counts the contexts of
// docs/FORMAT.md one by one: the plain program and the bases each give them.
ghost use Rattle.std.specs.Prelude.{◌≡◌, ◌<◌};
ghost use Rattle.coef_context.specs.BinBases.{AreBases};
ghost use Rattle.coef_context.specs.BinNumbers.{IsContext};
ghost use Rattle.coef_context.specs.Runs.{edge_values, inner_values};
ghost use Rattle.coef_context.specs.declared.context.Context.TheVariants.{Low};
ghost use Rattle.coef_context.specs.declared.context.Kind.TheVariants.{Column, Inner, Row};

use crate::plain_bins::bin;
use coef_context::{
    BINS, BinBases, Context, Kind, dc_bases, different_numbers, edge_bases, edge_count_base,
    inner_bases, inner_count_base, low_bit,
};
use std::process::Abort;

// The class, the size and the node, and the bin.
const INNER_COUNTS: &[([u8; 3], usize)] = &[
    ([0, 0, 1], 0),
    ([0, 6, 63], 440),
    ([1, 0, 1], 441),
    ([1, 6, 63], 881),
];

#[test]
fn inner_counts(rt: HostRuntime) {
    for (parts, wanted) in INNER_COUNTS {
        assert!(rt; inner_count(&rt, *parts) == *wanted, "{wanted}");
    }
}

fn inner_count(rt: &impl Abort, parts: [u8; 3]) -> usize {
    let [class, size, node] = parts;
    assert!(rt; class < 2 && size <= 6 && 1 <= node && node <= 63);
    let found = inner_count_base(class, size) + (usize::from(node) - 1);
    assert!(rt; found == bin(class, Context::InnerCount { size, node }));
    found
}

// The class, whether it is the column edge, the size and the node, and the bin.
const EDGE_COUNTS: &[(u8, bool, [u8; 2], usize)] = &[
    (0, false, [0, 1], 65_562),
    (0, true, [0, 1], 65_611),
    (1, true, [6, 7], 65_757),
];

#[test]
fn edge_counts(rt: HostRuntime) {
    for (class, column, parts, wanted) in EDGE_COUNTS {
        assert!(rt;
            edge_count(&rt, *class, *column, *parts) == *wanted,
            "{wanted}"
        );
    }
}

fn edge_count(rt: &impl Abort, class: u8, column: bool, parts: [u8; 2]) -> usize {
    let [size, node] = parts;
    assert!(rt; class < 2 && size <= 6 && 1 <= node && node <= 7);
    let found = edge_count_base(class, column, size) + (usize::from(node) - 1);
    assert!(rt; found == bin(class, Context::EdgeCount { column, size, node }));
    found
}

// The class, the place, the weight, the size of what is left and the step, and the bin.
const INNER_STEPS: &[([u8; 5], usize)] = &[
    ([0, 0, 0, 1, 0], 882),
    ([0, 20, 3, 4, 7], 14_299),
    ([1, 48, 10, 6, 9], 65_561),
];

#[test]
fn inner_steps(rt: HostRuntime) {
    for (parts, wanted) in INNER_STEPS {
        assert!(rt; inner_step(&rt, *parts) == *wanted, "{wanted}");
    }
}

fn inner_step(rt: &impl Abort, parts: [u8; 5]) -> usize {
    let [class, place, weight, left, step] = parts;
    assert!(rt; class < 2 && place <= 48 && weight <= 10);
    assert!(rt; 1 <= left && left <= 6 && step <= 9);
    let context = Context::InnerStep {
        place,
        weight,
        left,
        step,
    };
    let found = inner_bases(class, usize::from(place), weight, left).step(step);
    assert!(rt; found == bin(class, context));
    found
}

// The class, whether it is the column edge; the place, the weight, the size of what is left and the step, and the bin.
const EDGE_STEPS: &[(u8, bool, [u8; 4], usize)] = &[
    (0, false, [0, 0, 1, 0], 65_758),
    (0, true, [2, 5, 3, 4], 68_902),
    (1, true, [6, 10, 3, 9], 74_997),
];

#[test]
fn edge_steps(rt: HostRuntime) {
    for (class, column, parts, wanted) in EDGE_STEPS {
        assert!(rt;
            edge_step(&rt, *class, *column, *parts) == *wanted,
            "{wanted}"
        );
    }
}

fn edge_step(rt: &impl Abort, class: u8, column: bool, parts: [u8; 4]) -> usize {
    let [place, weight, left, step] = parts;
    assert!(rt; class < 2 && place <= 6 && weight <= 10);
    assert!(rt; 1 <= left && left <= 3 && step <= 9);
    let context = Context::EdgeStep {
        column,
        place,
        weight,
        left,
        step,
    };
    let found = edge_bases(class, column, usize::from(place), weight, left).step(step);
    assert!(rt; found == bin(class, context));
    found
}

// The class, the spread and the step, and the bin.
const DC_STEPS: &[([u8; 3], usize)] = &[
    ([0, 0, 0], 74_998),
    ([1, 3, 2], 75_320),
    ([1, 16, 15], 75_541),
];

#[test]
fn dc_steps(rt: HostRuntime) {
    for (parts, wanted) in DC_STEPS {
        assert!(rt; dc_step(&rt, *parts) == *wanted, "{wanted}");
    }
}

fn dc_step(rt: &impl Abort, parts: [u8; 3]) -> usize {
    let [class, spread, step] = parts;
    assert!(rt; class < 2 && spread <= 16 && step <= 15);
    let found = dc_bases(class, spread).step(step);
    assert!(rt; found == bin(class, Context::DcStep { spread, step }));
    found
}

// The class, the place and the size, and the bin; of each kind.
const INNER_SIGNS: &[([u8; 3], usize)] = &[([0, 0, 1], 75_542), ([1, 48, 10], 76_521)];

const ROW_SIGNS: &[([u8; 3], usize)] = &[([0, 0, 1], 80_932)];

const COLUMN_SIGNS: &[([u8; 3], usize)] = &[([0, 3, 5], 81_036), ([1, 6, 10], 81_211)];

const DC_SIGNS: &[([u8; 3], usize)] = &[([0, 0, 1], 82_472), ([1, 0, 16], 82_503)];

#[test]
fn inner_signs(rt: HostRuntime) {
    for (parts, wanted) in INNER_SIGNS {
        assert!(rt; inner_sign(&rt, *parts) == *wanted, "{wanted}");
    }
}

fn inner_sign(rt: &impl Abort, parts: [u8; 3]) -> usize {
    let [class, place, size] = parts;
    assert!(rt; class < 2 && place <= 48 && 1 <= size && size <= 10);
    let kind = Kind::Inner;
    let found = inner_bases(class, usize::from(place), 0, 1).sign(size);
    assert!(rt; found == bin(class, Context::Sign { kind, place, size }));
    found
}

#[test]
fn edge_signs(rt: HostRuntime) {
    for (parts, wanted) in ROW_SIGNS {
        assert!(rt; row_sign(&rt, *parts) == *wanted, "{wanted}");
    }
    for (parts, wanted) in COLUMN_SIGNS {
        assert!(rt; column_sign(&rt, *parts) == *wanted, "{wanted}");
    }
}

fn row_sign(rt: &impl Abort, parts: [u8; 3]) -> usize {
    let [class, place, size] = parts;
    assert!(rt; class < 2 && place <= 6 && 1 <= size && size <= 10);
    let kind = Kind::Row;
    let found = edge_bases(class, false, usize::from(place), 0, 1).sign(size);
    assert!(rt; found == bin(class, Context::Sign { kind, place, size }));
    found
}

fn column_sign(rt: &impl Abort, parts: [u8; 3]) -> usize {
    let [class, place, size] = parts;
    assert!(rt; class < 2 && place <= 6 && 1 <= size && size <= 10);
    let kind = Kind::Column;
    let found = edge_bases(class, true, usize::from(place), 0, 1).sign(size);
    assert!(rt; found == bin(class, Context::Sign { kind, place, size }));
    found
}

#[test]
fn dc_signs(rt: HostRuntime) {
    for (parts, wanted) in DC_SIGNS {
        assert!(rt; dc_sign(&rt, *parts) == *wanted, "{wanted}");
    }
}

fn dc_sign(rt: &impl Abort, parts: [u8; 3]) -> usize {
    let [class, place, size] = parts;
    assert!(rt; class < 2 && place == 0 && 1 <= size && size <= 16);
    let kind = Kind::Dc;
    let found = dc_bases(class, 0).sign(size);
    assert!(rt; found == bin(class, Context::Sign { kind, place, size }));
    found
}

#[test]
fn inner_low_bits(rt: HostRuntime) {
    assert!(rt; low(&rt, 0, Kind::Inner, 0, 2, 0) == 76_522);
    assert!(rt; low(&rt, 0, Kind::Inner, 1, 4, 2) == 76_572);
    assert!(rt; low(&rt, 1, Kind::Inner, 48, 10, 8) == 80_931);
}

#[test]
fn edge_low_bits(rt: HostRuntime) {
    assert!(rt; low(&rt, 0, Kind::Row, 0, 2, 0) == 81_212);
    assert!(rt; low(&rt, 1, Kind::Row, 6, 5, 1) == 82_119);
    assert!(rt; low(&rt, 1, Kind::Column, 6, 10, 8) == 82_471);
}

#[test]
fn dc_low_bits(rt: HostRuntime) {
    assert!(rt; low(&rt, 0, Kind::Dc, 0, 2, 0) == 82_504);
    assert!(rt; low(&rt, 0, Kind::Dc, 0, 16, 14) == 82_623);
    assert!(rt; low(&rt, 1, Kind::Dc, 0, 3, 1) == 82_626);
    assert!(rt; low(&rt, 1, Kind::Dc, 0, 16, 14) == 82_743);
}

fn low(rt: &impl Abort, class: u8, kind: Kind, place: u8, size: u8, bit: u8) -> usize
    requires class { class < 2 }
    requires context { IsContext (Low kind place size bit) }
{
    let context = Context::Low {
        kind,
        place,
        size,
        bit,
    };
    let found = bases_of(class, kind, usize::from(place)).low(size) + usize::from(bit);
    assert!(rt; found == bin(class, context));
    found
}

// Where the bins of a value of this kind begin, with any steps.
fn bases_of(class: u8, kind: Kind, place: usize) -> BinBases
    requires class { class < 2 }
    requires inner { kind ≡ Inner → place < inner_values }
    requires row { kind ≡ Row → place < edge_values }
    requires column { kind ≡ Column → place < edge_values }
    ensures bases { AreBases result }
{
    match kind {
        Kind::Inner => inner_bases(class, place, 0, 1),
        Kind::Row => edge_bases(class, false, place, 0, 1),
        Kind::Column => edge_bases(class, true, place, 0, 1),
        Kind::Dc => dc_bases(class, 0),
    }
}

// The size and the bit, and its index among the lower bits of all sizes.
const LOW_BIT_INDEXES: &[(usize, usize, usize)] = &[
    (2, 0, 0),
    (3, 0, 1),
    (3, 1, 2),
    (10, 8, 44),
    (16, 14, 119),
];

#[test]
fn low_bit_indexes(rt: HostRuntime) {
    for (size, bit, index) in LOW_BIT_INDEXES {
        assert!(rt; low_bit_of(&rt, *size, *bit) == *index, "{index}");
    }
    assert!(rt; BINS == 82_744);
    different_numbers();
}

fn low_bit_of(rt: &impl Abort, size: usize, bit: usize) -> usize {
    assert!(rt; 2 <= size && size <= 16 && bit <= size - 2);
    low_bit(size, bit)
}
