// Cases worked by hand from what docs/FORMAT.md says of the predicted DC.
use dc_predict::{predict, spread};
use std::process::Abort;

#[test]
fn predictions_where_some_are_there(rt: HostRuntime) {
    assert!(rt; predict(None, None, None) == 0);
    assert!(rt; predict(Some(-7), None, None) == -7);
    assert!(rt; predict(None, Some(9), None) == 9);
    assert!(rt; predict(Some(-7), Some(9), Some(4)) == -2);
}

#[test]
fn spreads_where_some_are_there(rt: HostRuntime) {
    assert!(rt; spread(None, None) == 0);
    assert!(rt; spread(Some(-7), None) == 0);
    assert!(rt; spread(None, Some(9)) == 0);
    assert!(rt; spread(Some(-7), Some(9)) == 5);
}

// The DCs above, left and diagonal, and the predicted DC.
type Prediction = ([i16; 3], i32);

const PREDICTIONS: &[Prediction] = &[
    // The diagonal one is the greatest, or as great as the greater.
    ([5, 9, 20], 5),
    ([5, 9, 9], 5),
    ([9, 5, 9], 5),
    // It is the least, or as small as the lesser.
    ([5, 9, -3], 9),
    ([5, 9, 5], 9),
    ([9, 5, 5], 9),
    // It is between them.
    ([5, 9, 7], 7),
    ([5, 9, 6], 8),
    ([-5, -9, -8], -6),
    ([3, 3, 3], 3),
    ([32767, -32767, 0], 0),
    ([32767, -32767, 32766], -32766),
    ([-32767, 32767, -32766], 32766),
    ([32767, -32767, 32767], -32767),
    ([32767, -32767, -32767], 32767),
    ([32767, 32767, -32767], 32767),
    ([-32767, -32767, 32767], -32767),
];

#[test]
fn predictions_of_three(rt: HostRuntime) {
    for (neighbours, wanted) in PREDICTIONS {
        assert!(rt; of_three(&rt, *neighbours) == *wanted, "{neighbours:?}");
    }
}

fn of_three(rt: &impl Abort, neighbours: [i16; 3]) -> i32 {
    let [above, left, diagonal] = neighbours;
    assert!(rt; above > -32768 && left > -32768 && diagonal > -32768);
    predict(Some(above), Some(left), Some(diagonal))
}

// The DCs above and left, and the spread.
type Spread = ([i16; 2], u8);

const SPREADS: &[Spread] = &[
    ([3, 3], 0),
    ([3, 4], 1),
    ([-4, 3], 3),
    ([4, -4], 4),
    ([0, 32767], 15),
    ([32767, -1], 16),
    ([32767, -32767], 16),
    ([-32767, 32767], 16),
];

#[test]
fn spreads_of_two(rt: HostRuntime) {
    for (neighbours, wanted) in SPREADS {
        assert!(rt; of_two(&rt, *neighbours) == *wanted, "{neighbours:?}");
    }
}

fn of_two(rt: &impl Abort, neighbours: [i16; 2]) -> u8 {
    let [above, left] = neighbours;
    assert!(rt; above > -32768 && left > -32768);
    spread(Some(above), Some(left))
}
