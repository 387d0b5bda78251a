// What the table under a lock holds, and what a seat of it knows.

// What is in the slot, or what a seat has in its place.
#[derive(Drop)]
pub(crate) enum Slot<X, E> {
    // The value.
    Home(X),
    // What the holder is about to record: kind, amount and entry.
    Note(u64, u64, E),
    // Nothing: the holder has the value.
    Out,
}

// Whether a seat has the turn.
pub(crate) enum Stage<V, X> {
    Idle,
    // It has, and found this value.
    Holds(X),
    // It has, and recorded its change: the value found, and its view as it was.
    Told(X, V),
}

// What a seat knows. No value of it is made.
pub(crate) struct Known<V, X, E> {
    pub view: V,
    pub stage: Stage<V, X>,
    // How often the pass was released, and kind, amount and entry of the last release.
    pub holds: u64,
    pub last: Option<(u64, u64, E)>,
    // Its index among the seats.
    pub number: u64,
    // How many seats were split off from it.
    pub splits: u64,
    // How often it raised the bell.
    pub rings: u64,
}
