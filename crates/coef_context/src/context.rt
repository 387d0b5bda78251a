// What a bit is of, and what is known before it.

/// Which coefficients a value is one of. The row edge has the seven AC coefficients of the first row, the column edge
/// those of the first column, and the 49 outside both are the inner ones.
#[derive(Clone, Copy)]
pub enum Kind {
    /// An inner coefficient: places 0 to 48, in zigzag order.
    Inner,
    /// A coefficient of the row edge: places 0 to 6, from the left.
    Row,
    /// A coefficient of the column edge: places 0 to 6, from the top.
    Column,
    /// The residue, which is the DC less the predicted DC: its place is 0.
    Dc,
}

/// The context of a bit. The size of a number is how many bits its absolute value has, 0 for 0. A count is coded
/// highest bit first: a bit's node is 1 for the first, and then twice the node before plus the bit before. The size of
/// a value is coded in steps: step s says whether the size is above s. After them are the value's sign, and its bits
/// below the top one.
#[derive(Clone, Copy)]
pub enum Context {
    /// A bit of how many inner coefficients are not 0.
    InnerCount {
        /// The size of the guess at the count from the blocks around, from 0 to 6.
        size: u8,
        /// From 1 to 63.
        node: u8,
    },
    /// A step of an inner coefficient's size.
    InnerStep {
        /// In zigzag order, from 0 to 48.
        place: u8,
        /// The size of a mean over the blocks around at this place, from 0 to 10.
        weight: u8,
        /// The size of how many coefficients that aren't 0 remain from this place on, from 1 to 6.
        left: u8,
        /// From 0 to 9.
        step: u8,
    },
    /// A bit of how many coefficients of an edge are not 0.
    EdgeCount {
        /// Whether it is the column edge.
        column: bool,
        /// The size of the inner count, from 0 to 6.
        size: u8,
        /// From 1 to 7.
        node: u8,
    },
    /// A step of the size of a coefficient of an edge.
    EdgeStep {
        /// Whether it is the column edge.
        column: bool,
        /// Along the edge, from 0 to 6.
        place: u8,
        /// The size of a mean over the blocks around at this place, from 0 to 10.
        weight: u8,
        /// The size of how many coefficients that aren't 0 remain from this place on, from 1 to 3.
        left: u8,
        /// From 0 to 9.
        step: u8,
    },
    /// A step of the residue's size.
    DcStep {
        /// The size of the difference of the DCs above and left, from 0 to 16.
        spread: u8,
        /// From 0 to 15.
        step: u8,
    },
    /// The sign of a value that isn't 0.
    Sign {
        /// Which coefficient it is.
        kind: Kind,
        /// The place in its kind.
        place: u8,
        /// The size of the value, from 1 to 10, and of the residue to 16.
        size: u8,
    },
    /// A bit of a value below its top bit.
    Low {
        /// Which coefficient it is.
        kind: Kind,
        /// The place in its kind.
        place: u8,
        /// The size of the value, from 2 to 10, and of the residue to 16.
        size: u8,
        /// The bit's number, from 0 for the lowest to the size less 2.
        bit: u8,
    },
}
