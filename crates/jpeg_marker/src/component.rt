// A component of the frame with its tables.
ghost use Rattle.std.specs.Prelude.{◌≡◌};
ghost use Rattle.jpeg_marker.specs.Components.{no_component};

use crate::table::RawTable;

/// A component of the frame, with the tables that code it (ITU-T T.81, B.2.2, B.2.3).
#[derive(Clone, Copy)]
pub struct Component {
    pub(crate) index: u8,
    pub(crate) id: u8,
    pub(crate) h: u8,
    pub(crate) v: u8,
    pub(crate) dc: RawTable,
    pub(crate) ac: RawTable,
}

impl Component {
    /// What is kept after the last component.
    pub(crate) fn none() -> Component
        ensures { result ≡ no_component }
    {
        Component {
            index: 0,
            id: 0,
            h: 0,
            v: 0,
            dc: RawTable::empty(),
            ac: RawTable::empty(),
        }
    }

    /// The index among the frame's components, from 0.
    pub fn index(&self) -> u8
        ensures { result ≡ self.now.index }
    {
        self.index
    }

    /// The identifier.
    pub fn id(&self) -> u8
        ensures { result ≡ self.now.id }
    {
        self.id
    }

    /// The horizontal sampling factor.
    pub fn h(&self) -> u8
        ensures { result ≡ self.now.h }
    {
        self.h
    }

    /// The vertical sampling factor.
    pub fn v(&self) -> u8
        ensures { result ≡ self.now.v }
    {
        self.v
    }

    /// The table for DC differences.
    pub fn dc(&self) -> &RawTable
        ensures { result.now ≡ self.now.dc }
    {
        &self.dc
    }

    /// The table for AC coefficients.
    pub fn ac(&self) -> &RawTable
        ensures { result.now ≡ self.now.ac }
    {
        &self.ac
    }
}
