// What a frame and a scan say of a component (ITU-T T.81, B.2.2, B.2.3).

/// A component of a frame: its identifier, and how often it is sampled across and down.
#[derive(Clone, Copy)]
pub(crate) struct FrameComponent {
    pub(crate) id: u8,
    pub(crate) h: u8,
    pub(crate) v: u8,
}

/// A component of a scan: its identifier, and the numbers of its tables.
#[derive(Clone, Copy)]
pub(crate) struct ScanComponent {
    pub(crate) id: u8,
    pub(crate) dc: u8,
    pub(crate) ac: u8,
}
