// Whether a file may have several scans.

/// One scan with all of the frame's components, or several that share them.
#[derive(Clone, Copy)]
pub(crate) enum Scans {
    One,
    Several,
}
