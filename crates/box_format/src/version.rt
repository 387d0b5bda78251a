// The versions of a container, and how each of them is laid out.
ghost use Rattle.std.specs.Prelude.{◌≡◌, ◌+◌, ◌≤◌, true};
ghost use Rattle.box_format.specs.Versions.{layout_of, fewest_scans, most_scans};

/// A version of the container.
#[derive(Clone, Copy, Debug, PartialEq, Eq)]
pub enum Version {
    /// 1: one pad bit for all restart intervals.
    First,
    /// 2: a pad bit for each restart interval, in a list where two of them differ.
    Second,
    /// 3: a chunk of a file, with the pad bits of the whole file, as version 2 has them.
    Third,
    /// 4: a file of several scans, each as in version 2.
    Fourth,
    /// 5: as version 2, with the place in the file of each segment's first byte.
    Fifth,
}

/// The versions that `decode` reads.
pub(crate) const DECODED: [Version; 5] = [
    Version::First,
    Version::Second,
    Version::Third,
    Version::Fourth,
    Version::Fifth,
];

/// Those of them that have one scan.
pub(crate) const ONE_SCAN: [Version; 4] = [
    Version::First,
    Version::Second,
    Version::Third,
    Version::Fifth,
];

/// The versions that `migrate` reads.
pub(crate) const MIGRATABLE: [Version; 2] = [Version::First, Version::Second];

/// How a version is laid out. Places are from the start of the container, or of a scan's fields.
#[derive(Clone, Copy, Debug, PartialEq, Eq)]
pub struct Layout {
    /// The byte that says the version.
    pub byte: u8,
    /// Whether the number of scans, 2 to 4, and then the trailer's length come before the fields of the first scan.
    /// Else there is one scan, and the trailer's length is among its fields, after the header's.
    pub several: bool,
    /// Where the fields of the first scan start.
    pub first: usize,
    /// Where the length of the trailer is.
    pub trailer: usize,
    /// Whether the length of a pad list is among a scan's fields.
    pub listed: bool,
    /// Where it is among these, if it is.
    pub list: usize,
    /// Whether the fields of a chunk are among them, from 14 on.
    pub chunked: bool,
    /// Whether the place of the scan's end is, at 14, and each record ends with its segment's place.
    pub placed: bool,
    /// How many bytes the fields of a scan have before its records.
    pub fields: usize,
    /// How many bytes a record has.
    pub room: usize,
    /// The most segments of all scans.
    pub most: u8,
}

impl Version {
    /// How it is laid out.
    pub fn layout(self) -> Layout
        ensures value { result ≡ layout_of self }
        ensures first { result.first ≤ 10 }
        ensures low { 10 ≤ result.fields }
        ensures fields { result.fields ≤ 46 }
        ensures room { result.room ≤ 30 }
        ensures record { 22 ≤ result.room }
        ensures trailer { result.trailer + 4 ≤ result.first + result.fields }
        ensures list { result.list + 4 ≤ result.fields }
        ensures chunk { result.chunked ≡ true → 46 ≤ result.fields }
        ensures end { result.placed ≡ true → 22 ≤ result.fields }
        ensures place { result.placed ≡ true → 30 ≤ result.room }
    {
        match self {
            Version::First => Layout {
                byte: 1,
                several: false,
                first: 5,
                trailer: 11,
                listed: false,
                list: 0,
                chunked: false,
                placed: false,
                fields: 10,
                room: 22,
                most: 16,
            },
            Version::Second => Layout {
                byte: 2,
                several: false,
                first: 5,
                trailer: 11,
                listed: true,
                list: 10,
                chunked: false,
                placed: false,
                fields: 14,
                room: 22,
                most: 64,
            },
            Version::Third => Layout {
                byte: 3,
                several: false,
                first: 5,
                trailer: 11,
                listed: true,
                list: 10,
                chunked: true,
                placed: false,
                fields: 46,
                room: 22,
                most: 64,
            },
            Version::Fourth => Layout {
                byte: 4,
                several: true,
                first: 10,
                trailer: 6,
                listed: true,
                list: 6,
                chunked: false,
                placed: false,
                fields: 10,
                room: 22,
                most: 64,
            },
            Version::Fifth => Layout {
                byte: 5,
                several: false,
                first: 5,
                trailer: 11,
                listed: true,
                list: 10,
                chunked: false,
                placed: true,
                fields: 22,
                room: 30,
                most: 64,
            },
        }
    }

    /// The fewest scans.
    pub(crate) fn fewest_scans(self) -> u8
        ensures value { result ≡ fewest_scans (layout_of self) }
        ensures some { 1 ≤ result }
    {
        if self.layout().several { 2 } else { 1 }
    }

    /// The most scans.
    pub(crate) fn most_scans(self) -> u8
        ensures value { result ≡ most_scans (layout_of self) }
        ensures few { result ≤ 4 }
    {
        if self.layout().several { 4 } else { 1 }
    }
}
