// What the arguments ask for.

/// What is measured.
#[derive(Clone, Copy)]
pub(crate) enum Measure {
    /// Passes over the scan; whether it is written too, and how often.
    Scan { writes: bool, times: u32 },
    /// Chunks of `size` bytes, 1 or more, in at most `segments` segments, 1 to 64.
    Chunks { size: u64, segments: u8 },
}

/// What these arguments ask for, the program's name before them.
pub(crate) fn measure_of(words: &[String]) -> Option<Measure> {
    match words {
        [_, kind, times] => passes_of(kind.as_str(), times.as_str()),
        [_, kind, size, segments] if kind.as_str() == "chunks" => {
            chunks_of(size.as_str(), segments.as_str())
        }
        _ => None,
    }
}

fn passes_of(kind: &str, times: &str) -> Option<Measure> {
    let writes = match kind {
        "read" => false,
        "both" => true,
        _ => return None,
    };
    let times = times.parse().ok()?;
    Some(Measure::Scan { writes, times })
}

fn chunks_of(size: &str, segments: &str) -> Option<Measure> {
    let size = size.parse().ok()?;
    let segments = segments.parse().ok()?;
    Some(Measure::Chunks { size, segments })
}
