// A window on bytes that come in pieces.
ghost use Rattle.std.specs.Prelude.{◌≡◌, ◌-◌, ◌≤◌};
ghost use Rattle.byte_window.specs.Windows.{after, at_most_of, everything, fewer, through, window};

/// Which of the bytes to come go through.
#[derive(Clone, Copy, Debug, PartialEq, Eq)]
pub struct Window {
    /// How many are left out first.
    pub skip: u64,
    /// How many go through after them, if there is a most.
    pub most: Option<u64>,
}

impl Window {
    /// Through which all go.
    pub fn everything() -> Window
        ensures { result ≡ everything }
    {
        Window {
            skip: 0,
            most: None,
        }
    }

    /// The window on what comes after `count` bytes.
    pub fn after(self, count: u64) -> Window
        ensures { result ≡ after self count }
    {
        Window {
            skip: self.skip.saturating_sub(count),
            most: fewer(self.most, count.saturating_sub(self.skip)),
        }
    }

    /// How many of the next `count` bytes go through.
    pub fn through(self, count: u64) -> u64
        ensures value { result ≡ through self count }
        ensures few { result ≤ count }
    {
        least(self.most, count.saturating_sub(self.skip))
    }

    /// What goes through of the first bytes that come.
    pub fn cut(self, bytes: &[u8]) -> &[u8]
        ensures { result.now ≡ window self bytes.now }
    {
        let skipped = self.skip.min(bytes.len() as u64);
        let (_, rest) = bytes.split_at(skipped as usize);
        let count = least(self.most, rest.len() as u64);
        let (part, _) = rest.split_at(count as usize);
        part
    }
}

// The lesser of two numbers, if there are two.
fn least(most: Option<u64>, count: u64) -> u64
    ensures value { result ≡ at_most_of most count }
    ensures few { result ≤ count }
{
    match most {
        None => count,
        Some(most) => most.min(count),
    }
}

// `count` fewer, if there is a most; never below none.
fn fewer(most: Option<u64>, count: u64) -> Option<u64>
    ensures { result ≡ fewer most count }
{
    match most {
        None => None,
        Some(most) => Some(most.saturating_sub(count)),
    }
}
