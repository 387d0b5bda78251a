// The portion of a container that a range of its file is.
ghost use Rattle.std.specs.Prelude.{◌≡◌, ◌≤◌};
ghost use Rattle.byte_window.specs.Slices.{slice};
ghost use Rattle.container_spec.specs.RangeMeanings.{placed_file, range_portion};

use crate::bounds::{place_of, segments_within, window_within};
use crate::one_scan::OneScan;
use byte_window::Window;
use lepton_decode::Portion;

/// What the range from one place to before another has of the header, of the segments and of the trailer.
pub(crate) fn range_portion<'a>(scan: &OneScan<'a>, from: u64, to: u64) -> Portion<'a>
    requires { from ≤ to }
    ensures { result ≡ range_portion (placed_file scan.now.plan scan.now.parts) from to }
{
    let view = scan.view();
    let end = place_of(view, view.segments());
    let segments = segments_within(view, from, to);
    let within = window_within(view, segments, from, to);
    Portion {
        before: part(view.header(), from, to),
        first: segments.0,
        count: segments.1 - segments.0,
        within,
        after: part(
            view.trailer(),
            from.saturating_sub(end),
            to.saturating_sub(end),
        ),
    }
}

// The bytes from one place to before another.
fn part(bytes: &[u8], from: u64, to: u64) -> &[u8]
    requires { from ≤ to }
    ensures { result.now ≡ slice from to bytes.now }
{
    let window = Window {
        skip: from,
        most: Some(to - from),
    };
    window.cut(bytes)
}
