// A container that was read.
ghost use Rattle.std.specs.Prelude.{ℕ, ◌≡◌, ◌≤◌, ◌<◌, ◌^◌, List, Some, length, take, slice_get};
ghost use Rattle.jpeg_marker.specs.FirstWalks.{opening_walk};
ghost use Rattle.box_format.specs.Versions.{layout_of, most_segments};
ghost use Rattle.box_format.specs.Containers.{IsContainer, IsContainerIn, all_parts, all_plans, segment_count, trailer_of};
ghost use Rattle.box_format.specs.Fields.{scans_in, raws_as};
ghost use Rattle.box_format.specs.Checks.{HeadersPass, boxes_of};
ghost use Rattle.box_format.specs.Whole.{IsUncut};

use crate::fields::scans_in;
use crate::version::Version;
use crate::view::{BoxView, scan_view};
use jpeg_marker::Plan;
use std::marker::Model;

/// A container that was read, of any version. Clauses see its scans.
#[derive(Drop)]
pub struct FileView<'a> {
    version: Version,
    bytes: &'a [u8],
    // Four plans: those of the scans, and copies of the first one after them.
    plans: Vec<Plan>,
    count: u8,
}

impl<'a> Model for FileView<'a> {
    ghost use Rattle.std.specs.Prelude.{List};
    ghost use Rattle.box_format.specs.Parts.{BoxSeen};
    ghost use Rattle.box_format.specs.FilesSeen.{scans_seen, IsFileView};

    ghost Value = { List BoxSeen };

    ghost view = { scans_seen };

    ghost invariant = { IsFileView };
}

impl<'a> FileView<'a> {
    /// The view of a container whose checks pass.
    #[inline(always)]
    pub(crate) fn of_plans(version: Version, bytes: &'a [u8], plans: Vec<Plan>) -> FileView<'a>
        requires is { IsContainerIn version (boxes_of
            (take (scans_in (layout_of version) bytes.now) plans.items) (raws_as version bytes.now)) bytes.now }
        requires headers { HeadersPass opening_walk (raws_as version bytes.now)
            (take (scans_in (layout_of version) bytes.now) plans.items) }
        requires whole { IsUncut (layout_of version) bytes.now }
        requires four { length plans.items ≡ 4 }
        requires some { 1 ≤ scans_in (layout_of version) bytes.now }
        requires few { scans_in (layout_of version) bytes.now ≤ 4 }
        ensures { result ≡ boxes_of (take (scans_in (layout_of version) bytes.now) plans.items)
            (raws_as version bytes.now) }
    {
        let count = scans_in(version, bytes);
        FileView {
            version,
            bytes,
            plans,
            count,
        }
    }

    /// How many scans there are, one to four.
    pub fn scans(&self) -> u8
        ensures count { result ≡ length self.now }
        ensures some { 1 ≤ result }
        ensures few { result ≤ 4 }
        ensures sound { (bytes : List ℕ) × IsContainer self.now bytes }
    {
        self.count
    }

    /// The plan of each scan's header.
    pub fn plans(&self) -> &[Plan]
        ensures { result.now ≡ all_plans self.now }
    {
        &self.plans[..usize::from(self.count)]
    }

    /// A scan's part of the container; the first scan has number 0.
    #[inline(never)]
    pub fn scan(&self, scan: u8) -> BoxView<'a>
        requires { scan < length self.now }
        ensures { slice_get self.now scan ≡ Some result }
    {
        let plan = &self.plans()[usize::from(scan)];
        scan_view(self.version, self.bytes, plan, scan)
    }

    /// What follows the last scan, up to the end of the file, or the chunk's part of it.
    #[inline(never)]
    pub fn trailer(&self) -> &'a [u8]
        ensures bytes { result.now ≡ trailer_of (all_parts self.now) }
        ensures fits { length result.now < 2 ^ 32 }
    {
        let last = self.scan(self.count - 1);
        last.trailer()
    }

    /// How many segments all scans have.
    #[inline(never)]
    pub fn segments(&self) -> u8
        ensures count { result ≡ segment_count self.now }
        ensures few { result ≤ most_segments }
    {
        let mut count = 0;
        for scan in 0..self.count {
            count += self.scan(scan).segments();
        }
        count
    }
}
