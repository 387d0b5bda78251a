// From bytes to the scans of a container.
ghost use Rattle.std.specs.Prelude.{◌≡◌, true, IfOk, IsErrOf, List};
ghost use Rattle.box_format.specs.Versions.{are_single, one_scan, version_in, IsRead};
ghost use Rattle.box_format.specs.Parts.{BoxSeen};
ghost use Rattle.box_format.specs.Containers.{IsContainer, segment_count};
ghost use Rattle.box_format.specs.Single.{IsBoxOf, IsOne};
ghost use Rattle.box_format.specs.Checks.{IsRefused, IsRefusedBy};
ghost use Rattle.box_format.specs.declared.refusal.BoxRefusal.{BoxRefusal};

use crate::checks::{early_fault, late_fault, segments_in};
use crate::error::ReadError;
use crate::fields::{scans_in, version_in};
use crate::files::FileView;
use crate::headers::read_plans;
use crate::refusal::BoxRefusal;
use crate::version::{DECODED, ONE_SCAN, Version};
use crate::view::BoxView;
use std::alloc::Global;

/// Reads a container of any version: its scans, or the refusal of the first check that fails. It allocates four plans,
/// 19 KB, and sums of lengths don't overflow, whatever the fields say.
#[inline(never)]
pub fn read_container(alloc: Global, bytes: &[u8]) -> Result<FileView<'_>, ReadError>
    ensures taken { IfOk result (λ scans. IsContainer scans bytes.now) }
    ensures refused { (refusal : BoxRefusal) → IsErrOf result (ReadError.Box refusal)
        → IsRefused bytes.now refusal }
{
    read_container_of(alloc, bytes, &DECODED)
}

/// Reads a container of one of these versions: 31 is the refusal of the others. If they have one scan each, so has the
/// container.
#[inline(never)]
pub fn read_container_of<'a>(
    alloc: Global,
    bytes: &'a [u8],
    versions: &[Version],
) -> Result<FileView<'a>, ReadError>
    ensures taken { IfOk result (λ scans. IsContainer scans bytes.now) }
    ensures version { IfOk result (λ scans. IsRead versions.now (version_in bytes.now)) }
    ensures one { are_single versions.now ≡ true
        → IfOk result (λ scans. IsOne versions.now scans bytes.now) }
    ensures refused { (refusal : BoxRefusal) → IsErrOf result (ReadError.Box refusal)
        → IsRefusedBy versions.now bytes.now refusal }
{
    let version = version_in(bytes);
    if let Some(refusal) = early_fault(versions, version, bytes) {
        return Err(ReadError::Box(refusal));
    }
    if scans_in(version, bytes) == 0 {
        return Err(ReadError::Box(BoxRefusal::BoxSegments));
    }
    let plans = read_plans(alloc, version, bytes)?;
    if let Some(refusal) = late_fault(version, bytes, plans.as_slice()) {
        return Err(ReadError::Box(refusal));
    }
    Ok(FileView::of_plans(version, bytes, plans))
}

/// Reads a container of one scan: of version 1, 2, 3 or 5.
#[inline(never)]
pub fn read_box(alloc: Global, bytes: &[u8]) -> Result<BoxView<'_>, ReadError>
    ensures taken { IfOk result (λ view. IsBoxOf view.plan view.parts bytes.now) }
    ensures refused { (refusal : BoxRefusal) → IsErrOf result (ReadError.Box refusal)
        → IsRefusedBy one_scan bytes.now refusal }
{
    read_box_of(alloc, bytes, &ONE_SCAN)
}

/// Reads a container of one of these versions, which have one scan each: 31 is the refusal of the others.
#[inline(never)]
pub(crate) fn read_box_of<'a>(
    alloc: Global,
    bytes: &'a [u8],
    versions: &[Version],
) -> Result<BoxView<'a>, ReadError>
    requires { are_single versions.now ≡ true }
    ensures taken { IfOk result (λ view. IsBoxOf view.plan view.parts bytes.now) }
    ensures version { IfOk result (λ view. IsRead versions.now view.parts.version) }
    ensures refused { (refusal : BoxRefusal) → IsErrOf result (ReadError.Box refusal)
        → IsRefusedBy versions.now bytes.now refusal }
{
    match read_container_of(alloc, bytes, versions) {
        Ok(file) => Ok(file.scan(0)),
        Err(error) => Err(error),
    }
}

/// How many segments the fields of a container name, which is how many it has. Bytes that are no container may name
/// any number.
pub fn segments_named(bytes: &[u8]) -> usize
    ensures { (scans : List BoxSeen) → IsContainer scans bytes.now → result ≡ segment_count scans }
{
    segments_in(version_in(bytes), bytes)
}
