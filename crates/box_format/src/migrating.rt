// From a container to the same one in version 2.
ghost use Rattle.std.specs.Prelude.{◌≡◌, IfOk, IsErrOf};
ghost use Rattle.jpeg_marker.specs.Plans.{PlanFields};
ghost use Rattle.box_format.specs.Checks.{IsRefusedBy};
ghost use Rattle.box_format.specs.Parts.{BoxParts, migrated};
ghost use Rattle.box_format.specs.Single.{IsBoxOf, box_bytes};
ghost use Rattle.box_format.specs.Versions.{IsRead, migratable};
ghost use Rattle.box_format.specs.declared.refusal.BoxRefusal.{BoxRefusal};

use crate::converting::write_in;
use crate::error::ReadError;
use crate::reading::read_box_of;
use crate::refusal::Migrate;
use crate::version::{MIGRATABLE, Version};
use std::alloc::Global;

/// The same container in version 2: of version 1, with the byte of the version changed and a pad list of no bytes; of
/// version 2, itself. It stands for the same; what its streams stand for isn't looked at.
#[inline(never)]
pub fn migrate(alloc: Global, bytes: &[u8]) -> Result<Vec<u8>, Migrate>
    ensures made { IfOk result (λ made. (plan : PlanFields) × (b : BoxParts)
        × IsBoxOf plan b bytes.now × IsRead migratable b.version
        × (made.items ≡ box_bytes (migrated b))) }
    ensures refused { (refusal : BoxRefusal) → IsErrOf result (Migrate.Box refusal)
        → IsRefusedBy migratable bytes.now refusal }
{
    let view = match read_box_of(alloc, bytes, &MIGRATABLE) {
        Ok(view) => view,
        Err(ReadError::Box(refusal)) => return Err(Migrate::Box(refusal)),
        Err(ReadError::NoMemory(short)) => return Err(Migrate::NoMemory(short)),
    };
    Ok(write_in(alloc, Version::Second, &view, None)?)
}
