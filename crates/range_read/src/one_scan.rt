// A container of one scan, which alone is indexed and read by ranges.
ghost use Rattle.std.specs.Prelude.{◌≡◌, true, [], ◌∷◌, IfOk, IsErrOf};
ghost use Rattle.box_format.specs.Checks.{IsRefusedBy};
ghost use Rattle.box_format.specs.Single.{IsBoxOf};
ghost use Rattle.box_format.specs.Versions.{IsRead, are_single};
ghost use Rattle.box_format.specs.declared.refusal.BoxRefusal.{BoxRefusal};

use box_format::{BoxView, FileView, ReadError, Version, read_container_of};
use std::alloc::Global;
use std::marker::Model;

/// A container of one scan that was read. Clauses see the header's plan and the parts.
#[derive(Drop)]
pub(crate) struct OneScan<'a> {
    file: FileView<'a>,
    view: BoxView<'a>,
}

impl<'a> Model for OneScan<'a> {
    ghost use Rattle.std.specs.Prelude.{◌≡◌, [], ◌∷◌};
    ghost use Rattle.box_format.specs.Parts.{BoxSeen};

    ghost Value = { BoxSeen };

    ghost view = { λ s. s.view };

    ghost invariant = { λ s. s.file ≡ s.view ∷ [] };
}

impl<'a> OneScan<'a> {
    /// Reads a container of one of these versions, which have one scan each: 31 is the refusal of the others.
    #[inline(never)]
    pub(crate) fn read(
        alloc: Global,
        bytes: &'a [u8],
        versions: &[Version],
    ) -> Result<OneScan<'a>, ReadError>
        requires { are_single versions.now ≡ true }
        ensures taken { IfOk result (λ scan. IsBoxOf scan.plan scan.parts bytes.now) }
        ensures version { IfOk result (λ scan. IsRead versions.now scan.parts.version) }
        ensures refused { (refusal : BoxRefusal) → IsErrOf result (ReadError.Box refusal)
            → IsRefusedBy versions.now bytes.now refusal }
    {
        let file = match read_container_of(alloc, bytes, versions) {
            Ok(file) => file,
            Err(error) => return Err(error),
        };
        let view = file.scan(0);
        Ok(OneScan { file, view })
    }

    /// Its parts.
    pub(crate) fn view(&self) -> &BoxView<'a>
        ensures { result.now ≡ self.now }
    {
        &self.view
    }

    /// The container, as one that may have several scans.
    pub(crate) fn file(&self) -> &FileView<'a>
        ensures { result.now ≡ self.now ∷ [] }
    {
        &self.file
    }
}
