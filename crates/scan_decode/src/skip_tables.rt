// What twelve bits skip of a scan's components, for all that read it at the same time.
ghost use Rattle.std.specs.Prelude.{◌≡◌, map};
ghost use Rattle.huff_table.specs.ComponentTables.{codes_of};
ghost use Rattle.scan_spec.specs.Slots.{shape_of};
ghost use Rattle.scan_decode.specs.SkipWords.{AreSkipSlots};

use crate::skip::make_skips;
use crate::skip_word::SkipWord;
use huff_table::PlanCodes;
use jpeg_marker::Plan;
use scan_spec::ScanShape;
use std::alloc::Global;
use std::marker::Model;

/// What twelve bits skip of each component of a scan. If memory is short for a component, those after it have none
/// either, and their symbols are read one by one.
///
/// Clauses see the scan's `Shape`.
#[derive(Drop)]
pub struct SkipTables {
    pub(crate) shape: ScanShape,
    pub(crate) words: Vec<Vec<SkipWord>>,
}

impl Model for SkipTables {
    ghost use Rattle.scan_spec.specs.Slots.{Shape};
    ghost use Rattle.scan_decode.specs.SkipTablesInside.{shape_in, AreSkipTables};

    ghost Value = { Shape };

    ghost view = { shape_in };

    ghost invariant = { AreSkipTables };
}

impl SkipTables {
    /// Those of the scan of a plan.
    pub fn of(alloc: Global, plan: &Plan, codes: PlanCodes) -> SkipTables
        requires { codes ≡ codes_of plan.now.components }
        ensures { result ≡ shape_of plan.now }
    {
        let shape = ScanShape::of(plan, codes);
        let words = words_of_shape(alloc, &shape);
        SkipTables { shape, words }
    }
}

fn words_of_shape(alloc: Global, shape: &ScanShape) -> Vec<Vec<SkipWord>>
    ensures { AreSkipSlots shape.now.slots (map (λ v. v.items) result.items) }
{
    let mut words = Vec::new(alloc);
    let (codes, slots) = shape.slots();
    make_skips(&mut words, codes, slots);
    words
}
