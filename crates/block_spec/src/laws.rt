// What holds of the definitions.
ghost use Rattle.std.specs.Prelude.{suc, ◌*◌, ◌≡◌, ◌<◌, ◌≤◌, ◌++◌, ◌∷◌, [], ℕ, ℤ, List, Bool, Result, length};
ghost use Rattle.coef_block.specs.Block.{IsBlock, IsDc};
ghost use Rattle.coef_block.specs.BlockRows.{BlockRows, AreCleared, block_count, stored, next_row};
ghost use Rattle.std.specs.List.{AllByRecursion};
ghost use Rattle.bool_coder.specs.BoolReading.{IsReading};
ghost use Rattle.bool_coder.specs.BoolStream.{IsBool};
ghost use Rattle.adapt_bins.specs.Events.{bools_of};
ghost use Rattle.block_spec.specs.declared.fault.BlockFault.{BlockFault};
ghost use Rattle.block_spec.specs.Around.{Around, AreAround, prediction};
ghost use Rattle.block_spec.specs.EventsApart.{OneOrApart};
ghost use Rattle.block_spec.specs.ReadBlocks.{IsRead};
ghost use Rattle.block_spec.specs.BlockEvents.{block_events, most_events, IsBin};
ghost use Rattle.block_spec.specs.Grid.{Grid, Cell, IsGrid, IsCell, index_of, cell_at};
ghost use Rattle.block_spec.specs.SegmentEvents.{segment_events, next_events, around_in};
ghost use Rattle.block_spec.specs.HeldRows.{FitsGrid, HoldBlocks, kept_around};

/// The prediction of a DC is a DC.
pub fn predictions_are_in_range()
    ensures { (around : Around) → AreAround around → IsDc (prediction around) }
{}

/// Two blocks are one, or their events differ at a bit.
pub fn one_block()
    ensures { (class : ℕ) (around : Around) (a b : List ℤ)
        → IsBlock a → IsBlock b → AreAround around
        → OneOrApart a b (block_events class around a) (block_events class around b) }
{}

/// Bytes give one answer after earlier events: one block, or one fault.
pub fn one_answer()
    ensures { (bytes : List ℕ) (earlier : List (ℕ × Bool)) (class : ℕ) (around : Around)
        (r s : Result (List ℤ) BlockFault) → AreAround around
        → IsRead (λ events. IsReading bytes (bools_of (earlier ++ events))) class around r
        → IsRead (λ events. IsReading bytes (bools_of (earlier ++ events))) class around s
        → r ≡ s }
{}

/// The blocks of a list have cells, each its own.
pub fn cells_of_blocks()
    ensures index { (g : Grid) (n : ℕ) → IsGrid g → index_of g (cell_at g n) ≡ n }
    ensures cell { (g : Grid) (p : Cell) → IsGrid g → IsCell g p → cell_at g (index_of g p) ≡ p }
{}

/// A block more adds its events, looked up among the blocks before it.
pub fn a_block_more()
    ensures { (g : Grid) (blocks : List (List ℤ)) (b : List ℤ) → IsGrid g
        → segment_events g (blocks ++ b ∷ [])
        ≡ segment_events g blocks ++ next_events g blocks b }
{}

/// One MCU row and the corners have the neighbours that the whole list has, block after block.
pub fn one_row_is_enough()
    ensures around { (rows : BlockRows) (g : Grid) (blocks : List (List ℤ)) (p : Cell)
        → IsCell g p → index_of g p ≡ length blocks → HoldBlocks rows g blocks p.mcu_row
        → kept_around rows p.component p.row p.column ≡ around_in g blocks p }
    ensures stored { (rows : BlockRows) (g : Grid) (blocks : List (List ℤ)) (p : Cell) (b : List ℤ)
        → IsCell g p → index_of g p ≡ length blocks → HoldBlocks rows g blocks p.mcu_row
        → HoldBlocks (stored rows p.component p.row p.column b) g (blocks ++ b ∷ []) p.mcu_row }
    ensures cleared { (rows : BlockRows) (g : Grid)
        → FitsGrid rows.extents g → AreCleared rows → HoldBlocks rows g [] 0 }
    ensures next_row { (rows : BlockRows) (g : Grid) (blocks : List (List ℤ)) (r : ℕ)
        → length blocks ≡ suc r * g.across * block_count g.mcu
        → HoldBlocks rows g blocks r → HoldBlocks (next_row rows) g blocks (suc r) }
{}

/// Bytes give one list of blocks of a length.
pub fn one_segment()
    ensures { (g : Grid) (bytes : List ℕ) (a b : List (List ℤ)) → IsGrid g
        → AllByRecursion IsBlock a → AllByRecursion IsBlock b → length a ≡ length b
        → IsReading bytes (bools_of (segment_events g a))
        → IsReading bytes (bools_of (segment_events g b)) → a ≡ b }
{}

/// Each bool of events has a probability from 1 to 255.
pub fn probs_are_bools()
    ensures { (events : List (ℕ × Bool)) → AllByRecursion IsBool (bools_of events) }
{}

/// A block has few events, and each is in one of the bins.
pub fn events_are_few()
    ensures block { (class : ℕ) (around : Around) (b : List ℤ) → IsBlock b → AreAround around
        → length (block_events class around b) ≤ most_events }
    ensures segment { (g : Grid) (blocks : List (List ℤ)) → AllByRecursion IsBlock blocks
        → length (segment_events g blocks) ≤ most_events * length blocks }
    ensures block_bins { (class : ℕ) (around : Around) (b : List ℤ)
        → class < 2 → IsBlock b → AreAround around
        → AllByRecursion (λ event. IsBin event.0) (block_events class around b) }
    ensures segment_bins { (g : Grid) (blocks : List (List ℤ)) → AllByRecursion IsBlock blocks
        → AllByRecursion (λ event. IsBin event.0) (segment_events g blocks) }
{}
