// Worked rows of the definitions.
ghost use Rattle.std.specs.Prelude.{◌≡◌, ◌∷◌, [], None, Ok, Err, pos, take};
ghost use Rattle.coef_block.specs.BlockRows.{no_block};
ghost use Rattle.block_spec.specs.Around.{inner_mean, inner_weight, edge_weight};
ghost use Rattle.block_spec.specs.WorkedSegments.{three_around, one_wide, sampled, an_inner_coefficient, zeros_of, bits_of, inner_bits, probs, probs_of_two_blocks, probs_of_six_blocks, stream_of};
ghost use Rattle.block_spec.specs.declared.fault.BlockFault.TheVariants.{BlockCount, DcRange};
ghost use Rattle.block_spec.specs.RandomSegment.{two_wide, random_blocks, random_stream};
ghost use Rattle.block_spec.specs.SegmentEvents.{segment_events};
ghost use Rattle.block_spec.specs.BlockReading.{block_read, blocks_read};
ghost use Rattle.block_spec.specs.ReadingRows.{one_across, dc_alone, zeros_stream, dc_one_stream, dc_large_stream, dc_outside_stream, ones_stream};

/// What each neighbour weighs; neighbours with magnitude 1, of which three make a whole and two do not.
pub fn rows_of_weights()
    ensures above { inner_mean 32 0 0 ≡ 13 }
    ensures left { inner_mean 0 32 0 ≡ 13 }
    ensures diagonal { inner_mean 0 0 32 ≡ 6 }
    ensures inner { inner_weight three_around 9 ≡ 1 }
    ensures inner_of_two { inner_weight (record three_around { diagonal = None }) 9 ≡ 0 }
    ensures edge { edge_weight three_around 9 ≡ 1 }
    ensures edge_of_one { edge_weight (record three_around { left = None }) 9 ≡ 0 }
{}

/// Segments of one inner coefficient, of two blocks of zeros, and of an MCU of zeros with three components, 4:2:0.
pub fn rows_of_events()
    ensures inner_bits { bits_of (segment_events one_wide (an_inner_coefficient ∷ []))
        ≡ inner_bits }
    ensures inner_stream { stream_of one_wide (an_inner_coefficient ∷ []) ≡ 0x06 ∷ 0x80 ∷ 0 ∷ [] }
    ensures two_probs { probs one_wide (zeros_of 2) ≡ probs_of_two_blocks }
    ensures two_stream { stream_of one_wide (zeros_of 2) ≡ 0 ∷ 0 ∷ 0 ∷ 0 ∷ [] }
    ensures six_probs { probs sampled (zeros_of 6) ≡ probs_of_six_blocks }
    ensures six_stream { stream_of sampled (zeros_of 6)
        ≡ 0 ∷ 0 ∷ 0 ∷ 0 ∷ 0 ∷ 0 ∷ 0 ∷ 0 ∷ [] }
{}

/// Random blocks of two MCU rows, 4:2:0, have the stream that an independent program made.
pub fn random_segment()
    ensures { stream_of two_wide random_blocks ≡ random_stream }
{}

/// Streams worked by hand, and the one that an independent program made of 24 random blocks: the first four computed,
/// all of them by the laws.
pub fn rows_of_reading()
    ensures zeros { block_read one_across zeros_stream [] ≡ Ok no_block }
    ensures two_zeros { blocks_read one_wide (0 ∷ 0 ∷ 0 ∷ 0 ∷ []) [] 2 ≡ Ok (zeros_of 2) }
    ensures inner { block_read one_across (0x06 ∷ 0x80 ∷ 0 ∷ []) [] ≡ Ok an_inner_coefficient }
    ensures dc_of_one { block_read one_across dc_one_stream [] ≡ Ok (dc_alone (pos 1)) }
    ensures large_dc { block_read one_across dc_large_stream [] ≡ Ok (dc_alone (pos 2048)) }
    ensures no_dc { block_read one_across dc_outside_stream [] ≡ Err DcRange }
    ensures no_count { block_read one_across ones_stream [] ≡ Err BlockCount }
    ensures first_random { blocks_read two_wide random_stream [] 4 ≡ Ok (take 4 random_blocks) }
    ensures random { blocks_read two_wide random_stream [] 24 ≡ Ok random_blocks }
{}
