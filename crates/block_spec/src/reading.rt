// What holds of the blocks that bytes give.
ghost use Rattle.block_spec.specs.ReadingLaws.{ReadIsGiven, GivenIsRead, BlocksAreGiven, GivenBlocksAreRead, FaultIsRead, FaultIsGiven};

/// What is read of bytes is what they give: a block's events, or those of a fault.
pub fn blocks_are_given()
    ensures block { ReadIsGiven }
    ensures blocks { BlocksAreGiven }
    ensures fault { FaultIsGiven }
{}

/// What bytes give is read: one block, one list of blocks, or one fault.
pub fn given_blocks_are_read()
    ensures block { GivenIsRead }
    ensures blocks { GivenBlocksAreRead }
    ensures fault { FaultIsRead }
{}
