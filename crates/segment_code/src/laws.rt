// What holds of a segment in pieces.
ghost use Rattle.segment_code.specs.PieceLaws.{PieceIsPrefix, NextPieceIsPrefix, PieceHasAnMcu};
ghost use Rattle.segment_code.specs.PieceRows.{pieces_are_made};

/// However a segment is cut into pieces, they are its bytes, and fewer MCUs are left after each.
pub fn segments_come_in_pieces()
    ensures prefix { PieceIsPrefix }
    ensures next { NextPieceIsPrefix }
    ensures fewer { PieceHasAnMcu }
{}

/// Worked pieces: one with all there is, one without room for an MCU, and none of a stream that has no start.
pub fn rows_of_pieces()
    ensures { pieces_are_made }
{}
