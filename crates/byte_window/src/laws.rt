// What holds of all windows, slices and covers, and the definitions computed on worked ones.
ghost use Rattle.byte_window.specs.WindowLaws.{AllPasses, ComesInPieces, StepsAdd, StepOfNothing, IsCounted, IsPrefix};
ghost use Rattle.byte_window.specs.SliceLaws.{SliceOfParts, SliceIsWindow, SlicesJoin, CoverIsExact, MostIsCounted};
ghost use Rattle.byte_window.specs.PartedFiles.{IsPlaced};
ghost use Rattle.byte_window.specs.PartedLaws.{BegunAreFirstToLast, BytesAreEnough, ChunksAreTheFile, ListIsPlaced, MostIsLeft, NoneIsBegun, OthersAreEmpty, OthersAreUnread, PartsAreInFile, RangesJoin, SliceOfFile};
ghost use Rattle.byte_window.specs.PartedRows.{kept_places, on_the_seam, restart_on_the_seam, segments_without_a_byte};
ghost use Rattle.byte_window.specs.WindowRows.{worked_windows, worked_covers};

/// A window on pieces, one after another, lets through what it lets through of the whole.
pub fn windows_come_in_pieces()
    ensures all { AllPasses }
    ensures pieces { ComesInPieces }
    ensures steps { StepsAdd }
    ensures nothing { StepOfNothing }
    ensures count { IsCounted }
    ensures prefix { IsPrefix }
{}

/// A slice of a list is a window on a longer one, slices one after another are one slice, and a cover is from the first
/// to the last part that is met.
pub fn slices_are_windows()
    ensures parts { SliceOfParts }
    ensures window { SliceIsWindow }
    ensures joined { SlicesJoin }
    ensures cover { CoverIsExact }
    ensures most { MostIsCounted }
{}

/// A slice of a file in parts is its part of the header, a window on the bytes of the parts with a place in it, and its
/// part of the trailer; the parts have enough bytes for it. Slices one after another are one slice, and chunks are the
/// file.
pub fn slices_of_files()
    ensures slice { SliceOfFile }
    ensures enough { BytesAreEnough }
    ensures left { MostIsLeft }
    ensures joined { RangesJoin }
    ensures list { ListIsPlaced }
    ensures chunks { ChunksAreTheFile }
{}

/// A slice begins the parts from the first to the last with a place in it, and the other parts' bytes change nothing.
/// If one that it begins has no place in the slice, that one has no byte.
pub fn parts_are_first_to_last()
    ensures within { PartsAreInFile }
    ensures some { BegunAreFirstToLast }
    ensures none { NoneIsBegun }
    ensures empty { OthersAreEmpty }
    ensures unread { OthersAreUnread }
{}

/// The definitions computed on worked lists.
pub fn rows_of_windows()
    ensures windows { worked_windows }
    ensures covers { worked_covers }
{}

/// The definitions computed on worked files in parts.
pub fn rows_of_parts()
    ensures placed { IsPlaced on_the_seam }
    ensures seam { restart_on_the_seam }
    ensures empty { segments_without_a_byte }
    ensures kept { kept_places }
{}
