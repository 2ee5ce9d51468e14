// What the definitions say, in other words: the law of splitting, and what some sections mean.
ghost use Rattle.mappings.specs.Laws.{Splits, EmptySection, LoneNul, LonePiece, KeyFirst, SkippedName, CutLength};

// The pieces of a section have no NUL, and with a NUL between each two they are the section again.
pub fn pieces_stand()
    ensures { Splits }
{}

// What some sections mean.
pub fn examples_stand()
    ensures empty { EmptySection }
    ensures nul { LoneNul }
    ensures lone { LonePiece }
    ensures key { KeyFirst }
    ensures skipped { SkippedName }
    ensures cut { CutLength }
{}
