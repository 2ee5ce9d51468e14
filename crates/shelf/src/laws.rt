// What the definitions say, in other words.
ghost use Rattle.shelf.specs.Strips.{EveryByte};
ghost use Rattle.shelf.specs.Calls.{FindsFree, NoneFits};

// What is said of a shelf's contents is said of every byte. The place for a new group is free, and there is one whenever a
// strip is free. On a shelf without strips no head fits.
pub fn definitions_stand()
    ensures bytes { EveryByte }
    ensures free { FindsFree }
    ensures without { NoneFits }
{}
