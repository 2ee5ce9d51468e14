// Why a call is turned down. Every case has a number, and the place of what failed: the layer that it lies in, the
// feature that it belongs to, and its offset within the bytes of that layer. The definition `fault_of` gives all four.
ghost use Rattle.std.specs.Prelude.{◌≡◌, Some};
ghost use Rattle.wire.specs.Faults.{fault, fault_of};

use std::error::Error;
use std::fmt;

// The number of a feature where none is meant: one above the last that an image can have.
pub const NO_FEATURE: u32 = 256;

// The features that a case is always of: the command line, the clock data, the symbol records and the symbol tables of
// the second format.
const CMDLINE: u32 = 11;

const CLOCK_DATA: u32 = 29;

const SYMBOLS: u32 = 128;

const SECOND_SYMBOLS: u32 = 132;

// What an offset counts from.
#[derive(Clone, Copy, PartialEq, Eq, Debug)]
pub enum Layer {
    // the start of the image
    Image = 1,
    // the start of the feature section
    Section = 2,
    // the start of the symbol record, after its length
    SymbolRecord = 3,
    // nothing: the call's own state or memory did not allow it
    State = 4,
}

// A refusal's number, and the place of what failed.
#[derive(Clone, Copy, PartialEq, Eq, Debug)]
pub struct Fault {
    pub number: u32,
    pub layer: Layer,
    // 256 where no feature is meant
    pub feature: u32,
    pub offset: u32,
}

// Why a call is turned down.
#[derive(Clone, Copy, PartialEq, Eq, Debug)]
pub enum Refusal {
    // 1: an image shorter than the fixed front of its kind
    ImageTooShort,
    // 2: wrong first bytes, a wrong size field or a wrong version
    WrongMark,
    // 3: an image of more than 16,777,216 bytes
    ImageTooLong,
    // 4: the section table of a file image ends past the image
    TableOutside,
    // 4: a section of a file image ends past the image; `at` is its table entry
    SectionOutside { at: u32 },
    // 5: a record of a pipe image is too small, or ends past the image
    BadRecord { at: u32 },
    // 6: a section that is one u64 has fewer than eight bytes
    SectionTooSmall { feature: u32 },
    // 6: a symbol record ends past its section; `at` is its length
    RecordOutside { at: u32 },
    // 7: a header text's length is cut short
    NoTextLength { feature: u32, at: u32 },
    // 8: the count of the command line is cut short
    NoListCount,
    // 9: a header text ends past its section; `at` is where its bytes begin
    TextOutside { feature: u32, at: u32 },
    // 10: a text of a section is ill formed
    IllFormedText { feature: u32, at: u32 },
    // 10: a text of a symbol record is ill formed
    IllFormedSymbolText { at: u32 },
    // 11: any other number of a section is cut short, or the text of a pmu name
    CutShort { feature: u32, at: u32 },
    // 11: a number of a symbol record is cut short
    SymbolRecordCutShort { at: u32 },
    // 12: the version of the clock data is not 1
    WrongClockVersion,
    // 13: a symbol record's file type is above 5
    UnknownFileType { at: u32 },
    // 14: a symbol record counts more symbols or offsets than it has bytes left
    CountTooLarge { at: u32 },
    // 15: a text of a symbol record has no NUL
    NoNul { at: u32 },
    // 16: symbol tables of the second format are there, which a head cannot carry
    SecondFormatPresent,
    // 17: an entry of a head image is not carried, does not rise, or ends past the image
    BadEntry { at: u32 },
    // 31: a table has more keys than rows were handed in
    TooFewRows { feature: u32 },
    // 32: a head or a name is longer than the room for it
    TooLittleRoom,
    // 33: no strip of the shelf is free
    NoFreeStrip,
    // 34: the group asked for is not held
    GroupNotHeld,
    // 35: the group's count is at its highest
    CountFull,
    // 36: the group numbers are used up
    NumbersUsedUp,
    // 37: a shelf is opened with values out of bounds
    BadOpening,
}

impl Fault {
    fn new(number: u32, layer: Layer, feature: u32, offset: u32) -> Fault
        ensures { result ≡ fault layer number feature offset }
    {
        Fault {
            number,
            layer,
            feature,
            offset,
        }
    }
}

impl Refusal {
    // Its number and place.
    pub fn fault(self) -> Fault
        ensures { result ≡ fault_of self }
    {
        match self {
            Refusal::ImageTooShort => Fault::new(1, Layer::Image, NO_FEATURE, 0),
            Refusal::WrongMark => Fault::new(2, Layer::Image, NO_FEATURE, 0),
            Refusal::ImageTooLong => Fault::new(3, Layer::Image, NO_FEATURE, 0),
            Refusal::TableOutside => Fault::new(4, Layer::Image, NO_FEATURE, 40),
            Refusal::SectionOutside { at } => Fault::new(4, Layer::Image, NO_FEATURE, at),
            Refusal::BadRecord { at } => Fault::new(5, Layer::Image, NO_FEATURE, at),
            Refusal::SectionTooSmall { feature } => Fault::new(6, Layer::Section, feature, 0),
            Refusal::RecordOutside { at } => Fault::new(6, Layer::Section, SYMBOLS, at),
            Refusal::NoTextLength { feature, at } => Fault::new(7, Layer::Section, feature, at),
            Refusal::NoListCount => Fault::new(8, Layer::Section, CMDLINE, 0),
            Refusal::TextOutside { feature, at } => Fault::new(9, Layer::Section, feature, at),
            Refusal::IllFormedText { feature, at } => Fault::new(10, Layer::Section, feature, at),
            Refusal::IllFormedSymbolText { at } => Fault::new(10, Layer::SymbolRecord, SYMBOLS, at),
            Refusal::CutShort { feature, at } => Fault::new(11, Layer::Section, feature, at),
            Refusal::SymbolRecordCutShort { at } => Fault::new(
                11,
                Layer::SymbolRecord,
                SYMBOLS,
                at,
            ),
            Refusal::WrongClockVersion => Fault::new(12, Layer::Section, CLOCK_DATA, 0),
            Refusal::UnknownFileType { at } => Fault::new(13, Layer::SymbolRecord, SYMBOLS, at),
            Refusal::CountTooLarge { at } => Fault::new(14, Layer::SymbolRecord, SYMBOLS, at),
            Refusal::NoNul { at } => Fault::new(15, Layer::SymbolRecord, SYMBOLS, at),
            Refusal::SecondFormatPresent => Fault::new(16, Layer::Section, SECOND_SYMBOLS, 0),
            Refusal::BadEntry { at } => Fault::new(17, Layer::Image, NO_FEATURE, at),
            Refusal::TooFewRows { feature } => Fault::new(31, Layer::State, feature, 0),
            Refusal::TooLittleRoom => Fault::new(32, Layer::State, NO_FEATURE, 0),
            Refusal::NoFreeStrip => Fault::new(33, Layer::State, NO_FEATURE, 0),
            Refusal::GroupNotHeld => Fault::new(34, Layer::State, NO_FEATURE, 0),
            Refusal::CountFull => Fault::new(35, Layer::State, NO_FEATURE, 0),
            Refusal::NumbersUsedUp => Fault::new(36, Layer::State, NO_FEATURE, 0),
            Refusal::BadOpening => Fault::new(37, Layer::State, NO_FEATURE, 0),
        }
    }
}

// A refusal by its number and place, as the programs print it.
impl fmt::Display for Refusal {
    ghost use Rattle.wire.specs.Shown.{refusal_text};

    ghost output = { λ r. Some (refusal_text r) };

    fn fmt<W: fmt::Write>(&self, f: &mut fmt::Formatter<W>) -> fmt::Result {
        let Fault {
            number,
            layer,
            feature,
            offset,
        } = self.fault();
        let layer = layer as u32;
        write!(f, "refused {number} {layer} {feature} {offset}")
    }
}

impl Error for Refusal {}

// A refusal by its number, feature and offset alone.
#[derive(Clone, Copy, PartialEq, Eq, Debug)]
pub struct WithoutLayer(pub Refusal);

impl fmt::Display for WithoutLayer {
    ghost use Rattle.wire.specs.Shown.{short_refusal_text};

    ghost output = { λ w. Some (short_refusal_text w.0) };

    fn fmt<W: fmt::Write>(&self, f: &mut fmt::Formatter<W>) -> fmt::Result {
        let Fault {
            number,
            feature,
            offset,
            ..
        } = self.0.fault();
        write!(f, "refused {number} {feature} {offset}")
    }
}
