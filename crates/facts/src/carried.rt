// The features that a head carries.
ghost use Rattle.std.specs.Prelude.{◌≡◌};
ghost use Rattle.facts.specs.Facts.{number as number_of};
ghost use Rattle.facts.specs.Head.{carried};
ghost use Rattle.facts.specs.Tables.{tabled_as};

// A feature that a head carries; its number is that of its section.
#[derive(Clone, Copy, PartialEq, Eq, Debug)]
pub enum Carried {
    BuildId = 2,
    Hostname = 3,
    OsRelease = 4,
    Version = 5,
    Arch = 6,
    NrCpus = 7,
    CpuDesc = 8,
    CpuId = 9,
    TotalMem = 10,
    CmdLine = 11,
    PmuMappings = 16,
    Stat = 19,
    ClockId = 23,
    SimpleperfFile = 128,
    SimpleperfMetaInfo = 129,
}

// A carried feature whose fact is a table, which is made in lent rows.
#[derive(Clone, Copy, PartialEq, Eq, Debug)]
pub enum Tabled {
    BuildIds,
    PmuNames,
    MetaInfo,
}

impl Carried {
    // All of them, by rising numbers.
    // A function, since a constant has no clause to say which they are.
    pub fn all() -> [Carried; 15]
        ensures { result ≡ carried }
    {
        [
            Carried::BuildId,
            Carried::Hostname,
            Carried::OsRelease,
            Carried::Version,
            Carried::Arch,
            Carried::NrCpus,
            Carried::CpuDesc,
            Carried::CpuId,
            Carried::TotalMem,
            Carried::CmdLine,
            Carried::PmuMappings,
            Carried::Stat,
            Carried::ClockId,
            Carried::SimpleperfFile,
            Carried::SimpleperfMetaInfo,
        ]
    }

    // The table that the feature's fact is, if it is one.
    pub fn table(self) -> Option<Tabled>
        ensures { result ≡ tabled_as self }
    {
        match self {
            Carried::BuildId => Some(Tabled::BuildIds),
            Carried::PmuMappings => Some(Tabled::PmuNames),
            Carried::SimpleperfMetaInfo => Some(Tabled::MetaInfo),
            _ => None,
        }
    }
}

// The feature's number, of the two bytes that a head has for it.
impl From<Carried> for u16 {
    ghost from_gives = { λ feature number. number ≡ number_of feature };

    fn from(feature: Carried) -> u16 {
        feature as u16
    }
}

// The same, of the four bytes that a store is asked by.
impl From<Carried> for u32 {
    ghost from_gives = { λ feature number. number ≡ number_of feature };

    fn from(feature: Carried) -> u32 {
        u32::from(u16::from(feature))
    }
}
