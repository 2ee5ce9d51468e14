// A store of one section: for programs that read the sections of one feature, and a kind of store of its own.
#![tactic(auto)]

ghost use Rattle.std.specs.Prelude.{◌≡◌};
ghost use Rattle.image.specs.Ask.{in_order, answer};
ghost use Rattle.section_store.specs.Sections.{features_in, features_of, LacksAll, section_of};

use image::ask::{Section, section_of};
use image::index::FEATURES;
use image::section::LONGEST;
use image::store::Store;
use wire::order::ByteOrder;
use wire::refusal::NO_FEATURE;

// A byte order, and the bytes of one feature.
#[derive(Clone, Copy)]
pub struct SectionStore<'a> {
    order: ByteOrder,
    feature: u32,
    bytes: &'a [u8],
}

impl<'a> SectionStore<'a> {
    // A store whose one section is that of a feature. It has none where the feature is above 255 or the bytes are too many.
    pub fn new(order: ByteOrder, feature: u32, bytes: &'a [u8]) -> SectionStore<'a>
        ensures order { result.order ≡ order }
        ensures sections { features_of result ≡ features_in feature bytes.now }
    {
        SectionStore {
            order,
            feature,
            bytes,
        }
    }

    // A store that lacks every section: its number is one that no section has.
    pub fn absent(order: ByteOrder) -> SectionStore<'a>
        ensures order { result.order ≡ order }
        ensures sections { LacksAll (features_of result) }
    {
        SectionStore {
            order,
            feature: NO_FEATURE,
            bytes: &[],
        }
    }
}

impl<'a> Store<'a> for SectionStore<'a> {
    ghost endian = { λ s. s.order };

    ghost map = { features_of };

    fn order(&self) -> ByteOrder {
        self.order
    }

    fn section(&self, number: u32) -> Option<&'a [u8]> {
        if number as usize >= FEATURES || number != self.feature || self.bytes.len() > LONGEST {
            return None;
        }
        Some(self.bytes)
    }
}

// What a store of these bytes answers for a number, through the code that every kind of store is asked by.
pub fn section_in(order: ByteOrder, feature: u32, bytes: &[u8], number: u32) -> Option<Section<'_>>
    ensures { answer result ≡ in_order order (section_of feature bytes.now number) }
{
    section_of(&SectionStore::new(order, feature, bytes), number)
}
