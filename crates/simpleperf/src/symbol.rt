// The symbols of a file.
ghost use Rattle.simpleperf.specs.Tables.{Symbol, symbol_in};

use crate::list::{ItemList, Listed};
use crate::reader::Reader;
use wire::refusal::Refusal;

// A symbol. Its name lies in the section.
#[derive(Clone, Copy, PartialEq, Eq)]
pub struct SimpleperfSymbol<'a> {
    pub vaddr: u64,
    pub len: u32,
    pub name: &'a str,
}

// A list of symbols is a list of these.
#[derive(Clone, Copy)]
pub struct Symbols;

// Symbols, one after another.
pub type SymbolList<'a> = ItemList<'a, Symbols>;

impl<'a> Listed<'a> for Symbols {
    ghost use Rattle.simpleperf.specs.Answers.{symbol_of};

    type Item = SimpleperfSymbol<'a>;

    ghost Value = { Symbol };

    ghost value = { symbol_of };

    ghost reading = { symbol_in };

    fn read(reader: &mut Reader<'a>) -> Result<SimpleperfSymbol<'a>, Refusal> {
        let vaddr = reader.u64()?;
        let len = reader.u32()?;
        let name = reader.text()?;
        Ok(SimpleperfSymbol { vaddr, len, name })
    }
}
