// The record of a file.
ghost use Rattle.std.specs.Prelude.{◌≡◌};
ghost use Rattle.simpleperf.specs.Got.{got_of};
ghost use Rattle.simpleperf.specs.Answers.{file_of};
ghost use Rattle.simpleperf.specs.Reading.{SameRecord};
ghost use Rattle.simpleperf.specs.Types.{type_number};
ghost use Rattle.simpleperf.specs.Tables.{type_in, file_in};

use crate::info::{SimpleperfTypeSpecificInfo, read_info};
use crate::list::read_counted;
use crate::reader::Reader;
use crate::symbol::SymbolList;
use crate::types::DsoType;
use wire::refusal::Refusal;

// A file that the recording saw, with its symbols. All of it lies in the section.
#[derive(Clone, Copy)]
pub struct SimpleperfFileRecord<'a> {
    pub path: &'a str,
    pub file_type: DsoType,
    pub min_vaddr: u64,
    pub symbol: SymbolList<'a>,
    pub type_specific_msg: Option<SimpleperfTypeSpecificInfo<'a>>,
}

fn read_type(reader: &mut Reader<'_>) -> Result<DsoType, Refusal>
    ensures reads { got_of type_number result reader.new.rest.now ≡ type_in reader.old.order reader.old.size reader.old.rest.now }
    ensures record { SameRecord reader.old reader.new }
{
    let at = reader.offset();
    let number = reader.u32()?;
    DsoType::try_from(number).or(Err(Refusal::UnknownFileType { at }))
}

// The record that the reader has, all of it looked at. What follows its tail is left.
pub(crate) fn read_file<'a>(reader: &mut Reader<'a>) -> Result<SimpleperfFileRecord<'a>, Refusal>
    ensures { got_of file_of result reader.new.rest.now ≡ file_in reader.old.order reader.old.size reader.old.rest.now }
{
    let path = reader.text()?;
    let file_type = read_type(reader)?;
    let min_vaddr = reader.u64()?;
    let symbol = read_counted(reader)?;
    let type_specific_msg = read_info(reader, file_type)?;
    Ok(SimpleperfFileRecord {
        path,
        file_type,
        min_vaddr,
        symbol,
        type_specific_msg,
    })
}
