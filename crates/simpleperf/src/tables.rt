// The symbol tables of a recording: records of files, each with its length before it.
ghost use Rattle.std.specs.Prelude.{◌≡◌};
ghost use Rattle.perf_data.specs.Texts.{first_fault, fault_in};
ghost use Rattle.simpleperf.specs.Answers.{tables_of};
ghost use Rattle.simpleperf.specs.Parse.{run};
ghost use Rattle.simpleperf.specs.Tables.{File, sized_file, symbol_tables};

use crate::file::{SimpleperfFileRecord, read_file};
use crate::list::{ItemList, Listed};
use crate::reader::Reader;
use image::ask::Section;
use perf_data::features::Feature;
use std::marker::PhantomData;
use wire::order::tail;
use wire::refusal::Refusal;

// A list of files is a list of these.
#[derive(Clone, Copy)]
pub struct Files;

// The files of a recording, one after another.
pub type SymbolTables<'a> = ItemList<'a, Files>;

// What follows a record starts where its length says.
impl<'a> Listed<'a> for Files {
    ghost use Rattle.simpleperf.specs.Answers.{file_of};

    type Item = SimpleperfFileRecord<'a>;

    ghost Value = { File };

    ghost value = { file_of };

    ghost reading = { sized_file };

    fn read(reader: &mut Reader<'a>) -> Result<SimpleperfFileRecord<'a>, Refusal> {
        let order = reader.order;
        let at = reader.offset();
        let size = order.u32(reader.rest).ok_or(Refusal::CutShort {
            feature: Feature::SIMPLEPERF_FILE.0,
            at,
        })?;
        let (rest, after) = tail(reader.rest, 4)
            .split_at_checked(size as usize)
            .ok_or(Refusal::RecordOutside { at })?;
        let mut record = Reader { order, size, rest };
        let file = read_file(&mut record)?;
        reader.rest = after;
        Ok(file)
    }
}

// Looks at all records of a section: the first fault, if there is one.
fn check_files(mut reader: Reader<'_>) -> Result<(), Refusal>
    ensures { fault_in result ≡ first_fault (run (sized_file reader.entry.order reader.entry.size) reader.entry.rest.now) }
{
    // `SymbolTables` itself stops at a fault and does not tell which.
    while !reader.rest.is_empty() {
        Files::read(&mut reader)?;
    }
    Ok(())
}

// The files of a section, all of them looked at. There are at most as many as it has bytes.
pub(crate) fn read_tables(section: Section<'_>) -> Result<SymbolTables<'_>, Refusal>
    ensures { tables_of result ≡ symbol_tables section.entry.order section.entry.bytes.now }
{
    let size = section.bytes.len() as u32;
    let reader = Reader {
        order: section.order,
        size,
        rest: section.bytes,
    };
    check_files(reader)?;
    Ok(ItemList {
        reader,
        left: size,
        of: PhantomData,
    })
}
