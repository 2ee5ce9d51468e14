// What a record says of its file by the file's type, behind the symbols.
ghost use Rattle.std.specs.Prelude.{◌≡◌};
ghost use Rattle.simpleperf.specs.Answers.{info_of};
ghost use Rattle.simpleperf.specs.Got.{number_got, got_of};
ghost use Rattle.simpleperf.specs.Tables.{u64_or_none, info_in};
ghost use Rattle.simpleperf.specs.Types.{type_number};

use crate::dex::OffsetList;
use crate::list::read_counted;
use crate::reader::Reader;
use crate::types::DsoType;
use wire::refusal::Refusal;

// The offsets of the dex files that a file holds.
#[derive(Clone, Copy)]
pub struct SimpleperfDexFileInfo<'a> {
    pub dex_file_offset: OffsetList<'a>,
}

// Where in an elf file its lowest address lies; the largest u64 where the record leaves it out.
#[derive(Clone, Copy)]
pub struct SimpleperfElfFileInfo {
    pub file_offset_of_min_vaddr: u64,
}

// Where in memory a kernel module's lowest address lies; the largest u64 where the record leaves it out.
#[derive(Clone, Copy)]
pub struct SimpleperfKernelModuleInfo {
    pub memory_offset_of_min_vaddr: u64,
}

// What a record says of its file by the file's type.
#[derive(Clone, Copy)]
pub enum SimpleperfTypeSpecificInfo<'a> {
    // only with DsoType::DexFile
    SimpleperfDexFileInfo(SimpleperfDexFileInfo<'a>),
    // only with DsoType::ElfFile
    ElfFile(SimpleperfElfFileInfo),
    // only with DsoType::KernelModule
    KernelModule(SimpleperfKernelModuleInfo),
}

// A u64, or the largest where no byte is left: that number stands for none, in a head too.
fn read_u64_or_none(reader: &mut Reader<'_>) -> Result<u64, Refusal>
    ensures { number_got result reader.new.rest.now ≡ u64_or_none reader.old.order reader.old.size reader.old.rest.now }
{
    match reader.rest {
        [] => Ok(u64::MAX),
        _ => reader.u64(),
    }
}

// The tail of a record, for a file's type.
pub(crate) fn read_info<'a>(
    reader: &mut Reader<'a>,
    file_type: DsoType,
) -> Result<Option<SimpleperfTypeSpecificInfo<'a>>, Refusal>
    ensures { got_of info_of result reader.new.rest.now ≡ info_in reader.old.order reader.old.size (type_number file_type) reader.old.rest.now }
{
    let info = match file_type {
        DsoType::DexFile => {
            let dex_file_offset = read_counted(reader)?;
            SimpleperfTypeSpecificInfo::SimpleperfDexFileInfo(SimpleperfDexFileInfo {
                dex_file_offset,
            })
        }
        DsoType::ElfFile => {
            let file_offset_of_min_vaddr = read_u64_or_none(reader)?;
            SimpleperfTypeSpecificInfo::ElfFile(SimpleperfElfFileInfo {
                file_offset_of_min_vaddr,
            })
        }
        DsoType::KernelModule => {
            let memory_offset_of_min_vaddr = read_u64_or_none(reader)?;
            SimpleperfTypeSpecificInfo::KernelModule(SimpleperfKernelModuleInfo {
                memory_offset_of_min_vaddr,
            })
        }
        DsoType::Kernel | DsoType::SymbolMapFile | DsoType::UnknownFile => return Ok(None),
    };
    Ok(Some(info))
}
