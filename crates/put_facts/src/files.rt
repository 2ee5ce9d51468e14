// The records of files in a simpleperf recording.
ghost use Rattle.facts.specs.Written.{info_bytes, file_bytes};
ghost use Rattle.put.specs.Appends.{Appends};
ghost use Rattle.put_facts.specs.Sized.{counted_file};
ghost use Rattle.simpleperf.specs.Answers.{info_of, file_of};

use crate::items::put_counted;
use crate::parts::{put_ended, put_len};
use put::Writer;
use simpleperf::file::SimpleperfFileRecord;
use simpleperf::info::SimpleperfTypeSpecificInfo;

// The tail of a record. The offset is written also where the recording left it out.
fn put_info(info: Option<SimpleperfTypeSpecificInfo<'_>>, w: &mut Writer<'_>)
    ensures { Appends (info_bytes (info_of info.entry)) w.old w.new }
{
    let Some(info) = info else {
        return;
    };
    match info {
        SimpleperfTypeSpecificInfo::SimpleperfDexFileInfo(dex) => {
            put_counted(dex.dex_file_offset, w);
        }
        SimpleperfTypeSpecificInfo::ElfFile(elf) => {
            w.put_number(elf.file_offset_of_min_vaddr);
        }
        SimpleperfTypeSpecificInfo::KernelModule(module) => {
            w.put_number(module.memory_offset_of_min_vaddr);
        }
    }
}

fn put_file(file: SimpleperfFileRecord<'_>, w: &mut Writer<'_>)
    ensures { Appends (file_bytes (file_of file.entry)) w.old w.new }
{
    put_ended(file.path.as_bytes(), w);
    w.put_number(u32::from(file.file_type));
    w.put_number(file.min_vaddr);
    put_counted(file.symbol, w);
    put_info(file.type_specific_msg, w);
}

// A record with its length before it, which a first pass counts.
pub(crate) fn put_sized(file: SimpleperfFileRecord<'_>, w: &mut Writer<'_>)
    ensures { Appends (counted_file (file_of file.entry)) w.old w.new }
{
    let mut counter = Writer::new(&mut []);
    put_file(file, &mut counter);
    put_len(counter.at(), w);
    put_file(file, w);
}
