// Symbol tables.
ghost use Rattle.std.specs.Prelude.{◌≡◌, ℕ, List, ◌++◌, OnOk, map};
ghost use Rattle.std.specs.String.{string_bytes};
ghost use Rattle.std.specs.Fmt.{decimal};
ghost use Rattle.simpleperf.specs.Answers.{file_of, files_of, info_of, symbol_of, symbols_of};
ghost use Rattle.simpleperf.specs.Lists.{to_come};
ghost use Rattle.answers.specs.Texts.{joined, info_text, symbol_text, symbols_text, file_text, files_text};

use crate::told::Told;
use hexadecimal::Hex;
use simpleperf::file::SimpleperfFileRecord;
use simpleperf::info::SimpleperfTypeSpecificInfo;
use simpleperf::list::{ItemList, Listed};
use simpleperf::symbol::{SimpleperfSymbol, SymbolList};
use simpleperf::tables::SymbolTables;
use std::alloc::AllocError;

// Items, with a mark between each two.
fn write_list<'a, K: Listed<'a>>(
    out: &mut String,
    mut items: ItemList<'a, K>,
    mark: &str,
) -> Result<(), AllocError>
where
    K::Item: Told,
    ensures { OnOk result ((given : List K.Item) × (map K.value given ≡ to_come K.reading items.entry) × (string_bytes out.new ≡ string_bytes out.old ++ joined mark.now (map K.Item.text given))) }
{
    let Some(first) = items.next() else {
        return Ok(());
    };
    first.write(out)?;
    for item in items {
        out.push_str(mark)?;
        item.write(out)?;
    }
    Ok(())
}

// An offset in a list of them.
impl Told for u64 {
    ghost text = { decimal };

    fn write(self, out: &mut String) -> Result<(), AllocError> {
        write!(out, "{self}")
    }
}

fn write_info(
    out: &mut String,
    info: Option<SimpleperfTypeSpecificInfo<'_>>,
) -> Result<(), AllocError>
    ensures { OnOk result (string_bytes out.new ≡ string_bytes out.old ++ info_text (info_of info.entry)) }
{
    match info {
        None => write!(out, "-"),
        Some(SimpleperfTypeSpecificInfo::SimpleperfDexFileInfo(dex)) => {
            write!(out, "dex=")?;
            write_list(out, dex.dex_file_offset, ",")
        }
        Some(SimpleperfTypeSpecificInfo::ElfFile(elf)) => {
            write!(out, "elf={}", elf.file_offset_of_min_vaddr)
        }
        Some(SimpleperfTypeSpecificInfo::KernelModule(module)) => {
            write!(out, "module={}", module.memory_offset_of_min_vaddr)
        }
    }
}

impl Told for SimpleperfSymbol<'_> {
    ghost text = { λ symbol. symbol_text (symbol_of symbol) };

    fn write(self, out: &mut String) -> Result<(), AllocError> {
        let name = Hex(self.name.as_bytes());
        write!(out, "{},{},x{name}", self.vaddr, self.len)
    }
}

fn write_symbols(out: &mut String, symbols: SymbolList<'_>) -> Result<(), AllocError>
    ensures { OnOk result (string_bytes out.new ≡ string_bytes out.old ++ symbols_text (symbols_of symbols.entry)) }
{
    let mut ahead = symbols;
    let Some(_) = ahead.next() else {
        return write!(out, "-");
    };
    write_list(out, symbols, ";")
}

fn write_file(out: &mut String, file: SimpleperfFileRecord<'_>) -> Result<(), AllocError>
    ensures { OnOk result (string_bytes out.new ≡ string_bytes out.old ++ file_text (file_of file.entry)) }
{
    let path = Hex(file.path.as_bytes());
    let file_type = u32::from(file.file_type);
    write!(out, " x{path}:{file_type}:{}:", file.min_vaddr)?;
    write_info(out, file.type_specific_msg)?;
    write!(out, ":")?;
    write_symbols(out, file.symbol)
}

impl Told for SymbolTables<'_> {
    ghost text = { λ tables. files_text (files_of tables) };

    fn write(self, out: &mut String) -> Result<(), AllocError> {
        write!(out, "records {}", self.count())?;
        for file in self {
            write_file(out, file)?;
        }
        Ok(())
    }
}
