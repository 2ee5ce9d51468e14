// The questions that the sections of simpleperf recordings answer.
ghost use Rattle.std.specs.Prelude.{◌≡◌};
ghost use Rattle.perf_data.specs.Questions.{question, answered};
ghost use Rattle.simpleperf.specs.Answers.{file_of, files_of, symbol_of};
ghost use Rattle.simpleperf.specs.Laws.{RecordsFill};
ghost use Rattle.simpleperf.specs.Numbered.{one_of, of_file, symbol_at, offset_at};
ghost use Rattle.simpleperf.specs.Tables.{symbol_tables};

use crate::file::SimpleperfFileRecord;
use crate::info::SimpleperfTypeSpecificInfo;
use crate::symbol::SimpleperfSymbol;
use crate::tables::{SymbolTables, read_tables};
use image::ask::section_of;
use image::store::Store;
use perf_data::features::Feature;
use wire::refusal::Refusal;

// The files that the recording saw, with their symbols. Each record lies behind the four bytes of its length and the next one
// behind it, and they fill the section; the fault of the first that has one is the answer.
pub fn symbol_tables<'a, S: Store<'a>>(store: &S) -> Result<Option<SymbolTables<'a>>, Refusal>
    ensures is { answered files_of result ≡ question symbol_tables (S.endian store.now) ((S.map store.now).at 128) }
    ensures records { RecordsFill (S.endian store.now) ((S.map store.now).at 128) (answered files_of result) }
{
    section_of(store, Feature::SIMPLEPERF_FILE.0)
        .map(read_tables)
        .transpose()
}

// One of these files, by its number from 0; none past the last.
pub fn symbol_table<'a, S: Store<'a>>(
    store: &S,
    k: usize,
) -> Result<Option<SimpleperfFileRecord<'a>>, Refusal>
    ensures { answered file_of result ≡ one_of k (question symbol_tables (S.endian store.now) ((S.map store.now).at 128)) }
{
    let Some(mut tables) = symbol_tables(store)? else {
        return Ok(None);
    };
    Ok(tables.nth(k))
}

// One of the symbols of such a file, by its number from 0; none past the last.
pub fn symbol<'a, S: Store<'a>>(
    store: &S,
    k: usize,
    i: usize,
) -> Result<Option<SimpleperfSymbol<'a>>, Refusal>
    ensures { answered symbol_of result ≡ of_file (symbol_at i) (one_of k (question symbol_tables (S.endian store.now) ((S.map store.now).at 128))) }
{
    let Some(mut file) = symbol_table(store, k)? else {
        return Ok(None);
    };
    Ok(file.symbol.nth(i))
}

// One of its dex offsets, by its number from 0; none past the last, and of another file none.
pub fn dex_offset<'a, S: Store<'a>>(store: &S, k: usize, i: usize) -> Result<Option<u64>, Refusal>
    ensures { answered (λ n. n) result ≡ of_file (offset_at i) (one_of k (question symbol_tables (S.endian store.now) ((S.map store.now).at 128))) }
{
    let Some(file) = symbol_table(store, k)? else {
        return Ok(None);
    };
    let Some(info) = file.type_specific_msg else {
        return Ok(None);
    };
    match info {
        SimpleperfTypeSpecificInfo::SimpleperfDexFileInfo(mut dex) => {
            Ok(dex.dex_file_offset.nth(i))
        }
        _ => Ok(None),
    }
}
