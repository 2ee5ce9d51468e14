// Answers one question about a feature section, in text. A question is QUESTION ORDER ROWS SECTION, as docs/ASK.md has it.
#![tactic(auto)]

ghost use Rattle.std.specs.Prelude.{◌≡◌, ◌++◌, ℕ, List, IfOk, OnOk, length, vec_len};
ghost use Rattle.std.specs.String.{string_bytes};
ghost use Rattle.hexadecimal.specs.Hex.{items};
ghost use Rattle.answers.specs.Lines.{line_text};
ghost use Rattle.answers.specs.Read.{IsAnswer, IsReading};

mod facts;
mod line;
mod names;
pub mod question;
mod rows;
mod symbols;
mod texts;
mod told;

use dso_key::dso_key::DsoKey;
use facts::Present;
use fixed_facts::perf_file::{
    clock_data, clock_frequency, compression_info, is_stats, nr_cpus, sample_time_range, total_mem,
};
use line::{Line, LineError};
use perf_data::features::Feature;
use perf_data::perf_file::{arch, cmdline, cpu_desc, cpu_id, hostname, os_release, perf_version};
use question::Question;
use rows::{BuildTable, MetaTable, PmuTable, Table, used_rows};
use simpleperf::questions::symbol_tables;
use std::alloc::{AllocError, Global};
use table::row::Row;
use texts::write_shown;
use told::write_answer;

// No question asks for more rows (docs/ASK.md).
pub const MOST_ROWS: u32 = 65_536;

// Rows for every question, made once and lent to one after the other.
pub fn all_rows(heap: Global) -> Result<Vec<Row>, AllocError>
    ensures { IfOk result (λ v. vec_len v ≡ 65536) }
{
    vec![in heap; Row::BLANK; MOST_ROWS as usize]
}

fn write_table<T: Table>(out: &mut String, table: T, rows: &mut [Row]) -> Result<(), AllocError>
    ensures { OnOk result (string_bytes out.new ≡ string_bytes out.old ++ T.table_text table (length rows.old)) }
{
    let used = table.read(rows);
    write_answer(out, used_rows(used, table, rows))
}

fn write_line(out: &mut String, line: &Line, rows: &mut [Row]) -> Result<(), AllocError>
    ensures { OnOk result (string_bytes out.new ≡ string_bytes out.old ++ line_text line.now.question line.now.order line.now.number (length rows.old) (items line.now.section)) }
{
    match line.question {
        Question::Hostname => write_answer(out, hostname(&line.store(Feature::HOSTNAME))),
        Question::OsRelease => write_answer(out, os_release(&line.store(Feature::OSRELEASE))),
        Question::PerfVersion => write_answer(out, perf_version(&line.store(Feature::VERSION))),
        Question::Arch => write_answer(out, arch(&line.store(Feature::ARCH))),
        Question::CpuDesc => write_answer(out, cpu_desc(&line.store(Feature::CPUDESC))),
        Question::CpuId => write_answer(out, cpu_id(&line.store(Feature::CPUID))),
        Question::Cmdline => write_answer(out, cmdline(&line.store(Feature::CMDLINE))),
        Question::NrCpus => write_answer(out, nr_cpus(&line.store(Feature::NRCPUS))),
        Question::TotalMem => write_answer(out, total_mem(&line.store(Feature::TOTAL_MEM))),
        Question::SampleTimeRange => write_answer(
            out,
            sample_time_range(&line.store(Feature::SAMPLE_TIME)),
        ),
        Question::ClockFrequency => write_answer(
            out,
            clock_frequency(&line.store(Feature::CLOCKID)),
        ),
        Question::CompressionInfo => write_answer(
            out,
            compression_info(&line.store(Feature::COMPRESSED)),
        ),
        Question::ClockData => write_answer(out, clock_data(&line.store(Feature::CLOCK_DATA))),
        Question::IsStats => {
            write_answer(
                out,
                Ok(is_stats(&line.store(Feature::STAT)).then_some(Present)),
            )
        }
        Question::PmuMappings => {
            write_table(out, PmuTable(line.store(Feature::PMU_MAPPINGS)), rows)
        }
        Question::MetaInfo => {
            write_table(
                out,
                MetaTable(line.store(Feature::SIMPLEPERF_META_INFO)),
                rows,
            )
        }
        Question::BuildIds => { write_table(out, BuildTable(line.store(Feature::BUILD_ID)), rows) }
        Question::SymbolTables => write_answer(
            out,
            symbol_tables(&line.store(Feature::SIMPLEPERF_FILE)),
        ),
        Question::Detect => write_answer(out, Ok(DsoKey::detect(line.bytes(), line.cpu_mode()))),
        Question::Shown => write_shown(out, line.bytes()),
    }
}

// The answer to a line that was read, or to one that is none.
fn answer_read(
    heap: Global,
    read: Result<Line, LineError>,
    rows: &mut [Row],
) -> Result<String, AllocError>
    ensures { (question : List ℕ) → IsReading question read → IfOk result (λ text. IsAnswer question (length rows.old) (string_bytes text)) }
{
    let mut out = String::new(heap);
    match read {
        Ok(line) => {
            let lent = line.rows().min(rows.len());
            write_line(&mut out, &line, &mut rows[..lent])?;
        }
        Err(LineError::Bad) => write!(out, "bad line")?,
        Err(LineError::Memory(error)) => return Err(error),
    }
    Ok(out)
}

// The answer to a question; the rows are for its table, as many of them as it asks for.
pub fn answer(heap: Global, question: &str, rows: &mut [Row]) -> Result<String, AllocError>
    ensures { IfOk result (λ text. IsAnswer question.now (length rows.old) (string_bytes text)) }
{
    let read = Line::read(heap, question);
    answer_read(heap, read, rows)
}

// The same of a question that is handed over. Its text is dropped before the answer is made, since both may be long.
pub fn answer_owned(heap: Global, question: String, rows: &mut [Row]) -> Result<String, AllocError>
    ensures { IfOk result (λ text. IsAnswer (string_bytes question) (length rows.old) (string_bytes text)) }
{
    let read = Line::read(heap, question.as_str());
    drop(question);
    answer_read(heap, read, rows)
}
