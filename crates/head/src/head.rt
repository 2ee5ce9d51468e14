// The head of a store, written to the front of a buffer.
ghost use Rattle.std.specs.Prelude.{◌≡◌, ◌+◌, ◌*◌, ◌^◌, ◌<◌, ◌≤◌, length, IfOk, OnOk};
ghost use Rattle.facts.specs.Head.{answer as answer_of, carried, entry, entries, head_of, fitted, length_of, ahead, outcome};
ghost use Rattle.facts.specs.Laws.{Spoken};
ghost use Rattle.table.specs.Rows.{blanks};
ghost use Rattle.head.specs.Wrote.{Wrote};

use crate::fact::put_feature;
use facts::carried::Carried;
use image::section::LONGEST;
use image::store::Store;
use perf_data::features::Feature;
use put::Writer;
use table::row::{Row, blank_all};
use wire::refusal::Refusal;

// `PRH`, and the version 1.
const MARK: &[u8; 5] = b"PRH\x01\0";

// What stands before a fact: its feature's number, and its length.
const FRONT: usize = 6;

// The entry of a feature, if the store has it: first its fact, and then what stands before it.
fn write_entry<'a, S: Store<'a>>(
    store: &S,
    feature: Carried,
    rows: &mut [Row],
    w: &mut Writer<'_>,
) -> Result<(), Refusal>
    requires { w.old.at < 2 ^ 39 }
    ensures wrote { Wrote (entry feature (answer_of (length rows.old) (S.endian store.now) (S.map store.now).at feature)) w.old result w.new }
    ensures short { OnOk result (w.new.at ≤ w.old.at + 4294967302) }
{
    let start = w.at();
    let from = start + FRONT;
    w.go_to(from);
    let is_there = put_feature(store, feature, rows, w)?;
    if !is_there {
        w.go_to(start);
        return Ok(());
    }
    let end = w.at();
    w.go_to(start);
    w.put_number(u16::from(feature));
    w.put_number((end - from) as u32);
    w.go_to(end);
    Ok(())
}

// The entries of the features that a head carries, one after the other.
fn write_entries<'a, S: Store<'a>>(
    store: &S,
    rows: &mut [Row],
    w: &mut Writer<'_>,
) -> Result<(), Refusal>
    requires { w.old.at ≤ 16 }
    ensures { Wrote (entries (answer_of (length rows.old) (S.endian store.now) (S.map store.now).at) carried) w.old result w.new }
{
    let features = Carried::all();
    for feature in &features {
        write_entry(store, *feature, rows, w)?;
    }
    Ok(())
}

// The head, or what of it falls inside the writer's buffer.
fn write_whole<'a, S: Store<'a>>(
    store: &S,
    rows: &mut [Row],
    w: &mut Writer<'_>,
) -> Result<(), Refusal>
    requires { w.old.at ≡ 0 }
    ensures { Wrote (head_of (length rows.old) (S.endian store.now) (S.map store.now).at) w.old result w.new }
{
    // files and symbols in a second format, which this library does not read
    if store.section(Feature::SIMPLEPERF_FILE2.0).is_some() {
        return Err(Refusal::SecondFormatPresent);
    }
    w.put(MARK);
    write_entries(store, rows, w)
}

// The head is counted first: where it is refused or does not fit, `out` stays as it was.
fn write_fitting<'a, S: Store<'a>>(
    store: &S,
    rows: &mut [Row],
    out: &mut [u8],
) -> Result<usize, Refusal>
    ensures answer { outcome result ≡ length_of (fitted (length out.old) (head_of (length rows.old) (S.endian store.now) (S.map store.now).at)) }
    ensures after { out.new ≡ ahead (fitted (length out.old) (head_of (length rows.old) (S.endian store.now) (S.map store.now).at)) out.old }
{
    let mut counter = Writer::new(&mut []);
    write_whole(store, rows, &mut counter)?;
    let len = counter.at();
    if len > out.len().min(LONGEST) {
        return Err(Refusal::TooLittleRoom);
    }
    write_whole(store, rows, &mut Writer::new(out))?;
    Ok(len)
}

// Writes the head of `store` to the front of `out` and answers its length. A table of the store may take as many rows as
// are lent; in the end they are all blank.
pub fn write_head<'a, S: Store<'a>>(
    store: &S,
    rows: &mut [Row],
    out: &mut [u8],
) -> Result<usize, Refusal>
    ensures answer { outcome result ≡ length_of (fitted (length out.old) (head_of (length rows.old) (S.endian store.now) (S.map store.now).at)) }
    ensures after { out.new ≡ ahead (fitted (length out.old) (head_of (length rows.old) (S.endian store.now) (S.map store.now).at)) out.old }
    ensures rows { rows.new ≡ blanks (length rows.old) }
    ensures room { IfOk result (λ n. n ≤ length out.old) }
    ensures law { Spoken (length rows.old) (S.endian store.now) (S.map store.now) result out.new }
{
    let written = write_fitting(store, rows, out);
    blank_all(rows);
    written
}
