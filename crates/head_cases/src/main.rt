// Makes the heads of the images that standard input lists, one a line: how many rows are lent, how many bytes of room there
// are, and an x with the image's bytes in hexadecimal. Answers each with a line: the head, or the refusal. The rows come in
// dirty and the room filled; ` touched` stands behind an answer where a row is not blank then, or a byte of the room that is
// not the head's has changed.
#![tactic(auto)]

use anyhow::{Context, anyhow};
use head::from_image::write_image_head;
use hexadecimal::{Hex, decode};
use image::section::LONGEST;
use std::io::{BufRead, BufReader};
use table::row::Row;
use table_cases::caller::DIRTY;

// The rows and the bytes that are made once and lent for every line.
// How far the lines go.
const MOST_ROWS: usize = 65_536;

const MOST_ROOM: usize = 70_000;

// What a byte of the room is before a call: never 0, and not the same as its neighbours.
fn filling(at: usize) -> u8 {
    (at % 251 + 1) as u8
}

// The memory that a call is lent.
#[derive(Drop)]
struct Lent<'a> {
    rows: &'a mut [Row],
    room: &'a mut [u8],
}

impl Lent<'_> {
    fn fill(&mut self) {
        self.rows.fill(DIRTY);
        for (at, byte) in self.room.iter_mut().enumerate() {
            *byte = filling(at);
        }
    }

    // Whether a row is not blank, or a byte of the room from a place on not as it was filled.
    fn is_touched(&self, from: usize) -> bool {
        self.rows.iter().any(|row| *row != Row::BLANK)
            || self
                .room
                .iter()
                .enumerate()
                .skip(from)
                .any(|(at, byte)| *byte != filling(at))
    }

    fn print_head(&mut self, rt: &HostRuntime, image: &[u8]) -> anyhow::Result<()> {
        self.fill();
        let written = match write_image_head(image, LONGEST, self.rows, self.room) {
            Ok(len) => {
                let head = Hex(&self.room[..len]);
                print!(rt; "head x{head}")?;
                len
            }
            Err(refusal) => {
                print!(rt; "{refusal}")?;
                0
            }
        };
        if self.is_touched(written) {
            print!(rt; " touched")?;
        }
        println!(rt; "")?;
        Ok(())
    }
}

fn print_line(
    rt: &HostRuntime,
    line: &str,
    rows: &mut [Row],
    room: &mut [u8],
) -> anyhow::Result<()> {
    let (front, text) = line.split_once(" x").context(
        "a line is a number of rows, bytes of room, x and hexadecimal",
    )?;
    let (lent, given) = front
        .split_once(' ')
        .context("a line has no bytes of room")?;
    let lent = lent.parse::<u32>()? as usize;
    let given = given.parse::<u32>()? as usize;
    let (Some(rows), Some(room)) = (rows.get_mut(..lent), room.get_mut(..given)) else {
        return Err(anyhow!("a line has more rows or room than there are"));
    };
    let image = decode(rt.alloc(), text.as_bytes())?.context("a line has no whole hexadecimal")?;
    Lent { rows, room }.print_head(rt, &image)
}

fn main(rt: HostRuntime) -> anyhow::Result<()> {
    let mut rows = vec![in rt.alloc(); Row::BLANK; MOST_ROWS]?;
    let mut room = vec![in rt.alloc(); 0u8; MOST_ROOM]?;
    for line in BufReader::new(rt.alloc(), rt.stdin())?.lines(rt.alloc()) {
        print_line(&rt, line?.as_str(), &mut rows, &mut room)?;
    }
    Ok(())
}
