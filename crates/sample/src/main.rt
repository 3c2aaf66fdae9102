// Writes the sample file of document 01 to standard output, by the proved writer. It is held to the file `stdout`, whose bytes were worked out by
// hand from the document; docs/FORMAT.md shows them one by one.
#![tactic(auto)]

use answer::Refusal;
use pageblock::lists::PageLists;
use std::io::{Print, Result};
use text::lines::put_refused;
use types::rows::{EMPTY, LINE_STRING, POINT, POLYGON};
use writer::{Stepped, Writer};

// 0, 5, 10, 20, -5 and -1, as patterns.
const ZERO: u64 = 0;

const FIVE: u64 = 0x4014_0000_0000_0000;

const TEN: u64 = 0x4024_0000_0000_0000;

const TWENTY: u64 = 0x4034_0000_0000_0000;

const MINUS_FIVE: u64 = 0xC014_0000_0000_0000;

const MINUS_ONE: u64 = 0xBFF0_0000_0000_0000;

// Register 101, Polygon (0,0) (0,10) (10,10) (10,0) (0,0); register 102, Point (20,5).
fn first_page(w: Writer, file: &mut [u8]) -> Stepped {
    w.page(
        file,
        PageLists {
            registers: &[101, 102],
            types: &[POLYGON, POINT],
            counts: &[1, 1],
            lens: &[5, 1],
            xs: &[ZERO, ZERO, TEN, TEN, ZERO, TWENTY],
            ys: &[ZERO, TEN, TEN, ZERO, ZERO, FIVE],
        },
    )
}

// Register 101, LineString (-5,-5) (-1,-1); register 103, empty.
fn second_page(w: Writer, file: &mut [u8]) -> Stepped {
    w.page(
        file,
        PageLists {
            registers: &[101, 103],
            types: &[LINE_STRING, EMPTY],
            counts: &[1, 0],
            lens: &[2],
            xs: &[MINUS_FIVE, MINUS_ONE],
            ys: &[MINUS_FIVE, MINUS_ONE],
        },
    )
}

// The refused line.
fn say_refused(rt: &impl Print, w: Refusal) -> Result<()> {
    let mut out = [0u8; 96];
    let k = put_refused(&mut out, 0, w);
    rt.write_all(&out[..k])
}

// The bytes before the position, if the last step was taken.
fn show(rt: &impl Print, last: Stepped, file: &[u8]) -> Result<()> {
    let end = last.writer.position;
    let verdict = last.verdict;
    match verdict {
        Ok(()) => {
            if end <= file.len() {
                return rt.write_all(&file[..end]);
            }
            Ok(())
        }
        Err(w) => say_refused(rt, w),
    }
}

fn main(rt: HostRuntime) -> Result<()> {
    let mut file = [0u8; 512];
    let fresh = Writer {
        position: 0,
        pages: 0,
        shapes: 0,
        closed: false,
    };
    let opened = fresh.open(&mut file);
    let one = first_page(opened.writer, &mut file);
    let two = second_page(one.writer, &mut file);
    let closed = two.writer.close(&mut file);
    show(&rt, closed, &file)
}
