// A page of a file, opened: cut from the file's bytes, read into a scratch that serves every page, and judged. This is the one place where a page is
// opened, and where a refusal of its contents is given its page.
ghost use Rattle.std.specs.Prelude.{◌≡◌, ℕ, take};
ghost use Rattle.answer.specs.Outcome.{ok};
ghost use Rattle.frame.specs.declared.cursor.PageAt.{PageAt};
ghost use Rattle.frame.specs.Ahead.{Within};
ghost use Rattle.frame.specs.Head.{head_of};
ghost use Rattle.frame.specs.Next.{page, next_of};
ghost use Rattle.page.specs.Loaded.{Loads};
ghost use Rattle.page.specs.Opened.{Rooms, Opens};

use crate::contents::load;
use crate::scratch::Scratch;
use answer::{Refusal, in_page};
use frame::cursor::{Cursor, PageAt};
use frame::head::Head;
use frame::read::page_at;

// The contents of a page, loaded into the first elements of each room, as many as its head says.
fn load_first(
    b: &[u8],
    h: Head,
    counts: &mut [u16],
    lens: &mut [u16],
    xs: &mut [u64],
    ys: &mut [u64],
) -> Result<(), Refusal>
    requires by_index { (e : ℕ) × (head_of e b.now ≡ ok h) }
    requires rooms { Rooms counts.old lens.old xs.old ys.old }
    ensures { Loads h b.now result (take h.g counts.new) (take h.p lens.new) (take h.v xs.new) (take h.v ys.new) }
{
    load(
        b,
        h,
        &mut counts[..h.g],
        &mut lens[..h.p],
        &mut xs[..h.v],
        &mut ys[..h.v],
    )
}

// Opens the page that stands at a cursor, into four rooms that are as long as a scratch's. Its part counts, part lengths and vertices are the first of them,
// as many as its head says.
pub fn open(
    s: &[u8],
    c: Cursor,
    counts: &mut [u16],
    lens: &mut [u16],
    xs: &mut [u64],
    ys: &mut [u64],
) -> Result<PageAt, Refusal>
    requires within { Within c }
    requires c_value { (p : PageAt) × (next_of s.now c ≡ ok (page p)) }
    requires rooms { Rooms counts.old lens.old xs.old ys.old }
    ensures { Opens s.now c result (record { counts = counts.new; lens = lens.new; xs = xs.new; ys = ys.new }) }
{
    let p = page_at(s, c);
    let from = p.body;
    let to = from + p.len;
    let held = load_first(&s[from..to], p.head, counts, lens, xs, ys);
    in_page(held, c.pages as u32)?;
    Ok(p)
}

// The same, into a scratch.
// The arrays are lent whole: of a field that is cut where its struct is lent, nothing is known once it is back.
pub fn open_in(s: &[u8], c: Cursor, scratch: &mut Scratch) -> Result<PageAt, Refusal>
    requires within { Within c }
    requires c_value { (p : PageAt) × (next_of s.now c ≡ ok (page p)) }
    ensures { Opens s.now c result scratch.new }
{
    open(
        s,
        c,
        &mut scratch.counts,
        &mut scratch.lens,
        &mut scratch.xs,
        &mut scratch.ys,
    )
}
