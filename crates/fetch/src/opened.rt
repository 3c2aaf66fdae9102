// A shape of a page that is opened: the page's contents, then the room, and only then the three copies.
ghost use Rattle.std.specs.Prelude.{◌≡◌, ◌<◌};
ghost use Rattle.answer.specs.Outcome.{ok, on};
ghost use Rattle.frame.specs.Ahead.{Within};
ghost use Rattle.frame.specs.Next.{page, next_of};
ghost use Rattle.place.specs.Span.{shape_from};
ghost use Rattle.fetch.specs.Fetch.{shape_of, in_rooms, FetchesIn};
ghost use Rattle.fetch.specs.Ready.{Lies};
ghost use Rattle.place.specs.Seek.{seat_at};

use crate::fetch::Found;
use answer::Refusal;
use answer::table::ROOM;
use le::run::copy_to_start;
use page::open::open_in;
use page::scratch::Scratch;
use place::row::{Row, row_at};
use place::seek::SeatAt;
use place::span::{Span, span_of};

// The shape with a row and a span of a page's lists, if there is room for it.
fn put_shape(
    r: Row,
    p: Span,
    page_lens: &[u16],
    page_xs: &[u64],
    page_ys: &[u64],
    lens: &mut [u16],
    xs: &mut [u64],
    ys: &mut [u64],
) -> Result<Found, Refusal>
    requires { Lies p page_lens.now page_xs.now page_ys.now }
    ensures { FetchesIn (λ k. in_rooms k (shape_from r p page_lens.now page_xs.now page_ys.now)) lens xs ys result }
{
    let part = p.part;
    let part_end = p.part_end;
    let vertex = p.vertex;
    let vertex_end = p.vertex_end;
    let parts = part_end - part;
    let vertices = vertex_end - vertex;
    if lens.len() < parts {
        return Err(Refusal::because(ROOM));
    }
    if xs.len() < vertices {
        return Err(Refusal::because(ROOM));
    }
    if ys.len() < vertices {
        return Err(Refusal::because(ROOM));
    }
    copy_to_start(&page_lens[part..part_end], lens);
    copy_to_start(&page_xs[vertex..vertex_end], xs);
    copy_to_start(&page_ys[vertex..vertex_end], ys);
    Ok(Found {
        register: r.register,
        kind: r.kind,
        parts,
        vertices,
    })
}

// The shape of a seat: its page is opened into a scratch of its own.
pub(crate) fn opened(
    s: &[u8],
    t: SeatAt,
    lens: &mut [u16],
    xs: &mut [u64],
    ys: &mut [u64],
) -> Result<Found, Refusal>
    requires within { Within t.at }
    requires at_value { next_of s.now t.at ≡ ok (page t.page) }
    requires index_lt_g { t.index < t.page.head.g }
    ensures { FetchesIn (λ k. on (shape_of (seat_at s.now t)) (in_rooms k)) lens xs ys result }
{
    let mut scratch = Scratch::new();
    let p = open_in(s, t.at, &mut scratch)?;
    let r = row_at(s, p, t.index);
    let v = p.head.v;
    let page_lens = &scratch.lens[..p.head.p];
    let q = span_of(&scratch.counts[..p.head.g], page_lens, t.index);
    put_shape(
        r,
        q,
        page_lens,
        &scratch.xs[..v],
        &scratch.ys[..v],
        lens,
        xs,
        ys,
    )
}
