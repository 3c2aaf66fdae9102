// The walk over a column's entries, which gives its values into a room of the caller's own.
ghost use Rattle.std.specs.Prelude.{◌≡◌, ◌++◌, ◌+◌, ◌*◌, ◌≤◌, ◌<◌, length, drop, get_or};
ghost use Rattle.answer.specs.Limits.{vertex_limit};
ghost use Rattle.le.specs.Number.{number};
ghost use Rattle.column.specs.Read.{said_by, end_of};
ghost use Rattle.column.specs.Filling.{Fillable, Went};

use crate::Position;

// The place before which an entry is sure to lie inside so many bytes: 17 stand from its first one on. A column reaches no further than 65,536.
fn sure_before(len: usize) -> usize
    ensures { (result ≤ 524160) × (0 < result → result + 128 ≤ 8 * len) }
{
    if len < 17 {
        return 0;
    }
    if 65536 < len {
        return 524160;
    }
    8 * len - 128
}

// Where so many steps of width w from a place on would end, or the limit if that comes first.
fn steps_end(limit: usize, at: usize, w: u64, left: usize) -> usize
    requires { (w ≤ 64) × (left ≤ vertex_limit) × (at ≤ 72 + 128 * vertex_limit) }
    ensures { (result ≤ limit) × (result ≤ at + w * left) }
{
    let end = at + (w as usize) * left;
    if limit < end { limit } else { end }
}

// Gives values into out as long as steps follow each other and the next one begins before the limit.
fn fill_steps(s: &[u8], n: usize, limit: usize, m: u64, from: Position, out: &mut [u64]) -> Position
    requires fillable { Fillable n m from out.old }
    requires at_bound { from.at ≤ 72 + 128 * vertex_limit }
    requires limit_bound { limit + 64 ≤ 8 * length s.now }
    ensures { (Went 64 (number s.now) n from out.old result out.new) × (from.given ≤ result.given) }
{
    let w = from.width;
    let mut at = from.at;
    let mut last = from.last;
    let mut i = from.given;
    let end = steps_end(limit, at, w, n - i);
    // no `for`: the place ends the walk, so a `for` over the room would test it within, and the index is told with it
    while at < end {
        let z = le::bits::field_within(s, at, w, m);
        if m <= z {
            return Position {
                at,
                given: i,
                width: w,
                last,
            };
        }
        at += w as usize;
        last = entry::stepped(last, z);
        out[i] = last;
        i += 1;
    }
    Position {
        at,
        given: i,
        width: w,
        last,
    }
}

// Gives values into out as long as an entry is sure to lie inside s: one of either kind, and then, if RUN says so, the steps that follow it.
fn fill_on<const RUN: bool>(s: &[u8], n: usize, m: u64, from: Position, out: &mut [u64]) -> Position
    requires fillable { Fillable n m from out.old }
    requires at_bound { from.at ≤ 72 }
    ensures { Went 64 (number s.now) n from out.old result out.new }
{
    let before = sure_before(s.len());
    let w = from.width;
    let mut at = from.at;
    let mut last = from.last;
    let mut i = from.given;
    // no `for`: how many values a turn gives, only the steps say, and a place ends the walk as well
    while i < n && at < before {
        let e = entry::entry_inside(s, at, w, m, last);
        at = e.next;
        last = e.value;
        out[i] = last;
        i += 1;
        if RUN {
            let here = Position {
                at,
                given: i,
                width: w,
                last,
            };
            let p = fill_steps(s, n, before + 64, m, here, out);
            at = p.at;
            last = p.last;
            i = p.given;
        }
    }
    Position {
        at,
        given: i,
        width: w,
        last,
    }
}

// Gives values into out as long as an entry is sure to lie inside s. At width 0 no step can stand, and there is nothing to look ahead for.
fn fill_inside(s: &[u8], n: usize, m: u64, from: Position, out: &mut [u64]) -> Position
    requires fillable { Fillable n m from out.old }
    requires at_bound { from.at ≤ 72 }
    ensures { Went 64 (number s.now) n from out.old result out.new }
{
    if from.width == 0 {
        return fill_on::<false>(s, n, m, from, out);
    }
    fill_on::<true>(s, n, m, from, out)
}

// Gives values into out as long as steps follow each other that begin in the last eight bytes.
fn fill_last(s: &[u8], n: usize, m: u64, from: Position, out: &mut [u64]) -> Position
    requires fillable { Fillable n m from out.old }
    requires at_bound { from.at ≤ 72 + 128 * vertex_limit }
    ensures { Went 64 (number s.now) n from out.old result out.new }
{
    let len = s.len();
    let w = from.width;
    let mut at = from.at;
    let mut last = from.last;
    let mut i = from.given;
    if at / 8 + 8 < len {
        return from;
    }
    if len < 8 {
        return from;
    }
    // no `for`: a place ends the walk as well, and the index is told with it
    while i < n && at / 8 < len {
        let e = le::bits::field_in_last_eight(s, at, m);
        if m <= e {
            return Position {
                at,
                given: i,
                width: w,
                last,
            };
        }
        at += w as usize;
        last = entry::stepped(last, e);
        out[i] = last;
        i += 1;
    }
    Position {
        at,
        given: i,
        width: w,
        last,
    }
}

// Gives the rest of n values into out; past the end of s bits are 0.
fn fill_rest(s: &[u8], n: usize, m: u64, from: Position, out: &mut [u64]) -> Position
    requires fillable { Fillable n m from out.old }
    requires at_bound { from.at ≤ 72 + 128 * vertex_limit }
    ensures { (Went 64 (number s.now) n from out.old result out.new) × (result.given ≡ n) }
{
    let w = from.width;
    let mut at = from.at;
    let mut last = from.last;
    for i in from.given..n {
        let e = entry::entry_at(s, at, w, m, last);
        at = e.next;
        last = e.value;
        out[i] = last;
    }
    Position {
        at,
        given: n,
        width: w,
        last,
    }
}

// Gives all n values of a column of width w into out, and the place where its entries end.
pub(crate) fn fill(s: &[u8], n: usize, w: u64, out: &mut [u64]) -> usize
    requires { (w ≡ get_or s.now 0 0) × (w ≤ 64) × (0 < n) × (n ≤ vertex_limit) × (n ≤ length out.old) }
    ensures end { result ≡ end_of 64 s.now n }
    ensures room { out.new ≡ said_by 64 s.now n ++ drop n out.old }
    ensures bound { result ≤ 72 + 128 * vertex_limit }
{
    let m = entry::marker(w);
    let first = le::bits::window(s, 8);
    out[0] = first;
    let start = Position {
        at: 72,
        given: 1,
        width: w,
        last: first,
    };
    let inside = fill_inside(s, n, m, start, out);
    let near = fill_last(s, n, m, inside, out);
    let end = fill_rest(s, n, m, near, out);
    end.at
}
