// The column read one value a call. The position goes in by value and comes back with each answer; only a value moves it.
#![tactic(auto)]

ghost use Rattle.std.specs.Prelude.{◌≡◌, ◌+◌, ◌/◌, ◌^◌, ◌≤◌, leb};
ghost use Rattle.answer.specs.Limits.{vertex_limit};
ghost use Rattle.answer.specs.Refusal.{because, at_value};
ghost use Rattle.answer.specs.Outcome.{ok};
ghost use Rattle.le.specs.Number.{number};
ghost use Rattle.entry.specs.Step.{marker};
ghost use Rattle.entry.specs.Entry.{size_at};
ghost use Rattle.column.specs.Read.{end_rules};
ghost use Rattle.step.specs.Step.{end, coming, first_call, later_call, step_of, answer_with};

use answer::Refusal;
use answer::limits::MOST_VERTICES;
use column::Position;

// A value with the next position; or the end, or a refusal, with the position as it came. No `Result`: each way gives a position, and one beside it
// would be taken apart twice.
#[derive(Clone, Copy)]
pub enum Answer {
    Value(u64, Position),
    End(Position),
    Refused(Refusal, Position),
}

// A refusal by its number.
fn refused(number: u8, p: Position) -> Answer
    ensures { result ≡ Answer.Refused (because number) p }
{
    Answer::Refused(Refusal::because(number), p)
}

// A refusal by its number, met at a value.
fn refused_at(number: u8, index: usize, p: Position) -> Answer
    requires { index ≤ vertex_limit }
    ensures { result ≡ Answer.Refused (at_value index (because number)) p }
{
    Answer::Refused(Refusal::at_value(number, index), p)
}

// The value that comes where so many of n were given; n where none does.
fn coming(n: usize, given: usize) -> usize
    ensures { (result ≡ coming n given) × (result ≤ n) }
{
    if given < n { given } else { n }
}

// The whole bytes that bits up to a place take.
fn whole_bytes(at: usize) -> usize
    ensures { result ≡ (at + 7) / 8 }
{
    at / 8 + (at % 8 + 7) / 8
}

// The rules of the end, where the entries of n values end at a place within the bytes.
fn end_at(s: &[u8], n: usize, at: usize, p: Position) -> Answer
    requires { n ≤ vertex_limit }
    ensures { result ≡ answer_with p (end_rules s.now n at (ok end)) }
{
    if whole_bytes(at) < s.len() {
        return refused_at(answer::table::BITS, n, p);
    }
    if le::bits::window(s, at) != 0 {
        return refused_at(answer::table::FILL, n, p);
    }
    Answer::End(p)
}

// With none given: from the first bit.
fn first(s: &[u8], n: usize, p: Position) -> Answer
    ensures { result ≡ answer_with p (first_call 64 s.now n) }
{
    if n == 0 {
        return end_at(s, 0, 0, p);
    }
    let len = s.len();
    if len == 0 {
        return refused(answer::table::BITS, p);
    }
    let w = le::number::wide(s[0]);
    if 64 < w {
        return refused(answer::table::WIDTH, p);
    }
    if len < 9 {
        return refused(answer::table::BITS, p);
    }
    let v = le::bits::window(s, 8);
    Answer::Value(
        v,
        Position {
            at: 72,
            given: 1,
            width: w,
            last: v,
        },
    )
}

// Whether the entry at a place ends past what 64 bits can hold; m is the marker of width w.
fn runs_over(s: &[u8], at: usize, w: u64, m: u64) -> bool
    requires { (w ≤ 64) × (m ≡ marker w) }
    ensures { result ≡ leb (2 ^ 64) (at + size_at 64 (number s.now) w at) }
{
    if at < 0xFFFF_FFFF_FFFF_FF00 {
        return false;
    }
    let left = u64::MAX - (at as u64);
    if le::bits::field(s, at, w) < m {
        left < w
    } else {
        left < w + 64
    }
}

// With some given: the entry at the position's place, or the rules of the end.
fn later(s: &[u8], n: usize, p: Position) -> Answer
    requires { n ≤ vertex_limit }
    ensures { result ≡ answer_with p (later_call 64 s.now n p) }
{
    let at = p.at;
    let w = p.width;
    if 64 < w {
        return refused(answer::table::WIDTH, p);
    }
    let len = s.len();
    if len < whole_bytes(at) {
        return refused_at(answer::table::BITS, coming(n, p.given), p);
    }
    if n <= p.given {
        return end_at(s, n, at, p);
    }
    let m = entry::marker(w);
    if runs_over(s, at, w, m) {
        return refused_at(answer::table::BITS, p.given, p);
    }
    let e = entry::entry_at(s, at, w, m, p.last);
    let next = e.next;
    if len < whole_bytes(next) {
        return refused_at(answer::table::BITS, p.given, p);
    }
    Answer::Value(
        e.value,
        Position {
            at: next,
            given: p.given + 1,
            width: w,
            last: e.value,
        },
    )
}

// One value of the column s of n values, or the end, or a refusal. Any position is taken.
pub fn step(s: &[u8], n: usize, p: Position) -> Answer
    ensures { result ≡ answer_with p (step_of 64 s.now n p) }
{
    if MOST_VERTICES < n {
        return refused(answer::table::MANY, p);
    }
    let given = p.given;
    if given == 0 {
        first(s, n, p)
    } else {
        later(s, n, p)
    }
}
