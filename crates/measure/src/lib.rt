// The column's services over plain numbers and slices, so that a C program can measure them. They are no part of what is offered.
#![tactic(auto)]

ghost use Rattle.std.specs.Prelude.{◌≡◌, ◌+◌, length};
ghost use Rattle.answer.specs.Outcome.{filled, answered};
ghost use Rattle.column.specs.Read.{read_of};
ghost use Rattle.column.specs.Write.{write_of};
ghost use Rattle.measure.specs.Answers.{number_of, filled_count};
ghost use Rattle.step.specs.Step.{position};
ghost use Rattle.step.specs.Run.{run_from};
ghost use Rattle.measure.specs.Scratch.{scratch_left};
ghost use Rattle.measure.specs.Sum.{sum_of};

use answer::Refusal;
use answer::limits::MOST_VERTICES;
use column::Position;
use step::Answer;

// 0, or the refusal's number.
#[tactic(auto, unfolding(crate::specs::Answers::number_of))]
fn number_of(f: Result<usize, Refusal>) -> u64
    ensures { result ≡ number_of f }
{
    match f {
        Ok(_) => 0,
        Err(w) => le::number::wide(w.number),
    }
}

// How many elements were put in the room, or 2^32 times the refusal's number.
#[tactic(auto, unfolding(crate::specs::Answers::filled_count))]
fn count_of(f: Result<usize, Refusal>) -> u64
    ensures { result ≡ filled_count f }
{
    match f {
        Ok(k) => k as u64,
        Err(w) => le::number::wide(w.number) * 0x1_0000_0000,
    }
}

// Reads n values of a column: 0, or the refusal's number.
#[unsafe(no_mangle)]
pub extern "C" fn measure_read(s: &[u8], n: usize, out: &mut [u64]) -> u64
    ensures word { result ≡ number_of (answered (read_of 64 s.now n (length out.old))) }
    ensures room { out.new ≡ filled (read_of 64 s.now n (length out.old)) out.old }
{
    number_of(column::read::read(s, n, out))
}

// Decodes n values of a column straight into out: the same number. A refusal by 3 or 2 leaves out as it was.
#[unsafe(no_mangle)]
pub extern "C" fn measure_decode(s: &[u8], n: usize, out: &mut [u64]) -> u64
    ensures word { result ≡ number_of (answered (read_of 64 s.now n (length out.old))) }
    ensures room { out.new ≡ scratch_left 64 s.now n out.old }
{
    if MOST_VERTICES < n {
        return le::number::wide(answer::table::MANY);
    }
    if out.len() < n {
        return le::number::wide(answer::table::ROOM);
    }
    number_of(column::read::decode(s, n, out))
}

// Writes the column of vs: its size in bytes, or 2^32 times the refusal's number.
#[unsafe(no_mangle)]
pub extern "C" fn measure_write(vs: &[u64], out: &mut [u8]) -> u64
    ensures word { result ≡ filled_count (answered (write_of 64 vs.now (length out.old))) }
    ensures room { out.new ≡ filled (write_of 64 vs.now (length out.old)) out.old }
{
    count_of(column::write::write(vs, out))
}

// Reads a column of at most 2,048 values one by one: the sum of the values that the run gives, wrapped at 64 bits.
#[unsafe(no_mangle)]
pub extern "C" fn measure_steps(s: &[u8], n: usize) -> u64
    ensures { result ≡ sum_of (run_from 64 s.now n (n + 1) (position 0 0 0 0)).got }
{
    if MOST_VERTICES < n {
        return 0;
    }
    let mut p = Position {
        at: 0,
        given: 0,
        width: 0,
        last: 0,
    };
    let mut sum: u64 = 0;
    for _ in 0..=n {
        let a = step::step(s, n, p);
        match a {
            Answer::Value(v, q) => {
                sum = sum.wrapping_add(v);
                p = q;
            }
            Answer::End(_) => {
                return sum;
            }
            Answer::Refused(_, _) => {
                return sum;
            }
        }
    }
    sum
}
