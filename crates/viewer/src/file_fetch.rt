// The fetching of one shape, as one word.
ghost use Rattle.std.specs.Prelude.{◌≡◌, [], ◌∷◌, ◌++◌, ◌≤◌, length, drop};
ghost use Rattle.answer.specs.Table as table;
ghost use Rattle.answer.specs.Refusal.{because};
ghost use Rattle.answer.specs.Outcome.{refused, on};
ghost use Rattle.fetch.specs.Fetch.{shape_in, rooms_of};
ghost use Rattle.viewer.specs.Word.{word_of};
ghost use Rattle.viewer.specs.Fetch.{fetch_call, ShownIn};

use crate::four::put_four;
use crate::word::{number_word, refusal_word};
use answer::table::ROOM;
use fetch::fetch::{Found, fetch};

// With no room: what is refused before it, or 2.
fn without_room(file: &[u8], place: usize) -> u64
    ensures { result ≡ word_of (on (shape_in file.now place) (λ _. refused (because table.room))) }
{
    let mut lens = [0u16; 0];
    let mut xs = [0u64; 0];
    let mut ys = [0u64; 0];
    match fetch(file, place, &mut lens, &mut xs, &mut ys) {
        Err(w) => refusal_word(w),
        Ok(_) => number_word(ROOM),
    }
}

// The words about a shape: register, type, number of parts, number of vertices.
fn put_about(about: &mut [u64], f: Found)
    requires { 4 ≤ length about.old }
    ensures { about.new ≡ (f.register ∷ f.kind ∷ f.parts ∷ f.vertices ∷ []) ++ drop 4 about.old }
{
    put_four(
        about,
        f.register as u64,
        f.kind as u64,
        f.parts as u64,
        f.vertices as u64,
    );
}

// The number of vertices of the shape at a place, with the words about it, its part lengths and its patterns at the start of the four rooms; or the
// refusal, which leaves them.
pub fn boundary_fetch(
    file: &[u8],
    place: u64,
    about: &mut [u64],
    lens: &mut [u16],
    xs: &mut [u64],
    ys: &mut [u64],
) -> u64
    ensures { ShownIn (fetch_call file.now place (length about.old) (rooms_of lens.old xs.old ys.old)) about lens xs ys result }
{
    if about.len() < 4 {
        return without_room(file, place as usize);
    }
    match fetch(file, place as usize, lens, xs, ys) {
        Err(w) => refusal_word(w),
        Ok(f) => {
            put_about(about, f);
            f.vertices as u64
        }
    }
}
