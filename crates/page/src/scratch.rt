// The scratch that `open` reads a page into: room for the lists of any page, since its arrays are as long as the limits let them be.
ghost use Rattle.std.specs.Prelude.{◌≡◌, replicate};
ghost use Rattle.answer.specs.Limits.{vertex_limit, most_page_shapes};

use answer::limits::{MOST_PAGE_SHAPES, MOST_VERTICES};

// Room for part counts, part lengths, and the patterns of the x and of the y of a page. A caller makes it once, and lends it for every page.
#[derive(Drop)]
pub struct Scratch {
    pub counts: [u16; MOST_PAGE_SHAPES],
    pub lens: [u16; MOST_VERTICES],
    pub xs: [u64; MOST_VERTICES],
    pub ys: [u64; MOST_VERTICES],
}

impl Scratch {
    // One that is all zeros.
    pub fn new() -> Self
        ensures counts { result.counts ≡ replicate most_page_shapes 0 }
        ensures lens { result.lens ≡ replicate vertex_limit 0 }
        ensures xs { result.xs ≡ replicate vertex_limit 0 }
        ensures ys { result.ys ≡ replicate vertex_limit 0 }
    {
        Scratch {
            counts: [0; MOST_PAGE_SHAPES],
            lens: [0; MOST_VERTICES],
            xs: [0; MOST_VERTICES],
            ys: [0; MOST_VERTICES],
        }
    }
}
