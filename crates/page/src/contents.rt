// A page's contents, read into a scratch that the caller lends: "each rule over the page before the next: 11, x column, y column, 12, 13, 14, 15,
// 16". The columns are decoded once.
ghost use Rattle.std.specs.Prelude.{◌≡◌, ℕ};
ghost use Rattle.answer.specs.Outcome.{ok};
ghost use Rattle.extent.specs.Boxes.{patterns, FiniteBox};
ghost use Rattle.frame.specs.Head.{head_of};
ghost use Rattle.page.specs.Loaded.{ScratchFor, vertex_rules_in, Loads};

use crate::columns::columns;
use answer::Refusal;
use answer::table::FINITE;
use extent::boxes::{Box, box_if_finite};
use frame::head::Head;
use le::run::read_u16s;
use shape::lists::Lists;
use shape::ordered::ring_rules;
use shape::rules::box_rule;
use types::parts::parts_rule;

// 12 to 16 over a page's shapes: one walk over the vertices serves 12 and 16.
fn vertex_rules(stored: Box, lists: Lists<'_>) -> Result<(), Refusal>
    requires { FiniteBox (patterns stored) }
    ensures { result ≡ vertex_rules_in (patterns stored) lists.entry }
{
    let Some(own) = box_if_finite(lists.xs, lists.ys) else {
        return Err(Refusal::because(FINITE));
    };
    ring_rules(lists)?;
    box_rule(stored, own, lists.xs.len())
}

// The contents of a page with a head that was read from its body. The scratch has room for exactly as many part counts, part lengths and
// vertices as the head says.
pub(crate) fn load(
    b: &[u8],
    h: Head,
    counts: &mut [u16],
    lens: &mut [u16],
    xs: &mut [u64],
    ys: &mut [u64],
) -> Result<(), Refusal>
    requires by_index { (e : ℕ) × (head_of e b.now ≡ ok h) }
    requires scratch_for { ScratchFor h counts.old lens.old xs.old ys.old }
    ensures { Loads h b.now result counts.new lens.new xs.new ys.new }
{
    read_u16s(b, h.layout.counts, counts);
    read_u16s(b, h.layout.lens, lens);
    let from = h.layout.types;
    let to = from + h.g;
    parts_rule(&b[from..to], counts, lens, h.v)?;
    columns(b, h, xs, ys)?;
    let lists = Lists {
        types: &b[from..to],
        counts,
        lens,
        xs,
        ys,
    };
    vertex_rules(h.stored, lists)
}
