// Rule 11: no type over 6, and a page's part counts and part lengths go by the table and the sums.
ghost use Rattle.std.specs.Prelude.{◌≡◌, ◌<◌, eqb};
ghost use Rattle.types.specs.Parts.{total, fits, lengths_fit, row_agrees, shape_agrees, parts_agree, parts_hold, parts_rule};

use crate::rows::{MULTI_POLYGON, TypeRow, row_of};
use answer::table::PARTS;
use answer::{Refusal, rule};

// The sum of part lengths, which fits.
pub fn total(lens: &[u16]) -> usize
    requires { total lens.now < 18446744073709551616 }
    ensures { result ≡ total lens.now }
{
    lens.iter().map(|n| usize::from(*n)).sum()
}

// Whether the part lengths sum up to v, whatever they sum up to.
fn sum_is(lens: &[u16], v: usize) -> bool
    ensures { result ≡ eqb (total lens.now) v }
{
    let mut left = v;
    for n in lens {
        let n = usize::from(*n);
        if left < n {
            return false;
        }
        left -= n;
    }
    left == 0
}

// Whether a number is from least to most.
#[tactic(auto, unfolding(crate::specs::Parts::fits))]
fn fits(least: u16, most: u16, n: u16) -> bool
    ensures { result ≡ fits least most n }
{
    least <= n && n <= most
}

// Whether each part has as many vertices as the row says.
fn lengths_fit(r: TypeRow, lens: &[u16]) -> bool
    ensures { result ≡ lengths_fit r lens.now }
{
    lens.iter()
        .all(|n| fits(r.least_vertices, r.most_vertices, *n))
}

// Whether c parts, the first of those left, go by a row.
#[tactic(auto, unfolding(crate::specs::Parts::row_agrees))]
fn row_agrees(r: TypeRow, c: u16, lens: &[u16]) -> bool
    ensures { result ≡ row_agrees r c lens.now }
{
    let n = usize::from(c);
    fits(r.least_parts, r.most_parts, c) && n <= lens.len() && lengths_fit(r, &lens[..n])
}

// Whether a shape of type t with c parts, the first of those left, goes by the table.
#[tactic(auto, unfolding(crate::specs::Parts::shape_agrees))]
fn shape_agrees(t: u8, c: u16, lens: &[u16]) -> bool
    ensures { result ≡ shape_agrees t c lens.now }
{
    t <= MULTI_POLYGON && row_agrees(row_of(t), c, lens)
}

// Whether each shape goes by the table, each with its own parts, and no part is left.
fn parts_agree(types: &[u8], counts: &[u16], lens: &[u16]) -> bool
    ensures { result ≡ parts_agree types.now counts.now lens.now }
{
    if types.len() != counts.len() {
        return false;
    }
    let mut k: usize = 0;
    for (t, c) in types.iter().zip(counts) {
        if !shape_agrees(*t, *c, &lens[k..]) {
            return false;
        }
        k += usize::from(*c);
    }
    k == lens.len()
}

// Whether rule 11 holds, for any lists.
#[tactic(auto, unfolding(crate::specs::Parts::parts_hold))]
fn parts_hold(types: &[u8], counts: &[u16], lens: &[u16], v: usize) -> bool
    ensures { result ≡ parts_hold types.now counts.now lens.now v }
{
    parts_agree(types, counts, lens) && sum_is(lens, v)
}

// Rule 11, for any lists.
pub fn parts_rule(types: &[u8], counts: &[u16], lens: &[u16], v: usize) -> Result<(), Refusal>
    ensures { result ≡ parts_rule types.now counts.now lens.now v }
{
    rule(parts_hold(types, counts, lens, v), PARTS)
}
