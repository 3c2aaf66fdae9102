// The head of a page: its counts, its box and its layout; the rules that it has to meet, and how it is read where it meets them.
ghost use Rattle.std.specs.Prelude.{◌≡◌, ◌+◌, ◌≤◌, length};
ghost use Rattle.answer.specs.Limits.{vertex_limit, most_page_shapes};
ghost use Rattle.answer.specs.Outcome.{ok};
ghost use Rattle.answer.specs.Rule.{passed};
ghost use Rattle.extent.specs.Boxes.{bounds_at, FiniteBox};
ghost use Rattle.extent.specs.Forms.{floats_of};
ghost use Rattle.frame.specs.declared.head.Head.{Head};
ghost use Rattle.frame.specs.Layout.{bounds_place, first_bytes};
ghost use Rattle.frame.specs.Head.{counts_ok, all_zero, box_ok, sized_head, head_of};

use crate::layout::{BOUNDS, FIRST, Layout, PARTS, SECOND_SIZE, SHAPES, VERTICES, layout_of};
use answer::limits::{MOST_PAGE_SHAPES, MOST_VERTICES};
use answer::table::{BOX_FORM, COUNTS, LENGTHS};
use answer::{Refusal, rule};
use extent::bounds::{Bounds, bounds_at, good_patterns};
use extent::boxes::{Box, box_with};
use le::number::{u16_at, u32_at};

// What stands before a page's shapes: how many shapes, vertices and parts, the box, the byte lengths of the two columns, and the layout.
#[derive(Clone, Copy)]
pub struct Head {
    pub g: usize,
    pub v: usize,
    pub p: usize,
    pub stored: Box,
    pub cx: usize,
    pub cy: usize,
    pub layout: Layout,
}

// Whether the counts are within the limits.
#[tactic(auto, unfolding(crate::specs::Head::counts_ok))]
pub fn counts_ok(g: usize, v: usize, p: usize) -> bool
    ensures { result ≡ counts_ok g v p }
{
    1 <= g && g <= MOST_PAGE_SHAPES && v <= MOST_VERTICES && p <= v && (p != 0 || v == 0)
}

// Whether four patterns are all zero bytes.
#[tactic(auto, unfolding(crate::specs::Head::all_zero))]
fn all_zero(p: Bounds) -> bool
    ensures { result ≡ all_zero p }
{
    p.least_x == 0 && p.least_y == 0 && p.greatest_x == 0 && p.greatest_y == 0
}

// Whether the box in a page's body is of the form that v vertices ask for.
fn box_ok(v: usize, b: &[u8]) -> bool
    requires { first_bytes ≤ length b.now }
    ensures { result ≡ box_ok v (bounds_at b.now bounds_place) }
{
    let p = bounds_at(b, BOUNDS);
    if v == 0 {
        return all_zero(p);
    }
    good_patterns(p)
}

// The rules of a body whose counts are read: its exact length, then the form of its box.
fn sized_rules(edition: usize, b: &[u8], g: usize, v: usize, p: usize) -> Result<(), Refusal>
    requires { (first_bytes ≤ length b.now) × (g ≤ most_page_shapes) × (p ≤ vertex_limit) }
    ensures { result ≡ passed (sized_head edition b.now g v p) }
{
    let layout = layout_of(edition, g, p);
    let sizes = layout.sizes;
    let columns = layout.columns;
    if b.len() < columns {
        return Err(Refusal::because(LENGTHS));
    }
    let cx = u32_at(b, sizes);
    let cy = u32_at(b, sizes + SECOND_SIZE);
    if b.len() - columns != cx + cy {
        return Err(Refusal::because(LENGTHS));
    }
    rule(box_ok(v, b), BOX_FORM)
}

// The rules of a page's head, over any bytes for its body.
pub fn head_rules(edition: usize, b: &[u8]) -> Result<(), Refusal>
    ensures { result ≡ passed (head_of edition b.now) }
{
    if b.len() < FIRST {
        return Err(Refusal::because(LENGTHS));
    }
    let g = u16_at(b, SHAPES);
    let v = u16_at(b, VERTICES);
    let p = u16_at(b, PARTS);
    if !counts_ok(g, v, p) {
        return Err(Refusal::because(COUNTS));
    }
    sized_rules(edition, b, g, v, p)
}

// The box that stands in bytes from a place on, of four finite patterns.
pub(crate) fn box_at(s: &[u8], at: usize) -> Box
    requires { (at + 32 ≤ length s.now) × FiniteBox (bounds_at s.now at) }
    ensures { result ≡ floats_of (bounds_at s.now at) }
{
    box_with(bounds_at(s, at))
}

// The head of a body that the rules let pass.
pub(crate) fn read_head(edition: usize, b: &[u8]) -> Head
    requires { (h : Head) × (head_of edition b.now ≡ ok h) }
    ensures { head_of edition b.now ≡ ok result }
{
    let g = u16_at(b, SHAPES);
    let v = u16_at(b, VERTICES);
    let p = u16_at(b, PARTS);
    let layout = layout_of(edition, g, p);
    let sizes = layout.sizes;
    Head {
        g,
        v,
        p,
        stored: box_at(b, BOUNDS),
        cx: u32_at(b, sizes),
        cy: u32_at(b, sizes + SECOND_SIZE),
        layout,
    }
}
