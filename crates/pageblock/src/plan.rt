// What is known of a page's body before a byte of it is put.
ghost use Rattle.std.specs.Prelude.{◌≡◌, ◌+◌, ◌≤◌, length};
ghost use Rattle.answer.specs.Limits.{vertex_limit, most_page_shapes};
ghost use Rattle.frame.specs.Layout.{layout_of};
ghost use Rattle.pageblock.specs.Ready.{Sized};

use crate::lists::PageLists;
use column::write::{Fitted, fit};
use frame::layout::{Layout, layout_of};

// The edition, where the parts stand, the width and the size of each column, and the bytes of the whole.
#[derive(Clone, Copy)]
pub(crate) struct Plan {
    pub edition: usize,
    pub layout: Layout,
    pub x: Fitted,
    pub y: Fitted,
    pub len: usize,
}

// The plan of a page of these lists.
pub(crate) fn plan_of(edition: usize, lists: PageLists) -> Plan
    requires shapes { length lists.registers.now ≤ most_page_shapes }
    requires parts { length lists.lens.now ≤ vertex_limit }
    requires vertices { length lists.xs.now ≤ vertex_limit }
    requires even { length lists.ys.now ≤ vertex_limit }
    ensures edition { result.edition ≡ edition }
    ensures layout { result.layout ≡ layout_of edition (length lists.entry.registers.now) (length lists.entry.lens.now) }
    ensures columns { Sized lists.entry.xs.now result.x × Sized lists.entry.ys.now result.y }
    ensures whole { result.len ≡ result.layout.columns + result.x.bytes + result.y.bytes }
{
    let layout = layout_of(edition, lists.registers.len(), lists.lens.len());
    let x = fit(lists.xs);
    let y = fit(lists.ys);
    let len = layout.columns + x.bytes + y.bytes;
    Plan {
        edition,
        layout,
        x,
        y,
        len,
    }
}
