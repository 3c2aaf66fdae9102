// A page as a block of its own, at the start of a lent room. Its size is known before a byte is written.
ghost use Rattle.std.specs.Prelude.{◌≡◌, ◌+◌, ◌≤◌, length};
ghost use Rattle.std.proofs.lemmas.List.Edits.{sets};
ghost use Rattle.answer.specs.Lent.{FillsIn};
ghost use Rattle.block.specs.Block.{head_bytes};
ghost use Rattle.pageblock.specs.Body.{handed_of, page_bytes};
ghost use Rattle.pageblock.specs.Page.{page_block_of};
ghost use Rattle.pageblock.specs.Ready.{Planned};

use crate::body::{put_bounds, put_columns, put_counts, put_tables};
use crate::lists::PageLists;
use crate::plan::{Plan, plan_of};
use crate::rules::page_rules;
use answer::Refusal;
use answer::table::ROOM;
use block::kinds::PAGE;
use block::{HEAD, put_head};
use extent::bounds::stored_bounds;
use frame::layout::BOUNDS;

// The bytes of a page's block, by its plan.
fn put_page(d: &mut [u8], plan: Plan, lists: PageLists)
    requires { Planned (handed_of lists) plan × (head_bytes + plan.len ≤ length d.old) }
    ensures { d.new ≡ sets d.old 0 (page_bytes plan.edition (handed_of lists.entry)) }
{
    put_head(d, 0, plan.len, PAGE);
    put_counts(
        d,
        HEAD,
        lists.registers.len(),
        lists.xs.len(),
        lists.lens.len(),
    );
    put_bounds(d, HEAD + BOUNDS, stored_bounds(lists.xs, lists.ys));
    put_tables(d, HEAD, plan.layout, lists);
    put_columns(
        d,
        HEAD + plan.layout.sizes,
        lists.xs,
        lists.ys,
        plan.x,
        plan.y,
    );
}

// The block of a page in an edition, for any lists and any room.
pub fn page_block(edition: usize, room: &mut [u8], lists: PageLists) -> Result<usize, Refusal>
    ensures { FillsIn (page_block_of edition (length room.old) (handed_of lists.entry)) room result }
{
    page_rules(lists)?;
    let plan = plan_of(edition, lists);
    let size = HEAD + plan.len;
    if room.len() < size {
        return Err(Refusal::because(ROOM));
    }
    put_page(room, plan, lists);
    Ok(size)
}
