// The rules of a page that is handed in, in order. They are the checker's own.
ghost use Rattle.std.specs.Prelude.{◌≡◌};
ghost use Rattle.pageblock.specs.Body.{handed_of};
ghost use Rattle.pageblock.specs.Page.{counts_hold, page_rules};

use crate::lists::PageLists;
use answer::Refusal;
use answer::table::COUNTS;
use frame::head::counts_ok;
use shape::lists::Lists;
use shape::ordered::outline_rules;
use types::parts::parts_rule;

// Whether there is a type and a part count for each register, and a y for each x, and the counts are within the limits.
fn counts_hold(lists: PageLists) -> bool
    ensures { result ≡ counts_hold (handed_of lists.entry) }
{
    if lists.types.len() != lists.registers.len() {
        return false;
    }
    if lists.counts.len() != lists.registers.len() {
        return false;
    }
    if lists.ys.len() != lists.xs.len() {
        return false;
    }
    counts_ok(lists.registers.len(), lists.xs.len(), lists.lens.len())
}

// 6, 11, 12, 13, 14, 15, for any lists.
pub fn page_rules(lists: PageLists) -> Result<(), Refusal>
    ensures { result ≡ page_rules (handed_of lists.entry) }
{
    if !counts_hold(lists) {
        return Err(Refusal::because(COUNTS));
    }
    parts_rule(lists.types, lists.counts, lists.lens, lists.xs.len())?;
    let parted = Lists {
        types: lists.types,
        counts: lists.counts,
        lens: lists.lens,
        xs: lists.xs,
        ys: lists.ys,
    };
    outline_rules(parted)
}
