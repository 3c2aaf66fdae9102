// Rules 12 to 15 in order: for a page's shapes, and for any outlines.
ghost use Rattle.std.specs.Prelude.{◌≡◌};
ghost use Rattle.shape.specs.Outline.{outlines_in};
ghost use Rattle.shape.specs.Rules.{ring_rules, outline_rules_in};

use crate::lists::Lists;
use crate::rules::{finite_rule, grid_rule, ring_rule, turn_rule};
use answer::Refusal;

// 13, 14, 15, each over the page before the next.
pub fn ring_rules(lists: Lists<'_>) -> Result<(), Refusal>
    ensures { result ≡ ring_rules (outlines_in lists.entry) }
{
    ring_rule(lists)?;
    grid_rule(lists)?;
    turn_rule(lists)
}

// 12 and then those.
pub fn outline_rules(lists: Lists<'_>) -> Result<(), Refusal>
    ensures { result ≡ outline_rules_in lists.entry }
{
    finite_rule(lists.xs, lists.ys)?;
    ring_rules(lists)
}
