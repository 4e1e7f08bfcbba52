//! Regexes that wait for a number.

ghost use Rattle.std.specs.Prelude.{◌≡◌, ◌++◌, ◌∷◌, Bool, [], List, filter, map, OnOk};
ghost use Rattle.sb_regex.specs.Nodes.{node_parts};
ghost use Rattle.sb_trace.specs.Defining.{is_lacking};
ghost use Rattle.sb_trace.specs.Waiting.{waits, stack_of};

use crate::node::{has_number, part_at, part_count};
use indexmap::IndexSet;
use sb_regex::{Node, RegexId};
use std::alloc::AllocError;

/// A regex that waits for a number.
#[derive(Clone, Copy)]
pub(crate) struct Frame {
    pub(crate) regex: RegexId,
    /// The parts that have no number wait above it.
    pub(crate) entered: bool,
}

/// Puts a regex on the stack.
pub(crate) fn wait(stack: &mut Vec<Frame>, regex: RegexId, entered: bool) -> Result<(), AllocError>
    ensures { OnOk result (stack_of stack.new.items
        ≡ (record { regex = regex; entered = entered }) ∷ stack_of stack.old.items) }
{
    stack.push(Frame { regex, entered })?;
    Ok(())
}

/// Puts the parts that have no number on the stack, the first one on top.
pub(crate) fn wait_for_parts(
    stack: &mut Vec<Frame>,
    order: &IndexSet<RegexId>,
    node: &Node,
) -> Result<(), AllocError>
    ensures { OnOk result (stack_of stack.new.items
        ≡ map waits (filter (is_lacking order.now.keys) (node_parts node.now)) ++ stack_of stack.old.items) }
{
    let mut place = part_count(node);
    while place > 0 {
        place -= 1;
        wait_for_part(stack, order, part_at(node, place).unwrap())?;
    }
    Ok(())
}

/// Puts a part on the stack, if it has no number.
fn wait_for_part(
    stack: &mut Vec<Frame>,
    order: &IndexSet<RegexId>,
    part: RegexId,
) -> Result<(), AllocError>
    ensures { OnOk result (stack_of stack.new.items
        ≡ map waits (filter (is_lacking order.now.keys) (part ∷ [])) ++ stack_of stack.old.items) }
{
    if has_number(order, part) {
        return Ok(());
    }
    wait(stack, part, false)
}
