//! The parts of a graph as items.
ghost use Rattle.std.specs.Prelude.{◌≡◌, IfOk};
ghost use Rattle.hpr_order.specs.Arranging.{IsProperItem};

use hpr_graph::{Content, NoMemory, Tag};
use hpr_syntax::proper::{read_content, read_tag};
use std::alloc::Global;

/// A part of a graph, with where it stands: at the top, or in the first block (true) or the second of the
/// item with this number.
pub struct Item {
    pub tag: Tag,
    pub content: Content,
    pub slot: Option<(usize, bool)>,
}

/// An item is dropped in one call.
impl Drop for Item {
    fn drop(self) {
        let Item {
            tag: _,
            content: _,
            slot: _,
        } = self;
    }
}

/// The part that says this, as an item.
pub(crate) fn item_of(
    alloc: Global,
    tag: Tag,
    content: &Content,
    slot: Option<(usize, bool)>,
) -> Result<Item, NoMemory>
    ensures item { IfOk result (λ i. i ≡ record { tag = tag; content = content.now; slot = slot }) }
    ensures proper { IfOk result (λ i. IsProperItem i) }
{
    read_tag(tag);
    read_content(content);
    let content = content.copy(alloc)?;
    Ok(Item { tag, content, slot })
}
