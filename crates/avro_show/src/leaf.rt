//! The display of a datum without parts.

ghost use Rattle.std.specs.Prelude.{◌≡◌, ◌++◌, List, true, OnOk};
ghost use Rattle.avro_schema.specs.Fits.{fits};
ghost use Rattle.avro_schema.specs.Node.{Node as SeenNode};
ghost use Rattle.avro_schema.specs.Seen.{node_of};
ghost use Rattle.avro_binary.specs.LeafValue.{leaf_value};
ghost use Rattle.avro_binary.specs.Outputs.{Grows};
ghost use Rattle.avro_display.specs.DisplayTree.{display_text};

use avro_binary::Leaf;
use avro_display::{Text, symbol_text};
use avro_schema::Node;
use std::alloc::AllocError;

/// Appends the display of a datum without parts of a node.
#[inline(always)]
pub(crate) fn append_leaf(text: &mut Text, node: &Node, leaf: Leaf<'_>) -> Result<(), AllocError>
    ensures shown { (nodes : List SeenNode) → fits nodes (node_of node.now) (leaf_value leaf.entry) ≡ true
        → OnOk result (text.new ≡ text.old ++ display_text nodes (node_of node.now) (leaf_value leaf.entry)) }
    ensures kept { OnOk result (Grows text.old text.new) }
{
    match leaf {
        Leaf::Null => text.append_null(),
        Leaf::Boolean(value) => text.append_bool(value),
        Leaf::Int(value) => text.append_number(i64::from(value)),
        Leaf::Long(value) => text.append_number(value),
        Leaf::Bytes(content) => text.append_characters(content),
        Leaf::Text(string) => text.append_quoted(string),
        Leaf::Fixed(content) => text.append_characters(content),
        Leaf::Symbol(index) => text.append_quoted(symbol_text(node, index)),
    }
}
