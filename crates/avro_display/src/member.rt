use avro_schema::NodeId;

/// A field of a record where it stands in the display: its index, its node, and the text before its
/// value.
#[derive(Drop)]
pub struct Member {
    /// Its index among the fields.
    pub field: usize,
    /// The node of its data.
    pub node: NodeId,
    pub(crate) head: Vec<u8>,
}

impl Member {
    ghost use Rattle.std.specs.Prelude.{◌≡◌};

    /// The text before its value: a brace if it is the first and else a comma, its name as the text of a key, and a colon.
    pub fn head(&self) -> &[u8]
        ensures { result.now ≡ self.now.head.items }
    {
        &self.head
    }
}
