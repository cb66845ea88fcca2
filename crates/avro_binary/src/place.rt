use avro_schema::NodeId;

/// Where a datum goes: it is of a node of the schema whose data are made, and the value of a branch of a union where the index of
/// one is given.
#[derive(Clone, Copy, Debug, PartialEq, Eq)]
pub struct Place {
    /// The node.
    pub node: NodeId,
    /// The index of the branch.
    pub branch: Option<u32>,
}

impl Place {
    ghost use Rattle.std.specs.Prelude.{◌≡◌};
    ghost use Rattle.avro_binary.specs.Places.{alone, branch_place};

    /// The place of a datum that is in no union.
    #[inline(always)]
    pub fn of(node: NodeId) -> Place
        ensures { result ≡ alone node.0 }
    {
        Place { node, branch: None }
    }

    /// The place of the value of a union's branch, which is of a node.
    #[inline(always)]
    pub fn in_branch(branch: u32, node: NodeId) -> Place
        ensures { result ≡ branch_place branch node.0 }
    {
        Place {
            node,
            branch: Some(branch),
        }
    }
}
