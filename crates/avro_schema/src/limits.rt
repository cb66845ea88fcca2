use std::marker::Model;

/// Limits on a writer's datum: its depth, its number of nodes, and the length of any bytes, string,
/// key or fixed.
#[derive(Clone, Copy, Debug)]
pub struct Limits {
    depth: u32,
    nodes: u32,
    blob: u32,
}

impl Model for Limits {
    ghost use Rattle.std.specs.Prelude.{◌≤◌};
    ghost use Rattle.avro_schema.specs.Fits.{LimitValues};
    ghost use Rattle.avro_schema.specs.Ranges.{AreLimits};

    ghost Value = { LimitValues };

    ghost view = { λ l. record { depth = l.depth; nodes = l.nodes; blob = l.blob } };

    ghost invariant = { λ l. AreLimits (record { depth = l.depth; nodes = l.nodes; blob = l.blob }) };

    ghost inverse = { λ l. record { depth = l.depth; nodes = l.nodes; blob = l.blob } };
}

impl Default for Limits {
    ghost use Rattle.std.specs.Prelude.{◌≡◌};

    ghost is_default = { λ limits. limits ≡ record { depth = 128; nodes = 1048576; blob = 16777216 } };

    /// Depth 128, 1,048,576 nodes, and 16,777,216 bytes per part.
    fn default() -> Limits {
        Limits {
            depth: 128,
            nodes: 1_048_576,
            blob: 16_777_216,
        }
    }
}

impl Limits {
    ghost use Rattle.std.specs.Prelude.{◌≡◌, SomeIff};
    ghost use Rattle.avro_schema.specs.Ranges.{AreLimits};

    /// The greatest limit on depth.
    pub const MAX_DEPTH: u32 = 256;

    /// The greatest limit on the number of nodes.
    pub const MAX_NODES: u32 = 16_777_216;

    /// The greatest limit on a length, in bytes.
    pub const MAX_BLOB: u32 = 16_777_216;

    /// Limits, or `None` if one of them is 0 or too large.
    pub fn new(depth: u32, nodes: u32, blob: u32) -> Option<Limits>
        ensures { SomeIff result (AreLimits (record { depth = depth; nodes = nodes; blob = blob })) (record { depth = depth; nodes = nodes; blob = blob }) }
    {
        let in_range = (1..=Limits::MAX_DEPTH).contains(&depth)
            && (1..=Limits::MAX_NODES).contains(&nodes)
            && (1..=Limits::MAX_BLOB).contains(&blob);
        if in_range {
            Some(Limits { depth, nodes, blob })
        } else {
            None
        }
    }

    /// The greatest depth.
    pub fn depth(&self) -> u32
        ensures depth { result ≡ self.now.depth }
        ensures in_range { AreLimits self.now }
    {
        self.depth
    }

    /// The greatest number of nodes.
    pub fn nodes(&self) -> u32
        ensures nodes { result ≡ self.now.nodes }
        ensures in_range { AreLimits self.now }
    {
        self.nodes
    }

    /// The greatest length of any bytes, string, key or fixed, in bytes.
    pub fn blob(&self) -> u32
        ensures blob { result ≡ self.now.blob }
        ensures in_range { AreLimits self.now }
    {
        self.blob
    }
}
