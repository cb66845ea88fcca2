use avro_schema::Limits;
use std::marker::Model;

/// Limits on judging: on the product of the two node counts, on the number of nodes of a refuting datum,
/// and limits on data, whose depth also bounds that datum.
#[derive(Clone, Copy, Debug)]
pub struct JudgeLimits {
    pairs: u32,
    size: u32,
    limits: Limits,
}

impl Model for JudgeLimits {
    ghost use Rattle.avro_judge.specs.JudgeRanges.{JudgeLimitValues, AreJudgeLimits};

    ghost Value = { JudgeLimitValues };

    ghost view = { λ l. record { pairs = l.pairs; size = l.size; limits = l.limits } };

    ghost invariant = { λ l. AreJudgeLimits (record { pairs = l.pairs; size = l.size; limits = l.limits }) };

    ghost inverse = { λ l. record { pairs = l.pairs; size = l.size; limits = l.limits } };
}

impl Default for JudgeLimits {
    ghost use Rattle.std.specs.Prelude.{◌≡◌};

    ghost is_default = { λ l. l ≡ record { pairs = 4194304; size = 4096; limits = record { depth = 128; nodes = 1048576; blob = 16777216 } } };

    /// 4,194,304 pairs of nodes, 4,096 nodes in a refuting datum, and the default limits on data.
    fn default() -> JudgeLimits {
        JudgeLimits {
            pairs: 4_194_304,
            size: 4096,
            limits: Limits::default(),
        }
    }
}

impl JudgeLimits {
    ghost use Rattle.std.specs.Prelude.{◌≡◌, SomeIff};
    ghost use Rattle.avro_judge.specs.JudgeRanges.{AreJudgeLimits};

    /// The greatest pair limit.
    pub const MAX_PAIRS: u32 = 16_777_216;

    /// Limits, or `None` if the pairs are 0 or too many, or the size is 0 or over `limits.nodes`.
    pub fn new(pairs: u32, size: u32, limits: Limits) -> Option<JudgeLimits>
        ensures { SomeIff result (AreJudgeLimits (record { pairs = pairs; size = size; limits = limits })) (record { pairs = pairs; size = size; limits = limits }) }
    {
        let in_range = (1..=JudgeLimits::MAX_PAIRS).contains(&pairs)
            && (1..=limits.nodes()).contains(&size);
        if in_range {
            Some(JudgeLimits {
                pairs,
                size,
                limits,
            })
        } else {
            None
        }
    }

    /// The greatest product of the two node counts.
    pub fn pairs(&self) -> u32
        ensures pairs { result ≡ self.now.pairs }
        ensures in_range { AreJudgeLimits self.now }
    {
        self.pairs
    }

    /// The greatest number of nodes of a refuting datum.
    pub fn size(&self) -> u32
        ensures size { result ≡ self.now.size }
        ensures in_range { AreJudgeLimits self.now }
    {
        self.size
    }

    /// The limits on data. Their depth bounds a refuting datum.
    pub fn limits(&self) -> Limits
        ensures limits { result ≡ self.now.limits }
        ensures in_range { AreJudgeLimits self.now }
    {
        self.limits
    }
}
