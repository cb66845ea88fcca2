use avro_schema::Limits;
use std::marker::Model;

/// Limits on a file: on the bytes of its header, the bytes and the number of a block's data, and on each datum.
#[derive(Clone, Copy, Debug)]
pub struct FileLimits {
    header: u32,
    block: u32,
    per_block: u32,
    datum: Limits,
}

impl Model for FileLimits {
    ghost use Rattle.avro_file.specs.BlockFails.{FileLimitValues};
    ghost use Rattle.avro_file.specs.FileRanges.{AreFileLimits};

    ghost Value = { FileLimitValues };

    ghost view = { λ l. record { header = l.header; block = l.block; per_block = l.per_block; datum = l.datum } };

    ghost invariant = { λ l. AreFileLimits (record { header = l.header; block = l.block; per_block = l.per_block; datum = l.datum }) };

    ghost inverse = { λ l. record { header = l.header; block = l.block; per_block = l.per_block; datum = l.datum } };
}

impl Default for FileLimits {
    ghost use Rattle.std.specs.Prelude.{◌≡◌};

    ghost is_default = { λ limits. limits ≡ record { header = 4194304; block = 16777216; per_block = 1048576; datum = record { depth = 128; nodes = 1048576; blob = 16777216 } } };

    /// 4,194,304 bytes in a header, 16,777,216 bytes and 1,048,576 data in a block, and the default limits on a datum.
    fn default() -> FileLimits {
        FileLimits {
            header: 4_194_304,
            block: 16_777_216,
            per_block: 1_048_576,
            datum: Limits::default(),
        }
    }
}

impl FileLimits {
    ghost use Rattle.std.specs.Prelude.{◌≡◌, SomeIff};
    ghost use Rattle.avro_file.specs.FileRanges.{AreFileLimits};

    /// The greatest value of a limit.
    pub const MAX: u32 = 16_777_216;

    /// Limits, or `None` if one of the first three is 0 or too large.
    pub fn new(header: u32, block: u32, per_block: u32, datum: Limits) -> Option<FileLimits>
        ensures { SomeIff result (AreFileLimits (record { header = header; block = block; per_block = per_block; datum = datum })) (record { header = header; block = block; per_block = per_block; datum = datum }) }
    {
        let in_range = (1..=FileLimits::MAX).contains(&header)
            && (1..=FileLimits::MAX).contains(&block)
            && (1..=FileLimits::MAX).contains(&per_block);
        if in_range {
            Some(FileLimits {
                header,
                block,
                per_block,
                datum,
            })
        } else {
            None
        }
    }

    /// The most bytes in a header.
    pub fn header(&self) -> u32
        ensures header { result ≡ self.now.header }
        ensures in_range { AreFileLimits self.now }
    {
        self.header
    }

    /// The most bytes of a block's data.
    pub fn block(&self) -> u32
        ensures block { result ≡ self.now.block }
        ensures in_range { AreFileLimits self.now }
    {
        self.block
    }

    /// The most data in a block.
    pub fn per_block(&self) -> u32
        ensures per_block { result ≡ self.now.per_block }
        ensures in_range { AreFileLimits self.now }
    {
        self.per_block
    }

    /// The limits on each datum.
    pub fn datum(&self) -> Limits
        ensures { result ≡ self.now.datum }
    {
        self.datum
    }
}
