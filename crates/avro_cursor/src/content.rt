ghost use Rattle.std.specs.Prelude.{◌<◌, ◌^◌, ℕ, slice_index};

/// Does nothing at run time. It tells the proof that each byte is below 256.
#[inline(always)]
pub fn drop_content(_content: &[u8])
    ensures { (i : ℕ) → slice_index _content.now i < 2 ^ 8 }
{}
