ghost use Rattle.std.specs.Prelude.{◌≡◌, true, false, IfOk};
ghost use Rattle.std.specs.Result.{IfErr};
ghost use Rattle.std.specs.Str.{is_utf8, IsValidUpTo};

use simdutf8::compat;

/// The bytes as text, or the offset up to which they are UTF-8 (RFC 3629). Each check of bytes from outside is this one.
///
/// Most texts are short: for those, the check for long texts takes longer to start than the plain one takes in all.
#[inline(always)]
pub fn text_of(bytes: &[u8]) -> Result<&str, usize>
    ensures text { IfOk result (λ text. (text.now ≡ bytes.now) × (is_utf8 bytes.now ≡ true)) }
    ensures fault { IfErr result (λ end. (is_utf8 bytes.now ≡ false) × IsValidUpTo bytes.now end) }
{
    if bytes.len() < 64 {
        return match std::str::from_utf8(bytes) {
            Ok(text) => Ok(text),
            Err(error) => Err(error.valid_up_to()),
        };
    }
    match compat::from_utf8(bytes) {
        Ok(text) => Ok(text),
        Err(error) => Err(error.valid_up_to()),
    }
}
