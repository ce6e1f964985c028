// The fields of a line, and the numbers in them.
ghost use Rattle.std.specs.Prelude.{◌≡◌};
ghost use Rattle.script.specs.Decimal.{number_of};

// A field as a number. The library's `parse` would take a plus sign in front, and a 0 in front of other digits.
pub fn number(s: &[u8]) -> Option<u32>
    ensures { result ≡ number_of s.now }
{
    if s.is_empty() || s[0] == b'+' || (1 < s.len() && s[0] == b'0') {
        return None;
    }
    str::from_utf8(s).ok()?.parse().ok()
}
