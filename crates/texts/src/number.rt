ghost use Rattle.std.specs.Prelude.{◌≡◌, ℕ, ◌+◌, ◌<◌, MatchOption, ◌≢◌};
ghost use Rattle.texts.specs.Numbers.{Numeral};

// What 64 bits hold in any case: 10^19 is less than 2^64.
const SAFE_DIGITS: usize = 19;

fn digit(byte: u8) -> Option<u8>
    ensures { MatchOption result ((d : ℕ) → d < 10 → byte ≢ 48 + d) (λ d. (d < 10) × (byte ≡ 48 + d)) }
{
    Some(byte.wrapping_sub(b'0')).filter(|d| *d < 10)
}

// The number that a field of at most so many digits writes. By hand: `parse` takes a sign and leading
// zeros, and to refuse these first would be no plainer.
pub fn number(s: &[u8], max_digits: usize) -> Option<usize>
    ensures { MatchOption result ((n : ℕ) → Numeral max_digits n s.now → ⊥) (λ n. Numeral max_digits n s.now) }
{
    if s.is_empty() || s.len() > max_digits || s.len() > SAFE_DIGITS || matches!(s, [b'0', _, ..]) {
        return None;
    }
    let mut n = 0;
    for byte in s {
        n = n * 10 + usize::from(digit(*byte)?);
    }
    Some(n)
}
