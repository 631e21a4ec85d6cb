ghost use Rattle.std.specs.Prelude.{◌≡◌, ℕ, ◌<◌, [], ◌∷◌, Decides, MatchOption, ◌≢◌};
ghost use Rattle.std.specs.Char.{digit_char};
ghost use Rattle.texts.specs.Hex.{HexOf, IsHex, Decoded};

use crate::writer::Writer;

// The value of a hex digit. By hand: `char::to_digit` and the kit's `hex` take capital letters too, and to refuse these first
// would be no plainer.
pub fn hex_digit(byte: u8) -> Option<u8>
    ensures { MatchOption result ((d : ℕ) → d < 16 → byte ≢ digit_char d) (λ d. (d < 16) × (byte ≡ digit_char d)) }
{
    match byte {
        b'0'..=b'9' => Some(byte - b'0'),
        b'a'..=b'f' => Some(byte - b'a' + 10),
        _ => None,
    }
}

// The byte that two hex digits write, the upper half first.
pub fn hex_byte(hi: u8, lo: u8) -> Option<u8>
    ensures { MatchOption result ((b : ℕ) → HexOf (hi ∷ (lo ∷ [])) (b ∷ []) → ⊥) (λ b. HexOf (hi ∷ (lo ∷ [])) (b ∷ [])) }
{
    let upper = hex_digit(hi)?;
    let lower = hex_digit(lo)?;
    Some(upper * 16 + lower)
}

// Whether a text is hex of some bytes.
pub fn is_hex(text: &[u8]) -> bool
    ensures { Decides result (IsHex text.now) }
{
    let (pairs, odd) = text.as_chunks::<2>();
    odd.is_empty() && pairs.iter().all(|[hi, lo]| hex_byte(*hi, *lo).is_some())
}

// Decodes a hex text into the front of a buffer, and answers how many bytes it was.
// It looks before it writes, so that a text that is refused leaves the buffer alone. Absent for
// either reason: a `Result` would be no plainer, since who has to tell them apart can ask `is_hex` first.
pub fn decode_hex(text: &[u8], out: &mut [u8]) -> Option<usize>
    ensures { Decoded text.now out.old out.new result }
{
    if text.len() / 2 > out.len() || !is_hex(text) {
        return None;
    }
    let (pairs, _) = text.as_chunks::<2>();
    let mut writer = Writer::over(out);
    for [hi, lo] in pairs {
        writer.put_byte(hex_byte(*hi, *lo).unwrap());
    }
    Some(pairs.len())
}
