ghost use Rattle.std.specs.Prelude.{◌≡◌, Decides, MatchOption};
ghost use Rattle.texts.specs.Cuts.{FirstCut, Lacks};

// The parts before and after the first such byte.
pub fn cut(s: &[u8], byte: u8) -> Option<(&[u8], &[u8])>
    ensures { MatchOption result (Lacks byte s.now) (λ p. FirstCut byte s.now p.0.now p.1.now) }
{
    let at = s.iter().position(|x| *x == byte)?;
    Some((&s[..at], &s[at + 1..]))
}

// Whether two byte strings are the same. No crate here calls it; by a rule of the project public
// calls stay.
pub fn same(a: &[u8], b: &[u8]) -> bool
    ensures { Decides result (a.now ≡ b.now) }
{
    a == b
}
