// The lines of the input, and text cut in two.
ghost use Rattle.std.specs.Prelude.{◌≡◌, ℕ, ◌<◌, List, ◌++◌, ◌∷◌, length, IfSome, MatchOption};
ghost use Rattle.std.specs.Iterator.{at_most};
ghost use Rattle.cases_rows.specs.Row.{IsLine};

// What stands before the first b, and what stands after it; None where there is no b.
pub fn split_once(s: &[u8], b: u8) -> Option<(&[u8], &[u8])>
    ensures { IfSome result (λ p. s.now ≡ p.0.now ++ (b ∷ p.1.now)) }
{
    let n = s.iter().position(|x| *x == b)?;
    Some((&s[..n], &s[n + 1..]))
}

// The same parts, or all of s and nothing where there is no b.
fn cut_at(s: &[u8], b: u8) -> (&[u8], &[u8])
    ensures parts { (cut : List ℕ) × (s.now ≡ result.0.now ++ (cut ++ result.1.now)) }
    ensures fewer { 0 < length s.now → length result.1.now < length s.now }
{
    match split_once(s, b) {
        Some(parts) => parts,
        None => (s, &[]),
    }
}

// Each line without its end and its comment. An empty line is one, but not behind the end of the last.
#[derive(Drop)]
pub struct Lines<'a>(pub &'a [u8]);

impl<'a> Iterator for Lines<'a> {
    type Item = &'a [u8];

    ghost next_gives = { λ s r t. MatchOption r ((length s.0.now ≡ 0) × (length t.0.now ≡ 0)) (λ line. IsLine s.0.now line.now t.0.now) };

    ghost remaining = { λ s. at_most (length s.0.now) };

    fn next(&mut self) -> Option<&'a [u8]> {
        if self.0.is_empty() {
            return None;
        }
        let (line, others) = cut_at(self.0, b'\n');
        self.0 = others;
        Some(cut_at(line, b'#').0)
    }
}
