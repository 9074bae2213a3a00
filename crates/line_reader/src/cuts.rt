// Bytes cut in two.
ghost use Rattle.std.specs.Prelude.{◌≡◌, ◌++◌, ◌∷◌, MatchOption};
ghost use Rattle.line_reader.specs.Spellings.{HasNo};

/// The bytes before the first `end`, and those behind it, or none where it stands nowhere.
pub(crate) fn cut_at(bytes: &[u8], end: u8) -> Option<(&[u8], &[u8])>
    ensures { MatchOption result (HasNo end bytes.now)
        (λ parts. HasNo end parts.0.now × (bytes.now ≡ parts.0.now ++ end ∷ parts.1.now)) }
{
    let front = bytes.iter().take_while(|byte| **byte != end).count();
    if front == bytes.len() {
        return None;
    }
    Some((&bytes[..front], &bytes[front + 1..]))
}
