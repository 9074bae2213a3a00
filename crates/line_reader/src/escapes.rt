// Bytes that are written with a backslash.
ghost use Rattle.std.specs.Prelude.{◌≡◌, ◌≤◌, ◌<◌, ◌↔◌, ◌++◌, ◌∷◌, [], ℕ, IsTrue, MatchOption, IfSome, drop, length};
ghost use Rattle.line_reader.specs.Spellings.{spelling, StopsAt};

/// Which bytes are escaped: those of a text, or those of a namespace.
#[derive(Clone, Copy)]
pub(crate) enum Escapes {
    Text,
    Namespace,
}

impl Escapes {
    /// The byte for which the letter stands behind a backslash.
    fn escaped(self, letter: u8) -> Option<u8>
        ensures { MatchOption result ((byte : ℕ) → spelling self byte ≡ 92 ∷ letter ∷ [] → ⊥)
            (λ byte. spelling self byte ≡ 92 ∷ letter ∷ []) }
    {
        match (letter, self) {
            (b'\\', _) => Some(b'\\'),
            (b'n', _) => Some(b'\n'),
            (b'r', _) => Some(b'\r'),
            (b's', Escapes::Namespace) => Some(b' '),
            (b'{' | b'}', Escapes::Namespace) => Some(letter),
            _ => None,
        }
    }

    /// Whether the byte stands for itself.
    fn is_plain(self, byte: u8) -> bool
        ensures { IsTrue result ↔ (spelling self byte ≡ byte ∷ []) }
    {
        match self {
            Escapes::Text => !matches!(byte, b'\\' | b'\n' | b'\r'),
            Escapes::Namespace => !matches!(byte, b'\\' | b'\n' | b'\r' | b' ' | b'{' | b'}'),
        }
    }

    /// The byte whose spelling the bytes begin with, and how many bytes that takes.
    pub(crate) fn first_byte(self, bytes: &[u8]) -> Option<(u8, usize)>
        ensures value { MatchOption result (StopsAt self bytes.now)
            (λ first. bytes.now ≡ spelling self first.0 ++ drop first.1 bytes.now) }
        ensures within { IfSome result (λ first. first.1 ≤ length bytes.now) }
        ensures some { IfSome result (λ first. 0 < first.1) }
    {
        match bytes {
            [b'\\', letter, ..] => {
                let byte = self.escaped(*letter)?;
                Some((byte, 2))
            }
            [byte, ..] if self.is_plain(*byte) => Some((*byte, 1)),
            _ => None,
        }
    }
}
