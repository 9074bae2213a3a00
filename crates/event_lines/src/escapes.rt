// Bytes that are written with a backslash.
ghost use Rattle.std.specs.Prelude.{◌≡◌, ◌∷◌, [], MatchOption};
ghost use Rattle.event_lines.specs.Escapes.{spelling};

/// Which bytes are escaped: those of a text, or those of a namespace.
#[derive(Clone, Copy)]
pub(crate) enum Escapes {
    Text,
    Namespace,
}

impl Escapes {
    /// The letter that stands behind a backslash for the byte, or none where the byte stands for itself.
    pub(crate) fn letter(self, byte: u8) -> Option<u8>
        ensures { MatchOption result (spelling self byte ≡ byte ∷ []) (λ letter. spelling self byte ≡ 92 ∷ letter ∷ []) }
    {
        match (byte, self) {
            (b'\\', _) => Some(b'\\'),
            (b'\n', _) => Some(b'n'),
            (b'\r', _) => Some(b'r'),
            (b' ', Escapes::Namespace) => Some(b's'),
            (b'{' | b'}', Escapes::Namespace) => Some(byte),
            _ => None,
        }
    }
}
