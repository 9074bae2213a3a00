// The first of lines.
ghost use Rattle.std.specs.Prelude.{◌≡◌, ◌≢◌, ℕ, ◌+◌, ◌-◌, ◌<◌, ◌≤◌, length, slice_index};

/// How many bytes the first line has, its line end included; where no line ends, how many there are.
pub(crate) fn first_line_len(bytes: &[u8]) -> usize
    requires { 0 < length bytes.now }
    ensures some { 0 < result }
    ensures within { result ≤ length bytes.now }
    ensures first { (i : ℕ) → i + 1 < result → slice_index bytes.now i ≢ 10 }
    ensures ends { result < length bytes.now → slice_index bytes.now (result - 1) ≡ 10 }
{
    match bytes.iter().position(|byte| *byte == b'\n') {
        Some(place) => place + 1,
        None => bytes.len(),
    }
}
