// The characters of names: the ranges of XML 1.0, fifth edition, without the colon.
ghost use Rattle.std.specs.Prelude.{◌≡◌, ◌||◌, ◌==◌};
ghost use Rattle.std.specs.List.{list_all};
ghost use Rattle.std.specs.Str.{chars};
ghost use Rattle.rng_model.specs.Kinds.{are_token_chars};
ghost use Rattle.rng_model.specs.Names.{in_ranges, is_name_start, is_name_char, is_ncname};

/// Whether some range has the number, ends included.
fn in_ranges(ranges: &[(u32, u32)], c: u32) -> bool
    ensures { result ≡ in_ranges ranges.now c }
{
    ranges.iter().any(|range| range.0 <= c && c <= range.1)
}

/// Whether a name may begin with the character: NameStartChar of XML 1.0, fifth edition, without the colon.
#[tactic(auto, unfolding(rng_model::specs::Names::is_name_start))]
pub fn is_name_start(c: char) -> bool
    ensures { result ≡ is_name_start c }
{
    in_ranges(
        &[
            (65, 90),
            (95, 95),
            (97, 122),
            (0xC0, 0xD6),
            (0xD8, 0xF6),
            (0xF8, 0x2FF),
            (0x370, 0x37D),
            (0x37F, 0x1FFF),
            (0x200C, 0x200D),
            (0x2070, 0x218F),
            (0x2C00, 0x2FEF),
            (0x3001, 0xD7FF),
            (0xF900, 0xFDCF),
            (0xFDF0, 0xFFFD),
            (0x10000, 0xEFFFF),
        ],
        u32::from(c),
    )
}

/// Whether the character may stand in a name: NameChar of XML 1.0, fifth edition, without the colon.
#[tactic(auto, unfolding(rng_model::specs::Names::is_name_char))]
pub fn is_name_char(c: char) -> bool
    ensures { result ≡ is_name_char c }
{
    is_name_start(c)
        || in_ranges(
            &[
                (45, 46),
                (48, 57),
                (0xB7, 0xB7),
                (0x300, 0x36F),
                (0x203F, 0x2040),
            ],
            u32::from(c),
        )
}

/// Whether each character may stand in a name.
fn are_name_chars(text: &str) -> bool
    ensures { result ≡ list_all is_name_char (chars text.now) }
{
    text.chars().all(is_name_char)
}

/// Whether the text is an NCName: Namespaces in XML, section 3.
#[tactic(auto, unfolding(rng_model::specs::Names::is_ncname))]
pub fn is_ncname(text: &str) -> bool
    ensures { result ≡ is_ncname text.now }
{
    let mut chars = text.chars();
    match chars.next() {
        Some(first) => is_name_start(first) && are_name_chars(chars.as_str()),
        None => false,
    }
}

/// Whether each character is a name character or a colon.
fn are_token_chars(text: &str) -> bool
    ensures { result ≡ list_all (λ c. is_name_char c || c == 58) (chars text.now) }
{
    text.chars().all(|c| is_name_char(c) || c == ':')
}

/// Whether the text is an NMTOKEN: name characters or colons, one or more (XML Schema Part 2, section 3.3.4).
pub(crate) fn is_nmtoken(text: &str) -> bool
    ensures { result ≡ are_token_chars (chars text.now) }
{
    !text.is_empty() && are_token_chars(text)
}
