// What is kept beside each node.
ghost use Rattle.std.specs.Prelude.{◌≡◌, option_map};
ghost use Rattle.rng_model.specs.Restrictions.{grouped, chosen};
ghost use Rattle.pattern_intern.specs.Facts.{type_of};

/// The content type of a pattern (section String sequences), least first.
#[derive(Clone, Copy, Debug, PartialEq, Eq, PartialOrd, Ord)]
pub enum ContentType {
    /// No children, but maybe attributes.
    Empty,
    /// Elements and text.
    Complex,
    /// A value or data.
    Simple,
}

/// What is known of a pattern by its node and the facts of its parts.
#[derive(Clone, Copy, Debug)]
pub(crate) struct Facts {
    pub(crate) nullable: bool,
    pub(crate) depth: usize,
    pub(crate) content_type: Option<ContentType>,
}

/// The greater of two types that may stand in one group: one is empty, or both are complex.
pub(crate) fn grouped(left: Option<ContentType>, right: Option<ContentType>) -> Option<ContentType>
    ensures { option_map type_of result ≡ grouped (option_map type_of left) (option_map type_of right) }
{
    match (left, right) {
        (Some(ContentType::Empty), _) => right,
        (_, Some(ContentType::Empty)) => left,
        (Some(ContentType::Complex), Some(ContentType::Complex)) => left,
        _ => None,
    }
}

/// The greater of two types, where both sides have one.
pub(crate) fn chosen(left: Option<ContentType>, right: Option<ContentType>) -> Option<ContentType>
    ensures { option_map type_of result ≡ chosen (option_map type_of left) (option_map type_of right) }
{
    match (left, right) {
        (Some(ContentType::Empty), Some(_)) => right,
        (Some(_), Some(ContentType::Empty)) => left,
        (Some(ContentType::Complex), Some(_)) => right,
        (Some(ContentType::Simple), Some(_)) => left,
        _ => None,
    }
}

/// The facts of a pattern without parts.
pub(crate) fn leaf(nullable: bool, content_type: Option<ContentType>) -> Facts
    ensures { result ≡ record { nullable = nullable; depth = 1; content_type = content_type } }
{
    Facts {
        nullable,
        depth: 1,
        content_type,
    }
}
