// The restrictions by name.
ghost use Rattle.std.specs.Prelude.{◌≡◌, ◌≤◌};
ghost use Rattle.restrictions.specs.Rules.{number_of};

/// A rule of the section Restrictions. The numbers are this project's own.
#[derive(Clone, Copy, Debug, PartialEq, Eq)]
pub enum Rule {
    /// 1, attribute//ref: an attribute's content refers to an element.
    AttributeRef,
    /// 2, attribute//attribute: an attribute stands in an attribute's content.
    AttributeAttribute,
    /// 3, oneOrMore//group//attribute.
    OneOrMoreGroupAttribute,
    /// 4, oneOrMore//interleave//attribute.
    OneOrMoreInterleaveAttribute,
    /// 5: in the except of a datatype stands something other than values, datatypes and choices of these.
    DataExcept,
    /// 6: in the start stands something other than elements and choices of these.
    Start,
    /// 7: the content of an element has no content type (section String sequences).
    StringSequence,
    /// 8: attributes of the two sides of a group or interleave can have one name.
    DuplicateAttributes,
    /// 9: an attribute with infinitely many names stands outside each oneOrMore.
    InfiniteAttribute,
    /// 10: elements that the two sides of an interleave refer to can have one name.
    InterleaveElements,
    /// 11: text stands in both sides of an interleave.
    InterleaveText,
}

impl Rule {
    /// The rule's number, from 1 to 11.
    pub fn number(self) -> u8
        ensures { result ≡ number_of self }
    {
        match self {
            Rule::AttributeRef => 1,
            Rule::AttributeAttribute => 2,
            Rule::OneOrMoreGroupAttribute => 3,
            Rule::OneOrMoreInterleaveAttribute => 4,
            Rule::DataExcept => 5,
            Rule::Start => 6,
            Rule::StringSequence => 7,
            Rule::DuplicateAttributes => 8,
            Rule::InfiniteAttribute => 9,
            Rule::InterleaveElements => 10,
            Rule::InterleaveText => 11,
        }
    }

    /// The rule of a number.
    pub(crate) fn numbered(number: u8) -> Rule
        requires first { 1 ≤ number }
        requires last { number ≤ 11 }
        ensures { number_of result ≡ number }
    {
        match number {
            1 => Rule::AttributeRef,
            2 => Rule::AttributeAttribute,
            3 => Rule::OneOrMoreGroupAttribute,
            4 => Rule::OneOrMoreInterleaveAttribute,
            5 => Rule::DataExcept,
            6 => Rule::Start,
            7 => Rule::StringSequence,
            8 => Rule::DuplicateAttributes,
            9 => Rule::InfiniteAttribute,
            10 => Rule::InterleaveElements,
            _ => Rule::InterleaveText,
        }
    }
}
