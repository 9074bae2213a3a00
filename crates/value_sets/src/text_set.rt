// A set of texts.
ghost use Rattle.std.specs.Prelude.{◌≡◌, ◌||◌, true, false, OnOk};
ghost use Rattle.std.specs.Str.{bytes_eq};
ghost use Rattle.rng_model.specs.Texts.{Text as TextValue};
ghost use Rattle.value_sets.specs.Taken.{has};

use indexmap::IndexSet;
use std::alloc::{AllocError, Global};
use text_atoms::Text;

/// A set of texts.
#[derive(Drop)]
pub(crate) struct TextSet {
    texts: IndexSet<Text>,
}

impl TextSet {
    /// No text. It takes its memory from `alloc` as it grows.
    pub(crate) fn new(alloc: Global) -> TextSet
        ensures { (t : TextValue) → has result t ≡ false }
    {
        TextSet {
            texts: IndexSet::new(alloc),
        }
    }

    /// Whether it has no text.
    pub(crate) fn is_empty(&self) -> bool
        ensures { result ≡ true → (t : TextValue) → has self.now t ≡ false }
    {
        self.texts.is_empty()
    }

    /// Whether the text is in it.
    pub(crate) fn has(&self, text: &Text) -> bool
        ensures { result ≡ has self.now text.now }
    {
        self.texts.contains(text)
    }

    /// Adds a text.
    pub(crate) fn add(&mut self, text: Text) -> Result<(), AllocError>
        ensures { OnOk result ((t : TextValue) → has self.new t ≡ (has self.old t || bytes_eq t text)) }
    {
        self.texts.insert(text)?;
        Ok(())
    }
}
