// Worked examples of the definitions. No code.
ghost use Rattle.std.specs.Prelude.{◌≡◌, [], ◌∷◌, map};
ghost use Rattle.std.specs.List.{range_with_len};
ghost use Rattle.seeded_schema.specs.Made.{content_number};

/// Which contents the first eight items have in the schemas of 0 and of 1.
pub fn contents_of_the_first_items()
    ensures zero { map (content_number 0) (range_with_len 0 8) ≡ 0 ∷ 1 ∷ 4 ∷ 1 ∷ 0 ∷ 1 ∷ 4 ∷ 1 ∷ [] }
    ensures one { map (content_number 1) (range_with_len 0 8) ≡ 1 ∷ 3 ∷ 7 ∷ 5 ∷ 5 ∷ 7 ∷ 3 ∷ 1 ∷ [] }
{}
