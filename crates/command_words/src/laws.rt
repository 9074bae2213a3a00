// Laws over the definitions.
ghost use Rattle.std.specs.Prelude.{◌≡◌, List};
ghost use Rattle.rng_model.specs.Texts.{Text};
ghost use Rattle.command_words.specs.Words.{Request, HasForm};

/// Words have the form of at most one request.
pub fn one_form()
    ensures { (words : List Text) (q r : Request) → HasForm words q → HasForm words r → q ≡ r }
{}
