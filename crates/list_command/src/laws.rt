// Laws over the definitions.
ghost use Rattle.std.specs.Prelude.{◌≡◌, ◌≤◌, ◌∷◌, [], ◌++◌, ℕ, List, length, Option, Some, None, Contains};
ghost use Rattle.rng_model.specs.Texts.{Text};
ghost use Rattle.rng_model.specs.Patterns.{Schema};
ghost use Rattle.rng_model.specs.Hedges.{Skeleton, size};
ghost use Rattle.rng_model.specs.Lines.{skeleton_text};
ghost use Rattle.rng_model.specs.Universe.{Lists, AreLists};
ghost use Rattle.rng_model.specs.Listing.{Listed, IsListed};
ghost use Rattle.rng_model.specs.States.{ReachesMore};
ghost use Rattle.outside.specs.Devices.{Shelved, bytes_of};
ghost use Rattle.list_command.specs.declared.outcome.Outcome.{Outcome};
ghost use Rattle.command_words.specs.Words.{Command, Request, HasForm};
ghost use Rattle.list_command.specs.Cursors.{cursor_limit};
ghost use Rattle.list_command.specs.Accepting.{Refuses, Accepts};
ghost use Rattle.list_command.specs.Laws.{AreDecided, AreListLaws};
ghost use Rattle.list_command.specs.Texts.{lines};
ghost use Rattle.list_command.specs.Owed.{asked};
ghost use Rattle.list_command.specs.Runs.{OwesFor, IsRead, EndsAsOwed};
ghost use Rattle.list_command.specs.Meanings.{IsListing, IsCounted, OwesOnly};
ghost use Rattle.list_command.specs.Asking.{IsCursor};
ghost use Rattle.list_command.specs.Whole.{EndsWhole};

use command_words::one_form;
use grammar_laws::{one_parse_refusal, one_tree, tree_or_refusal};
use line_laws::{bytes_have_one_answer, texts_differ};
use listing_laws::{one_counting, one_ending};
use simple_form_laws::{no_form_with_a_refusal, one_refusal, one_simple_form};
use table_laws::counts_of_states;
use token_laws::{one_lex_refusal, one_token_list, tokens_or_refusal};

/// A schema's bytes are refused for one fault, or accepted as one schema.
pub(crate) fn schemas_are_decided()
    ensures { AreDecided Refuses Accepts }
{
    one_token_list();
    one_lex_refusal();
    tokens_or_refusal();
    one_tree();
    one_parse_refusal();
    tree_or_refusal();
    one_simple_form();
    one_refusal();
    no_form_with_a_refusal();
}

/// Bytes are one document's text, or refused for one fault; a listing and a counting end in one way.
fn lists_are_decided()
    ensures { AreListLaws }
{
    texts_differ();
    bytes_have_one_answer();
    one_ending();
    one_counting();
}

/// Words and files owe one outcome and one list of bytes.
pub fn one_is_owed()
    ensures { (words : List Text) (files : Shelved) (m n : List Text) (o p : Outcome) (b c : List ℕ) →
        OwesFor words files m o b → OwesFor words files n p c → (m ≡ n) × (o ≡ p) × (b ≡ c) }
{
    schemas_are_decided();
    lists_are_decided();
    one_form();
}

/// What words owe for a schema in a file is a listing of what is asked for, or the numbers of its states.
pub(crate) fn owed_is_asked()
    ensures list { (words : List Text) (files : Shelved) (r : Request) (n : ℕ) (file : Text) (g : Schema) (u : Lists) →
        HasForm words r → r.command ≡ Command.list n file → IsRead file files g → AreLists g r.fresh r.texts u →
        OwesOnly words files (IsListing r (asked g u n None r)) }
    ensures resume { (words : List Text) (files : Shelved) (r : Request) (n : ℕ) (file cursor : Text) (g : Schema) (u : Lists) (c : Skeleton) →
        HasForm words r → r.command ≡ Command.resume n file cursor → IsRead file files g → AreLists g r.fresh r.texts u →
        IsCursor cursor files c → IsListed g u n c → (ReachesMore g u (size c) r.limit → ⊥) →
        OwesOnly words files (IsListing r (asked g u n (Some c) r)) }
    ensures states { (words : List Text) (files : Shelved) (r : Request) (n : ℕ) (file : Text) (g : Schema) (u : Lists) →
        HasForm words r → r.command ≡ Command.states n file → IsRead file files g → AreLists g r.fresh r.texts u →
        OwesOnly words files (IsCounted r (asked g u n None r)) }
    ensures files { (words : List Text) (files : Shelved) (r : Request) (n : ℕ) (file cursor : Text) (g : Schema) (needed : List Text) (o : Outcome)
        (bytes : List ℕ) → HasForm words r → r.command ≡ Command.resume n file cursor → IsRead file files g →
        OwesFor words files needed o bytes → needed ≡ file ∷ cursor ∷ [] }
    ensures form { (words : List Text) (q r : Request) → HasForm words q → HasForm words r → q ≡ r }
{
    schemas_are_decided();
    lists_are_decided();
    one_form();
}

/// Where everything that is asked for can be listed, a run in which no count of faults rose did so, or ran out of memory.
pub(crate) fn fitting_runs_are_whole()
    ensures { (words : List Text) (files : Shelved) (taken taken_now : Option (List ℕ)) (reads reads_now writes writes_now : ℕ) (outcome : Outcome) →
        EndsAsOwed words files taken taken_now reads reads_now writes writes_now outcome → EndsWhole words files reads reads_now writes writes_now outcome }
{
    schemas_are_decided();
    lists_are_decided();
    one_form();
    counts_of_states();
}

/// The list of a schema is what stands in it up to one of its documents, and what is owed to the words that resume after that document:
/// a listing that was cut goes on where it ended.
pub fn resuming_goes_on()
    ensures { (words : List Text) (files : Shelved) (r : Request) (n : ℕ) (file cursor : Text) (bytes : List ℕ)
        (g : Schema) (u : Lists) (list : List Skeleton) (s : Skeleton) →
        HasForm words r → r.command ≡ Command.resume n file cursor → r.page ≡ None → (ReachesMore g u n r.limit → ⊥) →
        bytes_of files file ≡ Some bytes → Accepts bytes g → AreLists g r.fresh r.texts u → Listed g u n list → Contains list s →
        bytes_of files cursor ≡ Some (skeleton_text s) → length (skeleton_text s) ≤ cursor_limit →
        (front : List Skeleton) × (back : List Skeleton) × (list ≡ front ++ (s ∷ back))
        × (lines list ≡ lines (front ++ (s ∷ [])) ++ lines back)
        × OwesFor words files (file ∷ cursor ∷ []) Outcome.Done (lines back) }
{
    counts_of_states();
}

/// The list of a schema is what is owed to the words that list it.
pub fn listing_owes_the_list()
    ensures { (words : List Text) (files : Shelved) (r : Request) (n : ℕ) (file : Text) (bytes : List ℕ)
        (g : Schema) (u : Lists) (list : List Skeleton) →
        HasForm words r → r.command ≡ Command.list n file → r.page ≡ None → (ReachesMore g u n r.limit → ⊥) →
        bytes_of files file ≡ Some bytes → Accepts bytes g → AreLists g r.fresh r.texts u → Listed g u n list →
        OwesFor words files (file ∷ []) Outcome.Done (lines list) }
{
    counts_of_states();
}
