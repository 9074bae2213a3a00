//! Laws of the lines in which documents are written and read, and of their order. A skeleton is a document as it is listed: one
//! element with its attributes, its texts and the elements in it.
#![tactic(auto)]

ghost use Rattle.std.specs.Prelude.{◌≡◌, ◌<◌, ◌⊎◌, ◌↔◌, ℕ, codes, flat_map, List, [], ◌∷◌, ◌++◌, Option, Some, None};
ghost use Rattle.std.specs.List.{AllByRecursion};
ghost use Rattle.std.specs.declared.cmp.Ordering.TheVariants.{Less};
ghost use Rattle.std.specs.Ordering.{nat_cmp, ordering_then};
ghost use Rattle.std.specs.Cmp.Lexicographic.{slice_cmp};
ghost use Rattle.rng_model.specs.Texts.{Text};
ghost use Rattle.rng_model.specs.Hedges.{Skeleton, IsSkeleton, size};
ghost use Rattle.rng_model.specs.Events.{Event, Opening, Attr, Body, Chars, Closing, events, event_cmp, skeleton_cmp};
ghost use Rattle.rng_model.specs.Examples.{a_name, b_name, c_name};
ghost use Rattle.rng_model.specs.Lines.{event_line, skeleton_text};
ghost use Rattle.rng_model.specs.Patterns.{Schema};
ghost use Rattle.rng_model.specs.Universe.{Lists, AreLists, Ascend};
ghost use Rattle.rng_model.specs.Codes.{Code, IsCode, AreCodes, code_cmp};
ghost use Rattle.rng_model.specs.Codes as code;
ghost use Rattle.line_laws.specs.EventLists.{IsEvent, AreEvents, IsNoSkeleton};
ghost use Rattle.line_laws.specs.Walks.{Before, fault_number};
ghost use Rattle.line_laws.specs.LineRefusals.{IsLine, IsNoFeed, IsSkeletonsBeginning, LinesCanGoOn, skeleton_lines, IsText, LineFault, BadLine, Unfinished, Trailing, NotOrdered, LineRefusal, cut_lines};
ghost use Rattle.line_laws.specs.LineWalks.{IsLineReader, text_fault};
ghost use Rattle.line_laws.specs.Nodes.{node_count};

/// Each event has a line of its own, and no event's line begins with another's.
pub fn event_lines_differ()
    ensures { (e f : Event) → IsEvent e → IsEvent f → (x y : Text) →
        event_line e ++ x ≡ event_line f ++ y → (e ≡ f) × (x ≡ y) }
{}

/// Two documents with the same text are one, and no document's text is the beginning of another's: in a list of texts each
/// document is found where it ends.
pub fn texts_differ()
    ensures injective { (s t : Skeleton) → IsSkeleton s → IsSkeleton t → skeleton_text s ≡ skeleton_text t → s ≡ t }
    ensures no_prefix { (s t : Skeleton) → IsSkeleton s → IsSkeleton t → (c : ℕ) (more : Text) →
        skeleton_text s ++ (c ∷ more) ≡ skeleton_text t → ⊥ }
{}

/// Reading events one by one accepts exactly the events of documents. It refuses others exactly at the first event with which
/// no document's events go on, or at the end where more would have to come.
pub fn reading_events_is_exact()
    ensures accepts { (es : List Event) → AllByRecursion IsEvent es → (fault_number Before es ≡ None) ↔ AreEvents es }
    ensures refuses { (es : List Event) → AllByRecursion IsEvent es → (k : ℕ) →
        (fault_number Before es ≡ Some k) ↔ IsNoSkeleton es k }
{}

/// Events of names and texts are those of a document, or they are refused at one number, and never both.
pub fn events_have_one_answer()
    ensures some { (es : List Event) → AllByRecursion IsEvent es → AreEvents es ⊎ ((k : ℕ) × IsNoSkeleton es k) }
    ensures not_both { (es : List Event) → AllByRecursion IsEvent es → AreEvents es → (k : ℕ) → IsNoSkeleton es k → ⊥ }
    ensures one { (es : List Event) → AllByRecursion IsEvent es → (k l : ℕ) → IsNoSkeleton es k → IsNoSkeleton es l → k ≡ l }
{}

/// The size of a document is the number of its lines for elements, attributes and texts.
pub fn size_is_counted()
    ensures { (s : Skeleton) → node_count (events s) ≡ size s }
{}

/// Of two documents the one of lesser size comes first, and within a size the one that has the lesser event where the two first
/// differ.
pub fn skeletons_are_ordered()
    ensures by_size { (s t : Skeleton) → size s < size t → skeleton_cmp s t ≡ Less }
    ensures by_event { (s t : Skeleton) (front : List Event) (e f : Event) (xs ys : List Event) → size s ≡ size t →
        events s ≡ front ++ (e ∷ xs) → events t ≡ front ++ (f ∷ ys) → event_cmp e f ≡ Less → skeleton_cmp s t ≡ Less }
{}

/// The lists of a schema's names and texts ascend, and over such lists codes compare as the events for which they stand, and
/// documents as their lists of codes.
pub fn codes_compare_as_events()
    ensures universe { (g : Schema) (fresh : ℕ) (extra : List Text) (u : Lists) → AreLists g fresh extra u → Ascend u }
    ensures one { (u : Lists) → Ascend u → (e f : Event) (c d : Code) → IsCode u e c → IsCode u f d →
        event_cmp e f ≡ code_cmp c d }
    ensures skeletons { (u : Lists) → Ascend u → (s t : Skeleton) (cs ds : List Code) →
        AreCodes u (events s) cs → AreCodes u (events t) ds →
        skeleton_cmp s t ≡ ordering_then (nat_cmp (size s) (size t)) (slice_cmp code_cmp cs ds) }
{}

/// Codes of one kind have the order of their positions, and attributes are told apart by the name first.
pub fn order_of_codes()
    ensures opening { (i j : ℕ) → code_cmp (code.Opening i) (code.Opening j) ≡ nat_cmp i j }
    ensures attribute { (i j s t : ℕ) →
        code_cmp (code.Attr i s) (code.Attr j t) ≡ ordering_then (nat_cmp i j) (nat_cmp s t) }
    ensures chars { (s t : ℕ) → code_cmp (code.Chars s) (code.Chars t) ≡ nat_cmp s t }
{}

/// Cutting bytes into lines and a tail loses nothing; each line ends with its only line feed, and the tail has none.
pub fn lines_make_up_the_text()
    ensures whole { (t : Text) → flat_map (λ l. l) (cut_lines t).0 ++ (cut_lines t).1 ≡ t }
    ensures lines { (t : Text) → AllByRecursion IsLine (cut_lines t).0 }
    ensures tail { (t : Text) → AllByRecursion IsNoFeed (cut_lines t).1 }
{}

/// The lines of a document make up its text, and lines begin those of a document exactly where they begin its text.
pub fn lines_begin_a_text()
    ensures lines { (s : Skeleton) → flat_map (λ l. l) (skeleton_lines s) ≡ skeleton_text s }
    ensures begin { (ls : List Text) → AllByRecursion IsLine ls →
        LinesCanGoOn ls ↔ IsSkeletonsBeginning (flat_map (λ l. l) ls) }
{}

/// All bytes are the text of a document or have a refusal, never both, and have one refusal at most.
pub fn bytes_have_one_answer()
    ensures some { (bytes : Text) → IsText bytes ⊎ ((f : LineFault) × LineRefusal bytes f) }
    ensures not_both { (bytes : Text) → IsText bytes → (f : LineFault) → LineRefusal bytes f → ⊥ }
    ensures one { (bytes : Text) (f g : LineFault) → LineRefusal bytes f → LineRefusal bytes g → f ≡ g }
{}

/// Reading bytes line by line, with any exact reader of single lines, accepts exactly the texts of documents, and gives exactly
/// the refusal of other bytes.
pub fn reading_lines_is_exact()
    ensures accepts { (read : Text → Option Event) → IsLineReader read → (bytes : Text) →
        (text_fault read bytes ≡ None) ↔ IsText bytes }
    ensures refuses { (read : Text → Option Event) → IsLineReader read → (bytes : Text) (f : LineFault) →
        (text_fault read bytes ≡ Some f) ↔ LineRefusal bytes f }
{}

/// Worked examples of refused bytes: none, a line that is no event, an open element, a missing empty line, two neighbouring
/// texts, a second document, attributes that descend, and empty braces.
pub fn refused_bytes()
    ensures nothing { LineRefusal [] Unfinished }
    ensures no_event { LineRefusal (codes "a\n") (BadLine 1) }
    ensures open { LineRefusal (codes "(a\n>\n") Unfinished }
    ensures no_end { LineRefusal (codes "(a\n>\n)\n") Unfinished }
    ensures two_texts { LineRefusal (codes "(a\n>\n-t\n-u\n") (BadLine 4) }
    ensures more { LineRefusal (codes "(a\n>\n)\n\n(a\n") (Trailing 5) }
    ensures descending { LineRefusal (codes "(a\nAc t\nAb t\n>\n)\n\n") (NotOrdered 3) }
    ensures empty_braces { LineRefusal (codes "({}a\n>\n)\n\n") (BadLine 1) }
{}

/// Worked examples at the edges: equal attribute names, a malformed line out of order, a tail behind the document and before
/// its end, white space alone, an unknown escape, and a text that is accepted.
pub fn refused_edges()
    ensures twice { LineRefusal (codes "(a\nAb t\nAb u\n") (NotOrdered 3) }
    ensures malformed { LineRefusal (codes "(a\nAc t\nAb\n") (BadLine 3) }
    ensures tail { LineRefusal (codes "(a\n>\n)\n\nx") (Trailing 5) }
    ensures short_tail { LineRefusal (codes "(a\n>\n)\nx") Unfinished }
    ensures white { LineRefusal (codes "(a\n>\n- \n") (BadLine 3) }
    ensures escape { LineRefusal (codes "(a\n>\n-\\s\n") (BadLine 3) }
    ensures whole { IsText (codes "(a\nAb t\nAc \n>\n-u\\n\n)\n\n") }
{}

/// Worked examples of events that are no document's: none, an opening alone, an attribute first, an attribute out of order, a text of
/// white space, two neighbouring texts, and an event behind the root.
pub fn stray_events()
    ensures nothing { IsNoSkeleton [] 0 }
    ensures opening { IsNoSkeleton (Opening a_name ∷ []) 1 }
    ensures attribute { IsNoSkeleton (Attr a_name (codes "t") ∷ []) 0 }
    ensures descending { IsNoSkeleton (Opening a_name ∷ Attr c_name [] ∷ Attr b_name [] ∷ Body ∷ Closing ∷ []) 2 }
    ensures white { IsNoSkeleton (Opening a_name ∷ Body ∷ Chars (codes " ") ∷ Closing ∷ []) 2 }
    ensures two_texts { IsNoSkeleton (Opening a_name ∷ Body ∷ Chars (codes "t") ∷ Chars (codes "u") ∷ Closing ∷ []) 3 }
    ensures behind { IsNoSkeleton (Opening a_name ∷ Body ∷ Closing ∷ Closing ∷ []) 3 }
{}
