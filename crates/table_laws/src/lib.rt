//! Laws of the table of states, of its marks, and of the walk through the documents of one size. A code is an event by positions
//! in the lists of names and texts, a node is an element, an attribute or a text, and a state is what a schema still allows after
//! some codes. What a document's codes lead to, how many states there are, and in which order documents are found is said here.
#![tactic(auto)]

ghost use Rattle.std.specs.Prelude.{◌≡◌, ◌≢◌, ◌↔◌, ◌⊎◌, ℕ, suc, ◌+◌, ◌*◌, ◌<◌, ◌≤◌, List, [], ◌∷◌, ◌++◌, length, map, Contains, Bool, IsTrue, true, false, slice_index_or};
ghost use Rattle.std.specs.List.{AllByRecursion};
ghost use Rattle.std.specs.declared.cmp.Ordering.TheVariants.{Less};
ghost use Rattle.rng_model.specs.Texts.{Text, is_white};
ghost use Rattle.rng_model.specs.Names.{Name};
ghost use Rattle.rng_model.specs.Patterns.{Pattern, Schema, IsSimpleForm, not_allowed, text, empty, after};
ghost use Rattle.rng_model.specs.Constructors.{of_members, choice_of, after_of};
ghost use Rattle.rng_model.specs.Hedges.{Skeleton, document, size};
ghost use Rattle.rng_model.specs.Matching.{nullable};
ghost use Rattle.rng_model.specs.Events.{Event, events};
ghost use Rattle.rng_model.specs.Atoms.{Literals};
ghost use Rattle.rng_model.specs.Universe.{Lists, Ascend, AreLiterals, IsElementClass};
ghost use Rattle.rng_model.specs.Restrictions.{BreaksNoRule};
ghost use Rattle.rng_model.specs.Listing.{IsOver, IsListed, Listed};
ghost use Rattle.rng_model.specs.Codes.{Code, nodes, IsInRange, AreCodes, code_cmp};
ghost use Rattle.rng_model.specs.Codes as code;
ghost use Rattle.rng_model.specs.Derivatives.{text_step, attribute_step, opening, map_after, close, ending, where_true};
ghost use Rattle.rng_model.specs.States.{State, step, steps, after_codes, Reach, Tag, Fresh, AfterText, AfterElement, IsAllowed, AreDistinct, ReachesMore};
ghost use Rattle.rng_model.specs.Alike.{AreAlikeCodes, AreAlikeNames};
ghost use Rattle.rng_model.specs.Examples.{one_text, small_lists, a_name, b_name, c_name};
ghost use Rattle.table_laws.specs.Premises.{AreListable};
ghost use Rattle.table_laws.specs.Reaching.{weight, free_code, free_codes_left, state_at, start_state, Leads, GoesInto, HasReach, IsLeastCount};
ghost use Rattle.table_laws.specs.Finishing.{Finish, is_marked, Marked, IsExact, BeginsSkeleton, BeginsListed, CanTake};
ghost use Rattle.table_laws.specs.Walking.{GoesOn, IsFirstCode, IsNextCode, IsLeastRest, NothingAbove, IsNextList, AreListedCodes, IsFirst, IsNext, GoesThrough, IsWalk, AreOfSize};
ghost use Rattle.table_laws.specs.Places.{place_after};
ghost use Rattle.table_laws.specs.Heads.{IsNormalChoice, IsLeaf, HasHeads, choices_of, ending_fresh, IsInsideElements, open_elements};
ghost use Rattle.table_laws.specs.Remainders.{Remainder, AreSame, remainders, entered_at, takes_name};

/// The start is reached, unless the schema allows nothing. Where m nodes reach a state, a code leads on with its own nodes, and
/// more nodes reach what fewer do.
pub fn reach_grows()
    ensures start { (g : Schema) (u : Lists) (m : ℕ) → g.start ≢ not_allowed → Reach g u m (start_state g) }
    ensures step { (g : Schema) (u : Lists) (m : ℕ) (s : State) (c : Code) → Reach g u m s → Leads g u s c →
        Reach g u (m + weight c) (step g u s c) }
    ensures more { (g : Schema) (u : Lists) (m n : ℕ) (s : State) → m ≤ n → Reach g u m s → Reach g u n s }
{}

/// Nothing else is reached: a list that has the start and all to which codes without a node lead from it has all that no node
/// reaches. A list that has what m nodes reach, and to which codes with one node and then codes without a node lead, has all that
/// one node more reaches.
pub fn reach_is_least()
    ensures zero { (g : Schema) (u : Lists) (states : List State) →
        (g.start ≢ not_allowed → Contains states (start_state g)) →
        ((s : State) → Contains states s → GoesInto g u 0 s (Contains states)) →
        HasReach g u 0 states }
    ensures level { (g : Schema) (u : Lists) (m : ℕ) (states : List State) →
        HasReach g u m states →
        ((s : State) → Contains states s → Reach g u m s ⊎ GoesInto g u 0 s (Contains states)) →
        ((s : State) → Reach g u m s → ((k : ℕ) × (k < m) × Reach g u k s) ⊎ GoesInto g u 1 s (Contains states)) →
        HasReach g u (m + 1) states }
{}

/// A state that is reached has one least number of nodes that reach it. It is the size at which the state is new, and a code adds
/// at most its own nodes to it.
pub fn least_counts()
    ensures exist { (g : Schema) (u : Lists) (m : ℕ) (s : State) → Reach g u m s → (k : ℕ) × (k ≤ m) × IsLeastCount g u k s }
    ensures once { (g : Schema) (u : Lists) (m n : ℕ) (s : State) → IsLeastCount g u m s → IsLeastCount g u n s → m ≡ n }
    ensures zero { (g : Schema) (u : Lists) (s : State) → Reach g u 0 s → IsLeastCount g u 0 s }
    ensures new { (g : Schema) (u : Lists) (m : ℕ) (s : State) → Reach g u (m + 1) s → (Reach g u m s → ⊥) →
        IsLeastCount g u (m + 1) s }
    ensures step { (g : Schema) (u : Lists) (m n : ℕ) (s : State) (c : Code) → IsLeastCount g u m s → Leads g u s c →
        IsLeastCount g u n (step g u s c) → n ≤ m + weight c }
{}

/// At a place at most one code without a node is allowed. Each that leads somewhere leaves fewer to come, so a row of them ends.
pub fn free_codes()
    ensures one { (g : Schema) (u : Lists) (s : State) (c : Code) → weight c ≡ 0 →
        (step g u s c).pattern ≢ not_allowed → c ≡ free_code s.place }
    ensures falls { (g : Schema) (u : Lists) (s : State) →
        (step g u s (free_code s.place)).pattern ≢ not_allowed →
        free_codes_left (step g u s (free_code s.place)) < free_codes_left s }
    ensures ends { (g : Schema) (u : Lists) (codes : List Code) (s : State) →
        AllByRecursion (λ c. weight c ≡ 0) codes → (steps g u s codes).pattern ≢ not_allowed →
        length codes ≤ free_codes_left s }
{}

/// A mark that is computed from exact marks of the states that follow is exact. So marks that agree with those of the states that
/// follow are exact, up to a size.
pub fn marks_are_exact()
    ensures next { (g : Schema) (u : Lists) (mark : ℕ → State → Bool) (rest : ℕ) (s : State) →
        (Leads g u s (free_code s.place) → IsExact g u (is_marked mark) rest (step g u s (free_code s.place))) →
        ((c : Code) (left : ℕ) → weight c ≡ 1 → rest ≡ suc left → Leads g u s c →
        IsExact g u (is_marked mark) left (step g u s c)) →
        Marked g u (is_marked mark) rest s ↔ Finish g u rest s }
    ensures all { (g : Schema) (u : Lists) (m : ℕ) (mark : ℕ → State → Bool) →
        ((k rest : ℕ) (s : State) → Reach g u k s → k + rest ≤ m →
        is_marked mark rest s ↔ Marked g u (is_marked mark) rest s) →
        (rest k : ℕ) (s : State) → Reach g u k s → k + rest ≤ m → is_marked mark rest s ↔ Finish g u rest s }
{}

/// From one size to the next a state gets one mark, for what is left over its least count. It is computed from marks of the size
/// before, and from new ones of states with one node more, or with as many and fewer codes without a node to come.
pub fn new_marks()
    ensures one { (g : Schema) (u : Lists) (k m rest j : ℕ) (s : State) → IsLeastCount g u k s → Reach g u j s →
        j + rest ≤ m + 1 → (k + rest ≤ m) ⊎ (k + rest ≡ m + 1) }
    ensures from { (g : Schema) (u : Lists) (k m rest left j : ℕ) (s : State) (c : Code) → IsLeastCount g u k s →
        k + rest ≡ m + 1 → Leads g u s c → rest ≡ weight c + left → IsLeastCount g u j (step g u s c) →
        (j + left ≤ m) ⊎ ((j + left ≡ m + 1) × (j ≡ k + weight c)) }
{}

/// A beginning can be finished with some nodes more exactly where a document with as many nodes in all, over the lists, that the
/// schema matches begins so.
pub fn finishing_is_exact()
    ensures { (g : Schema) (u : Lists) → AreListable g u →
        (codes : List Code) → AllByRecursion (IsInRange u) codes → (rest : ℕ) →
        Finish g u rest (after_codes g u codes) ↔ BeginsSkeleton g u codes (nodes codes + rest) }
{}

/// Events begin those of a listed document of a size exactly where they have codes that begin its codes. Some document of a size is
/// listed exactly where the start can finish with as many nodes.
pub fn beginnings()
    ensures to { (g : Schema) (u : Lists) (n : ℕ) (front : List Event) (codes : List Code) →
        AreCodes u front codes → BeginsSkeleton g u codes n → BeginsListed g u n front }
    ensures from { (g : Schema) (u : Lists) (n : ℕ) (front : List Event) (codes : List Code) →
        AreCodes u front codes → BeginsListed g u n front → BeginsSkeleton g u codes n }
    ensures coded { (g : Schema) (u : Lists) (n : ℕ) (front : List Event) → BeginsListed g u n front →
        (codes : List Code) × AreCodes u front codes }
    ensures some { (g : Schema) (u : Lists) → AreListable g u → (n : ℕ) →
        Finish g u n (start_state g) ↔ BeginsListed g u n [] }
{}

/// A document over the lists has codes. The codes of a listed document are the codes in range that have its nodes and lead to a
/// state that accepts, and there are at most three for each node.
pub fn codes_and_skeletons()
    ensures exist { (g : Schema) (u : Lists) (s : Skeleton) → IsOver u (document s) →
        (codes : List Code) × AreCodes u (events s) codes }
    ensures once { (g : Schema) (u : Lists) → Ascend u → (es : List Event) (cs ds : List Code) →
        AreCodes u es cs → AreCodes u es ds → cs ≡ ds }
    ensures codes { (g : Schema) (u : Lists) → BreaksNoRule g → Ascend u → (m : ℕ) (s : Skeleton) →
        IsListed g u m s → (codes : List Code) → AreCodes u (events s) codes →
        AreListedCodes g u (size s) codes }
    ensures skeleton { (g : Schema) (u : Lists) → AreListable g u → (n : ℕ) (codes : List Code) → AreListedCodes g u n codes →
        (s : Skeleton) × IsListed g u n s × (size s ≡ n) × AreCodes u (events s) codes }
    ensures room { (g : Schema) (u : Lists) → AreListable g u → (n : ℕ) (codes : List Code) → AreListedCodes g u n codes →
        length codes ≤ 3 * n }
{}

/// The codes of a listed document go on with exactly the codes that the state can take, and with no more nodes than its size. None
/// goes on past its end. What can finish isn't dead, and is whole or can take a code.
pub fn going_on()
    ensures to { (g : Schema) (u : Lists) (front : List Code) (rest : ℕ) (c : Code) →
        GoesOn (AreListedCodes g u (nodes front + rest)) front c → CanTake g u rest (after_codes g u front) c }
    ensures from { (g : Schema) (u : Lists) (front : List Code) (rest : ℕ) (c : Code) →
        AllByRecursion (IsInRange u) front → CanTake g u rest (after_codes g u front) c →
        GoesOn (AreListedCodes g u (nodes front + rest)) front c }
    ensures within { (g : Schema) (u : Lists) (n : ℕ) (front : List Code) (c : Code) →
        GoesOn (AreListedCodes g u n) front c → nodes front + weight c ≤ n }
    ensures alone { (g : Schema) (u : Lists) → BreaksNoRule g → IsSimpleForm g →
        (m n : ℕ) (codes other : List Code) → AreListedCodes g u m codes → AreListedCodes g u n (codes ++ other) →
        other ≡ [] }
    ensures alive { (g : Schema) (u : Lists) (rest : ℕ) (s : State) → Finish g u rest s → s.pattern ≢ not_allowed }
    ensures some { (g : Schema) (u : Lists) (rest : ℕ) (s : State) → Finish g u rest s →
        ((rest ≡ 0) × IsTrue (nullable s.pattern)) ⊎ ((c : Code) × CanTake g u rest s c) }
{}

/// The least code that a state can take is the first with which the codes of a listed document go on, and the least above one the
/// next.
pub fn found_codes()
    ensures first { (g : Schema) (u : Lists) (front : List Code) (rest : ℕ) (c : Code) →
        AllByRecursion (IsInRange u) front → CanTake g u rest (after_codes g u front) c →
        ((d : Code) → code_cmp d c ≡ Less → CanTake g u rest (after_codes g u front) d → ⊥) →
        IsFirstCode (AreListedCodes g u (nodes front + rest)) front c }
    ensures next { (g : Schema) (u : Lists) (front : List Code) (rest : ℕ) (b c : Code) →
        AllByRecursion (IsInRange u) front → CanTake g u rest (after_codes g u front) c → code_cmp b c ≡ Less →
        ((d : Code) → code_cmp b d ≡ Less → code_cmp d c ≡ Less → CanTake g u rest (after_codes g u front) d → ⊥) →
        IsNextCode (AreListedCodes g u (nodes front + rest)) front b c }
    ensures none { (g : Schema) (u : Lists) (front : List Code) (rest : ℕ) (c : Code) →
        ((d : Code) → code_cmp c d ≡ Less → CanTake g u rest (after_codes g u front) d → ⊥) →
        (d : Code) → GoesOn (AreListedCodes g u (nodes front + rest)) front d → code_cmp c d ≢ Less }
{}

/// The least way to go on is found by the least code with which one goes on, again and again.
pub fn greedy_walk()
    ensures end { (g : Schema) (u : Lists) (n : ℕ) (front : List Code) → AreListedCodes g u n front →
        IsLeastRest (AreListedCodes g u n) front [] }
    ensures step { (g : Schema) (u : Lists) (n : ℕ) (front : List Code) (c : Code) (rest : List Code) →
        (AreListedCodes g u n front → ⊥) → IsFirstCode (AreListedCodes g u n) front c →
        IsLeastRest (AreListedCodes g u n) (front ++ (c ∷ [])) rest →
        IsLeastRest (AreListedCodes g u n) front (c ∷ rest) }
{}

/// From the end of a list of codes back, nothing is above it as long as no greater code goes on. At the first place with one, the
/// least such code and the least way to go on give the next list.
pub fn walk_back()
    ensures end { (g : Schema) (u : Lists) (n : ℕ) (codes : List Code) →
        ((other : List Code) → AreListedCodes g u n (codes ++ other) → other ≡ []) →
        NothingAbove (AreListedCodes g u n) codes [] }
    ensures step { (g : Schema) (u : Lists) (n : ℕ) (front : List Code) (c : Code) (rest : List Code) →
        NothingAbove (AreListedCodes g u n) (front ++ (c ∷ [])) rest →
        ((d : Code) → GoesOn (AreListedCodes g u n) front d → code_cmp c d ≢ Less) →
        NothingAbove (AreListedCodes g u n) front (c ∷ rest) }
    ensures found { (g : Schema) (u : Lists) (n : ℕ) (front : List Code) (b c : Code) (rest more : List Code) →
        NothingAbove (AreListedCodes g u n) (front ++ (b ∷ [])) rest →
        IsNextCode (AreListedCodes g u n) front b c → IsLeastRest (AreListedCodes g u n) (front ++ (c ∷ [])) more →
        IsNextList (AreListedCodes g u n) (front ++ (b ∷ rest)) (front ++ (c ∷ more)) }
{}

/// The least codes are those of the first document of a size, the next codes those of the next document, and where nothing is
/// above a document's codes none follows. There is none of a size with which the start can't finish.
pub fn walks()
    ensures first { (g : Schema) (u : Lists) → AreListable g u → (n : ℕ) (codes : List Code) →
        IsLeastRest (AreListedCodes g u n) [] codes → (t : Skeleton) × AreCodes u (events t) codes × IsFirst g u n t }
    ensures next { (g : Schema) (u : Lists) → AreListable g u → (n : ℕ) (s : Skeleton) (codes next : List Code) →
        AreCodes u (events s) codes → size s ≡ n → IsNextList (AreListedCodes g u n) codes next →
        (t : Skeleton) × AreCodes u (events t) next × IsNext g u n s t }
    ensures last { (g : Schema) (u : Lists) → BreaksNoRule g → Ascend u → (n : ℕ) (s : Skeleton) (codes : List Code) →
        AreCodes u (events s) codes → size s ≡ n → NothingAbove (AreListedCodes g u n) [] codes → GoesThrough g u n s [] }
    ensures none { (g : Schema) (u : Lists) → AreListable g u → (n : ℕ) → (Finish g u n (start_state g) → ⊥) →
        IsWalk g u n [] }
{}

/// A walk from the first document of a size to the last has all of the size, ascending and each once. Walks through all sizes up to
/// one, one behind the other, are the list.
pub fn walks_give_the_list()
    ensures size { (g : Schema) (u : Lists) (n : ℕ) (list : List Skeleton) → IsWalk g u n list → AreOfSize g u n list }
    ensures start { (g : Schema) (u : Lists) → Listed g u 0 [] }
    ensures next { (g : Schema) (u : Lists) (n : ℕ) (list more : List Skeleton) → Listed g u n list →
        AreOfSize g u (n + 1) more → Listed g u (n + 1) (list ++ more) }
{}

/// A list with all states that m nodes reach, of at most the limit, shows that no more are reached. A list of the limit with a
/// further state shows that more are. Where m nodes reach more, so do more nodes.
pub fn counts_of_states()
    ensures few { (g : Schema) (u : Lists) (m limit : ℕ) (table : List State) → HasReach g u m table →
        length table ≤ limit → ReachesMore g u m limit → ⊥ }
    ensures many { (g : Schema) (u : Lists) (m limit : ℕ) (table : List State) (s : State) → AreDistinct table →
        ((t : State) → Contains table t → Reach g u m t) → length table ≡ limit → (Contains table s → ⊥) →
        Reach g u m s → ReachesMore g u m limit }
    ensures grows { (g : Schema) (u : Lists) (m n limit : ℕ) → m ≤ n → ReachesMore g u m limit →
        ReachesMore g u n limit }
{}

/// Alike codes that are both allowed at the place of a state that is reached lead from it to one state, but for the place. The place
/// after a code that is allowed depends on the code alone. A code that isn't, and a text of white space, lead nowhere.
pub fn alike_codes()
    ensures state { (g : Schema) (l : Literals) (u : Lists) → AreLiterals g l → (m : ℕ) (s : State) (c d : Code) →
        Reach g u m s → AreAlikeCodes g l u c d → IsAllowed s.place c → IsAllowed s.place d →
        step g u s d ≡ state_at (place_after d) (step g u s c).pattern }
    ensures place { (g : Schema) (u : Lists) → (s : State) (c : Code) → IsAllowed s.place c →
        (step g u s c).place ≡ place_after c }
    ensures refused { (g : Schema) (u : Lists) → (s : State) (c : Code) → (IsAllowed s.place c → ⊥) →
        (step g u s c).pattern ≡ not_allowed }
    ensures white { (g : Schema) (u : Lists) → (s : State) (i : ℕ) → is_white (slice_index_or u.atoms i []) ≡ true →
        (step g u s (code.Chars i)).pattern ≡ not_allowed }
{}

/// The codes that are allowed with a tag lead where they lead from the first tag. Openings, texts and ends lead from other places
/// where they lead after an element, but for an end at Fresh.
pub fn shared_rows()
    ensures attribute { (g : Schema) (u : Lists) (k j s : ℕ) (p : Pattern) → k ≤ j →
        step g u (state_at (Tag k) p) (code.Attr j s) ≡ step g u (state_at (Tag 0) p) (code.Attr j s) }
    ensures body { (g : Schema) (u : Lists) (k : ℕ) (p : Pattern) →
        step g u (state_at (Tag k) p) code.Body ≡ step g u (state_at (Tag 0) p) code.Body }
    ensures opening { (g : Schema) (u : Lists) (i : ℕ) (p : Pattern) →
        (step g u (state_at Fresh p) (code.Opening i) ≡ step g u (state_at AfterElement p) (code.Opening i))
        × (step g u (state_at AfterText p) (code.Opening i) ≡ step g u (state_at AfterElement p) (code.Opening i)) }
    ensures chars { (g : Schema) (u : Lists) (s : ℕ) (p : Pattern) →
        step g u (state_at Fresh p) (code.Chars s) ≡ step g u (state_at AfterElement p) (code.Chars s) }
    ensures end { (g : Schema) (u : Lists) (p : Pattern) →
        step g u (state_at AfterText p) code.Closing ≡ step g u (state_at AfterElement p) code.Closing }
{}

/// The steps of a choice are the choice of its members' steps.
pub fn member_by_member()
    ensures text { (s : Text) (ps : List Pattern) → text_step s (of_members ps) ≡ choices_of (map (text_step s) ps) }
    ensures attribute { (n : Name) (s : Text) (ps : List Pattern) →
        attribute_step n s (of_members ps) ≡ choices_of (map (attribute_step n s) ps) }
    ensures body { (ps : List Pattern) → close (of_members ps) ≡ choices_of (map close ps) }
    ensures opened { (g : Schema) (n : Name) (ps : List Pattern) →
        opening g n (of_members ps) ≡ choices_of (map (opening g n) ps) }
    ensures end { (ps : List Pattern) → ending (of_members ps) ≡ choices_of (map ending ps) }
    ensures end_fresh { (ps : List Pattern) → ending_fresh (of_members ps) ≡ choices_of (map ending_fresh ps) }
{}

/// The step of a member acts on its head, which is what the innermost open element still has to match. The end of an element in
/// which nothing was read goes member by member too.
pub fn head_by_head()
    ensures text { (s : Text) (x y : Pattern) → text_step s (after x y) ≡ after_of (text_step s x) y }
    ensures attribute { (n : Name) (s : Text) (x y : Pattern) →
        attribute_step n s (after x y) ≡ after_of (attribute_step n s x) y }
    ensures body { (x y : Pattern) → close (after x y) ≡ after_of (close x) y }
    ensures opened { (g : Schema) (n : Name) (x y : Pattern) →
        opening g n (after x y) ≡ map_after (λ w. after_of w y) (opening g n x) }
    ensures end { (x y : Pattern) → ending (after x y) ≡ where_true (nullable x) y }
    ensures end_fresh { (p : Pattern) → HasHeads IsNormalChoice p → ending (choice_of p (text_step [] p)) ≡ ending_fresh p }
{}

/// An opening is the choice of after(content, remainder) over what a pattern may open, whatever the name, where the name is in the
/// definition's class. What it may open can stand in any order, and a pair can come more than once. An attribute whose name a pattern
/// can't take leads nowhere, whatever the text.
pub fn opening_rows_of_heads()
    ensures opening { (g : Schema) (n : Name) (p : Pattern) →
        opening g n p ≡ choices_of (map (entered_at g n) (remainders p)) }
    ensures any_order { (g : Schema) (n : Name) (p : Pattern) (rs : List Remainder) → AreSame rs (remainders p) →
        opening g n p ≡ choices_of (map (entered_at g n) rs) }
    ensures name { (n : Name) (s : Text) (p : Pattern) → takes_name n p ≡ false → attribute_step n s p ≡ not_allowed }
{}

/// A choice may be made of its members in any order: two choices with the same members are one. A choice of two has the members of
/// both, ascending and each once.
pub fn normal_choices()
    ensures same { (p q : Pattern) → IsNormalChoice p → IsNormalChoice q →
        ((z : Pattern) → IsLeaf z p → IsLeaf z q) → ((z : Pattern) → IsLeaf z q → IsLeaf z p) → p ≡ q }
    ensures made { (p q : Pattern) → IsNormalChoice p → IsNormalChoice q → IsNormalChoice (choice_of p q) }
    ensures leaves { (z p q : Pattern) → IsLeaf z (choice_of p q) ↔ (IsLeaf z p ⊎ IsLeaf z q) }
{}

/// Where no rule is broken, the pattern after some codes is a choice of after(head, rest), ascending and each once, and as deep as
/// there are open elements.
pub fn states_have_heads()
    ensures inside { (g : Schema) (u : Lists) → BreaksNoRule g → IsSimpleForm g → (c : Code) (codes : List Code) →
        IsInsideElements (open_elements 0 (c ∷ codes)) (after_codes g u (c ∷ codes)).pattern }
    ensures heads { (d : ℕ) (p : Pattern) → IsInsideElements (suc d) p → HasHeads IsNormalChoice p }
{}

/// Worked examples. The schema `element a { "x" | "y" }` has a document of two nodes. Two afters and a tag leave three codes without
/// a node. Names in no class are alike, and a name in one isn't like them. Bodies stand before openings, and attributes go by names
/// first.
pub fn worked_examples()
    ensures finish { Finish one_text small_lists 2 (start_state one_text) }
    ensures left { free_codes_left (state_at (Tag 3) (after text (after text empty))) ≡ 3 }
    ensures alike { AreAlikeNames (IsElementClass one_text) b_name c_name }
    ensures other { AreAlikeNames (IsElementClass one_text) a_name b_name → ⊥ }
    ensures order { (code_cmp code.Body (code.Opening 0) ≡ Less) × (code_cmp (code.Attr 0 1) (code.Attr 1 0) ≡ Less) }
{}
