//! The laws of every legal log. Each is a function that does nothing, and its contract is the law.
ghost use Rattle.std.specs.{
  Prelude.{◌≡◌, ℕ, ◌+◌, ◌<◌, ◌≤◌, ◌↔◌, ◌&&◌, IsTrue, List, ◌++◌, take, length, map, nat_eq, false},
  Prelude.{Option},
  List.{All, Contains, IsDistinct, filter},
};
ghost use Rattle.std.specs.FinSet as set;
ghost use Rattle.dy_dots.specs.{Dots.{DotSet, same_dot}, declared.dots.Dot.{Dot}};
ghost use Rattle.dy_siblings.specs.{
  Siblings.{Siblings, IsSameRow, same_key, covers, newest, merge, without},
  Versions.{precedes},
  declared.versions.Version.{Version},
};
ghost use Rattle.dy_ring.specs.Rings.{Tokens};
ghost use Rattle.dy_preference.specs.Preferences.{homes_of, may_hold};
ghost use Rattle.dy_core.specs.{
  Worlds.{Layout, layout_of, IsSettled, AreMadeOf, is_issued, row_at},
  Covers.{CoversAt, CoverThemselves, HasCover, AcksAreCovered, ReceiptHolds},
  Steps.{IsAllowed, IsKnown, past_of, same_place, world_after_step, IsReleaseAt},
  Logs.{Known, world_after, IsLegal, Answer, MatchesLog, AreOfHomes, AnswerAgain, IsAnswer},
  Logs.{rows_of},
  declared.places.Place.{Place},
  declared.steps.Step.{Step},
  declared.steps.Step.TheVariants.{Hold, Issue, Release},
};

/// Each dot in a version's past is of a version of the same key, whose history lies in that past.
pub fn pasts_are_closed()
    ensures { (layout : Layout) (steps : List Step) → IsLegal layout steps →
        (v : Version) → Contains (world_after steps).versions v →
        (d : Dot) → IsTrue (set.contains v.past d) → Known (world_after steps).versions v d }
{}

/// The dots that a node made for a key have the counters from 1 to the last, each once.
pub fn counters_have_no_gaps()
    ensures used { (layout : Layout) (steps : List Step) → IsLegal layout steps →
        (node : ℕ) (key : List ℕ) (counter : ℕ) →
        IsTrue (is_issued (world_after steps).versions key
        (record { node = node; counter = counter }))
        ↔ (1 ≤ counter) × (counter ≤ (world_after steps).counters node key) }
    ensures once { (layout : Layout) (steps : List Step) → IsLegal layout steps →
        (key : List ℕ) (d : Dot) →
        length (filter (λ v. same_key v.key key && same_dot v.dot d)
        (world_after steps).versions) ≤ 1 }
{}

/// Who holds may hold, and what is held was made.
pub fn holdings_are_placed()
    ensures may_hold { (layout : Layout) (steps : List Step) → IsLegal layout steps →
        (holder home : ℕ) (key : List ℕ) (d : Dot) →
        IsTrue ((world_after steps).holdings holder home key d) →
        IsTrue (may_hold (layout.homes key) holder home) }
    ensures issued { (layout : Layout) (steps : List Step) → IsLegal layout steps →
        (holder home : ℕ) (key : List ℕ) (d : Dot) →
        IsTrue ((world_after steps).holdings holder home key d) →
        IsTrue (is_issued (world_after steps).versions key d) }
{}

/// A place covers a dot until a release at that place, and a home that holds for itself forever.
pub fn covers_last()
    ensures place { (layout : Layout) (steps : List Step) → IsLegal layout steps →
        (step : Step) → IsAllowed layout (world_after steps) step →
        (key : List ℕ) (d : Dot) (home holder : ℕ) →
        CoversAt (world_after steps) key d holder home → (IsReleaseAt holder home key step → ⊥) →
        CoversAt (world_after_step (world_after steps) step) key d holder home }
    ensures own { (layout : Layout) (steps more : List Step) → IsLegal layout (steps ++ more) →
        (key : List ℕ) (d : Dot) (home : ℕ) → CoversAt (world_after steps) key d home home →
        CoversAt (world_after (steps ++ more)) key d home home }
{}

/// A receipt that holds keeps holding.
pub fn receipts_last()
    ensures { (layout : Layout) (steps more : List Step) → IsLegal layout (steps ++ more) →
        (key : List ℕ) (d : Dot) (home holder : ℕ) →
        ReceiptHolds (world_after steps) key d holder home →
        ReceiptHolds (world_after (steps ++ more)) key d holder home }
{}

/// Receipts of one key and dot that hold, with distinct homes and distinct holders, make a cover of
/// as many places: their homes are homes of the key.
pub fn receipts_make_a_cover()
    ensures { (layout : Layout) (steps : List Step) → IsLegal layout steps →
        (key : List ℕ) (d : Dot) (receipts : List Place) →
        All (λ p. ReceiptHolds (world_after steps) key d p.holder p.home) receipts →
        IsDistinct nat_eq (map (λ p. p.home) receipts) →
        IsDistinct nat_eq (map (λ p. p.holder) receipts) →
        HasCover layout (world_after steps) key d (length receipts) }
{}

/// Each ack keeps its cover, whatever steps come.
pub fn acks_stay_covered()
    ensures { (layout : Layout) (steps : List Step) → IsLegal layout steps →
        AcksAreCovered layout (world_after steps) }
{}

/// What homes of a key cover for themselves, each later get of r homes themselves shows: it answers
/// that version or one that follows it, where r and these homes are together more than the homes of
/// the key.
pub fn homes_show_what_they_took()
    ensures { (ring : Tokens) (n : ℕ) (steps : List Step) → IsLegal (layout_of ring n) steps →
        (key : List ℕ) (since : ℕ) (d : Dot) (took : List ℕ) →
        CoverThemselves (world_after (take since steps)) key d took →
        (r : ℕ) (answers : List Answer) → MatchesLog steps key r since answers →
        AreOfHomes (homes_of ring n key) answers → n < r + length took →
        IsTrue (covers (newest (rows_of answers)) d) }
{}

/// What a home answers for itself only grows: a later answer of that home covers what an earlier
/// one did, and so does a later get that each home of an earlier one answers.
pub fn homes_answers_grow()
    ensures answer { (layout : Layout) (steps : List Step) → IsLegal layout steps →
        (a b : Answer) → IsAnswer steps a → IsAnswer steps b → a.holder ≡ a.home →
        b.holder ≡ b.home → a.home ≡ b.home → a.key ≡ b.key → a.at < b.at →
        (d : Dot) → IsTrue (covers a.row d) → IsTrue (covers b.row d) }
    ensures get { (layout : Layout) (steps : List Step) → IsLegal layout steps → (key : List ℕ) →
        (q before : ℕ) (first : List Answer) → MatchesLog steps key q before first →
        AreOfHomes (layout.homes key) first →
        (r since : ℕ) (later : List Answer) → MatchesLog steps key r since later →
        AreOfHomes (layout.homes key) later → AnswerAgain first since later →
        (d : Dot) → IsTrue (covers (newest (rows_of first)) d) →
        IsTrue (covers (newest (rows_of later)) d) }
{}

/// Where a get covers a version, as a deletion, no version that precedes it is among those that it
/// gives; and so it is of each get that is sure to cover it: where enough homes took it, or the key
/// is settled and it was acknowledged.
pub fn the_deleted_does_not_come_back()
    ensures covered { (layout : Layout) (steps : List Step) → IsLegal layout steps →
        (v : Version) → Contains (world_after steps).versions v →
        (r since : ℕ) (answers : List Answer) → MatchesLog steps v.key r since answers →
        IsTrue (covers (newest (rows_of answers)) v.dot) →
        All (λ u. precedes u v ≡ false) (newest (rows_of answers)) }
    ensures taken { (ring : Tokens) (n : ℕ) (steps : List Step) →
        IsLegal (layout_of ring n) steps →
        (v : Version) → Contains (world_after steps).versions v →
        (since : ℕ) (took : List ℕ) →
        CoverThemselves (world_after (take since steps)) v.key v.dot took →
        (r : ℕ) (answers : List Answer) → MatchesLog steps v.key r since answers →
        AreOfHomes (homes_of ring n v.key) answers → n < r + length took →
        All (λ u. precedes u v ≡ false) (newest (rows_of answers)) }
    ensures settled { (ring : Tokens) (n : ℕ) (steps : List Step) →
        IsLegal (layout_of ring n) steps →
        (v : Version) → Contains (world_after steps).versions v →
        (since : ℕ) → IsSettled (world_after (take since steps)) v.key → (w : ℕ) →
        Contains (world_after (take since steps)).acks
        (record { key = v.key; dot = v.dot; w = w }) →
        (r : ℕ) (answers : List Answer) → MatchesLog steps v.key r since answers →
        AreOfHomes (homes_of ring n v.key) answers → n < r + w →
        All (λ u. precedes u v ≡ false) (newest (rows_of answers)) }
{}

/// Once a key is settled and a put of it was told of w homes, each later get of r homes themselves,
/// where r and w are together more than the homes of the key, answers that put's version or one
/// that follows it.
pub fn settled_gets_cover_acks()
    ensures { (ring : Tokens) (n : ℕ) (steps : List Step) → IsLegal (layout_of ring n) steps →
        (key : List ℕ) (since : ℕ) → IsSettled (world_after (take since steps)) key →
        (d : Dot) (w : ℕ) →
        Contains (world_after (take since steps)).acks (record { key = key; dot = d; w = w }) →
        (r : ℕ) (answers : List Answer) → MatchesLog steps key r since answers →
        AreOfHomes (homes_of ring n key) answers → n < r + w →
        IsTrue (covers (newest (rows_of answers)) d) }
{}

/// Rows merged one after another are the rows merged at once, and it is all one in which order
/// three rows are merged by twos.
pub fn rows_merge_in_any_order()
    ensures at_once { (layout : Layout) (steps : List Step) → IsLegal layout steps →
        (key : List ℕ) (xs ys : List Version) →
        AreMadeOf (world_after steps) key xs → AreMadeOf (world_after steps) key ys →
        IsSameRow (merge (newest xs) ys) (newest (xs ++ ys)) }
    ensures associative { (layout : Layout) (steps : List Step) → IsLegal layout steps →
        (key : List ℕ) (xs ys zs : List Version) → AreMadeOf (world_after steps) key xs →
        AreMadeOf (world_after steps) key ys → AreMadeOf (world_after steps) key zs →
        IsSameRow (merge (merge xs ys) zs) (merge xs (merge ys zs)) }
{}

/// What a hold brings is covered at its place.
pub fn holds_cover()
    ensures { (layout : Layout) (steps : List Step) → IsLegal layout steps →
        (place : Place) (row : Siblings) →
        IsAllowed layout (world_after steps) (Hold place row) →
        (v : Version) → Contains row.versions v →
        CoversAt (world_after_step (world_after steps) (Hold place row))
        row.key v.dot place.holder place.home }
{}

/// After a hold its place has the merge, and each other place has what it had.
pub fn holds_merge()
    ensures place { (layout : Layout) (steps : List Step) → IsLegal layout steps →
        (place : Place) (row : Siblings) →
        IsAllowed layout (world_after steps) (Hold place row) →
        IsSameRow
        (row_at (world_after_step (world_after steps) (Hold place row))
        place.holder place.home row.key)
        (merge (row_at (world_after steps) place.holder place.home row.key) row.versions) }
    ensures others { (layout : Layout) (steps : List Step) → IsLegal layout steps →
        (place : Place) (row : Siblings) →
        IsAllowed layout (world_after steps) (Hold place row) →
        (p o : ℕ) (k : List ℕ) → same_place place.holder place.home row.key p o k ≡ false →
        IsSameRow (row_at (world_after_step (world_after steps) (Hold place row)) p o k)
        (row_at (world_after steps) p o k) }
{}

/// After a release its place has its row without the dot, and each other place has what it had.
pub fn releases_drop()
    ensures place { (layout : Layout) (steps : List Step) → IsLegal layout steps →
        (place : Place) (key : List ℕ) (d : Dot) →
        IsSameRow
        (row_at (world_after_step (world_after steps) (Release place key d))
        place.holder place.home key)
        (without (row_at (world_after steps) place.holder place.home key) d) }
    ensures others { (layout : Layout) (steps : List Step) → IsLegal layout steps →
        (place : Place) (key : List ℕ) (d : Dot) →
        (p o : ℕ) (k : List ℕ) → same_place place.holder place.home key p o k ≡ false →
        IsSameRow (row_at (world_after_step (world_after steps) (Release place key d)) p o k)
        (row_at (world_after steps) p o k) }
{}

/// After an issue each place has what it had.
pub fn issues_hold_nothing()
    ensures { (layout : Layout) (steps : List Step) → IsLegal layout steps →
        (node : ℕ) (key : List ℕ) (context : DotSet) (value : Option (List ℕ)) →
        (p o : ℕ) (k : List ℕ) →
        IsSameRow
        (row_at (world_after_step (world_after steps) (Issue node key context value)) p o k)
        (row_at (world_after steps) p o k) }
{}

/// The past that a context gives is known, and as a context gives itself.
pub fn pasts_name_themselves()
    ensures known { (layout : Layout) (steps : List Step) → IsLegal layout steps →
        (key : List ℕ) (context : DotSet) →
        IsKnown (world_after steps) key (past_of (world_after steps).versions key context) }
    ensures same { (layout : Layout) (steps : List Step) → IsLegal layout steps →
        (key : List ℕ) (context : DotSet) →
        past_of (world_after steps).versions key
        (past_of (world_after steps).versions key context) ≡
        past_of (world_after steps).versions key context }
{}
