ghost use Rattle.std.specs.Prelude.{◌≡◌, ℕ, ◌++◌, ◌||◌, List, Option, map, All, false};
ghost use Rattle.std.specs.FinSet as set;
ghost use Rattle.dy_dots.specs.Dots.{DotNumbers};
ghost use Rattle.dy_siblings.specs.{
  Versions.{VersionParts, IsVersion, with_value},
  Siblings.{AreClosed, IsSameRow, Rise, context_of, covers, is_past, merge, newest},
};

/// It does not matter which of two rows is merged into which.
pub fn merging_commutes()
    ensures { (s t : List VersionParts) → IsSameRow (merge s t) (merge t s) }
{}

/// A row merged with itself is that row, since none of its versions is past.
pub fn merging_is_idempotent()
    ensures { (s : List VersionParts) →
        All (λ v. is_past s v.dot ≡ false) s → IsSameRow (merge s s) s }
{}

/// Where pasts are closed, it does not matter in which order three rows are merged.
pub fn merging_associates()
    ensures { (r s t : List VersionParts) →
        All IsVersion (r ++ (s ++ t)) → AreClosed (r ++ (s ++ t)) →
        IsSameRow (merge (merge r s) t) (merge r (merge s t)) }
{}

/// Where pasts are closed, rows merged one after another are the rows merged at once.
pub fn merging_in_turn_is_merging_at_once()
    ensures { (s t : List VersionParts) → All IsVersion (s ++ t) → AreClosed (s ++ t) →
        IsSameRow (merge (newest s) t) (newest (s ++ t)) }
{}

/// Where pasts are closed, the merge covers what either row covers, and nothing else.
pub fn merging_keeps_what_is_covered()
    ensures dots { (s t : List VersionParts) → All IsVersion (s ++ t) → AreClosed (s ++ t) →
        (d : DotNumbers) → covers (merge s t) d ≡ (covers s d || covers t d) }
    ensures context { (s t : List VersionParts) → All IsVersion (s ++ t) → AreClosed (s ++ t) →
        context_of (merge s t) ≡ set.union (context_of s) (context_of t) }
{}

/// What the versions store, or whether they store anything, decides nothing in a merge: a deletion
/// is a version like any other.
pub fn merging_ignores_values()
    ensures { (value_of : VersionParts → Option (List ℕ)) (s t : List VersionParts) →
        map (with_value value_of) (merge s t) ≡
        merge (map (with_value value_of) s) (map (with_value value_of) t) }
{}

/// A context has the dots that its row covers.
pub fn contexts_have_what_rows_cover()
    ensures { (s : List VersionParts) (d : DotNumbers) →
        set.contains (context_of s) d ≡ covers s d }
{}

/// Rows that have the same versions, in the order of their dots, are one row.
pub fn rows_in_order_are_one()
    ensures { (s t : List VersionParts) → Rise s → Rise t → IsSameRow s t → s ≡ t }
{}
