//! The laws of puts and gets. Each is a function that does nothing, and its contract is the law.
ghost use Rattle.std.specs.{
  Prelude.{◌≡◌, ◌<◌, ◌≤◌, ◌↔◌, ℕ, List, Option, Result, Ok, Err, IfErr, IsTrue, length},
  List.{All, Contains},
};
ghost use Rattle.std.specs.FinSet as set;
ghost use Rattle.dy_dots.specs.{
  Dots.{DotSet},
  declared.dots.Dot.{Dot},
  declared.faults.Fault.TheVariants.{NotEnough},
};
ghost use Rattle.dy_siblings.specs.{
  Siblings.{covers, newest},
  Versions.{are_concurrent, history_of, in_history},
  declared.versions.Version.{Version},
};
ghost use Rattle.dy_preference.specs.Preferences.{Preferred, home_for, is_home};
ghost use Rattle.dy_core.specs.{Worlds.{row_at}, Logs.{AreOfHomes, rows_of, world_after}};
ghost use Rattle.dy_shares.specs.Shares.{SessionPart};
ghost use Rattle.dy_quorum.specs.Gatherings.{first_answers};
ghost use Rattle.dy_node.specs.declared.begun.Begun.{Begun};
ghost use Rattle.dy_transport.specs.{Refusals.{IsOfStep}, Told.{Told}};
ghost use Rattle.dy_reads.specs.Lists.{homes_in};
ghost use Rattle.dy_coord.specs.{
  Following.{IsNamed, IsUnnamed},
  Puts.{AreStoredFor},
  PutEnds.{IsPut},
  Gets.{IsGot},
  declared.get_done.GetDone.{GetDone},
  declared.put_results.PutDone.{PutDone},
  declared.put_results.PutFault.{PutFault},
};

use dy_shares::Naming;

/// Of a put that began. It is refused for want of homes exactly where, by the answers, nodes hold
/// its row for fewer than w homes, the coordinator's own among them. It then lists these answers.
/// Where they hold it for w homes, the put is acknowledged, or memory is wanting, or no step is
/// left.
pub fn puts_fail_only_for_want_of_homes<J: Naming>()
    ensures enough { (list : Preferred) (w : ℕ) (key : List ℕ) (context : DotSet)
        (value : Option (List ℕ)) (before after : SessionPart) (told : Told J)
        (result : Result (PutDone J) PutFault) (c : ℕ) (begun : Begun J) →
        (put : IsPut list w key context value before after told result c begun) →
        (homes : List ℕ) → AreStoredFor put.answers homes → w ≤ length homes →
        IfErr result (λ e. IsOfStep e.fault) }
    ensures not_enough { (list : Preferred) (w : ℕ) (key : List ℕ) (context : DotSet)
        (value : Option (List ℕ)) (before after : SessionPart) (told : Told J)
        (result : Result (PutDone J) PutFault) (c : ℕ) (begun : Begun J) →
        (put : IsPut list w key context value before after told result c begun) →
        (e : PutFault) → result ≡ Err e →
        (e.fault ≡ NotEnough)
        ↔ ((homes : List ℕ) → AreStoredFor put.answers homes → length homes < w) }
    ensures listed { (list : Preferred) (w : ℕ) (key : List ℕ) (context : DotSet)
        (value : Option (List ℕ)) (before after : SessionPart) (told : Told J)
        (result : Result (PutDone J) PutFault) (c : ℕ) (begun : Begun J) →
        (put : IsPut list w key context value before after told result c begun) →
        (e : PutFault) → result ≡ Err e → e.fault ≡ NotEnough →
        e.answers.items ≡ put.answers }
{}

/// A put with the context of a get follows each version that the get gave, deletions too. The past
/// of its version has each of their histories.
pub fn writes_follow_reads<J: Naming>()
    ensures { (read : Preferred) (key : List ℕ) (r since : ℕ) (got : Told J) (done : GetDone J) →
        IsGot read key r since got done →
        (list : Preferred) (w : ℕ) (value : Option (List ℕ)) (before after : SessionPart)
        (told : Told J) (result : Result (PutDone J) PutFault) (c : ℕ) (begun : Begun J) →
        (put : IsPut list w key done.context value before after told result c begun) →
        All (λ v. IsTrue (set.is_subset (history_of v) put.begun_is.version.past))
        done.row.versions }
{}

/// A put follows exactly what its context names. A dot lies in the past of its version exactly if
/// it lies in the history of a version of the key that the context names. So each version of the
/// key that the context does not name, and that no named one follows, is concurrent with the put's.
/// Where the coordinator held it, it stays in the row that the put spreads.
pub fn puts_follow_what_they_name<J: Naming>()
    ensures ok { (list : Preferred) (w : ℕ) (key : List ℕ) (context : DotSet)
        (value : Option (List ℕ)) (before after : SessionPart) (told : Told J)
        (result : Result (PutDone J) PutFault) (c : ℕ) (begun : Begun J) →
        (put : IsPut list w key context value before after told result c begun) →
        (done : PutDone J) → result ≡ Ok done → put.begun_is.version.dot ≡ done.dot }
    ensures follows { (list : Preferred) (w : ℕ) (key : List ℕ) (context : DotSet)
        (value : Option (List ℕ)) (before after : SessionPart) (told : Told J)
        (result : Result (PutDone J) PutFault) (c : ℕ) (begun : Begun J) →
        (put : IsPut list w key context value before after told result c begun) →
        (d : Dot) → IsTrue (set.contains put.begun_is.version.past d)
        ↔ ((v : Version) × IsNamed (world_after put.begun_is.log).versions key context v
        × IsTrue (in_history v d)) }
    ensures nothing { (list : Preferred) (w : ℕ) (key : List ℕ) (context : DotSet)
        (value : Option (List ℕ)) (before after : SessionPart) (told : Told J)
        (result : Result (PutDone J) PutFault) (c : ℕ) (begun : Begun J) →
        (put : IsPut list w key context value before after told result c begun) →
        context ≡ set.empty → put.begun_is.version.past ≡ set.empty }
    ensures concurrent { (list : Preferred) (w : ℕ) (key : List ℕ) (context : DotSet)
        (value : Option (List ℕ)) (before after : SessionPart) (told : Told J)
        (result : Result (PutDone J) PutFault) (c : ℕ) (begun : Begun J) →
        (put : IsPut list w key context value before after told result c begun) →
        (u : Version) → IsUnnamed (world_after put.begun_is.log).versions key context u →
        IsTrue (are_concurrent u put.begun_is.version) }
    ensures siblings { (list : Preferred) (w : ℕ) (key : List ℕ) (context : DotSet)
        (value : Option (List ℕ)) (before after : SessionPart) (told : Told J)
        (result : Result (PutDone J) PutFault) (c : ℕ) (begun : Begun J) →
        (put : IsPut list w key context value before after told result c begun) →
        (u : Version) → IsUnnamed (world_after put.begun_is.log).versions key context u →
        Contains (row_at (world_after put.begun_is.log) c (home_for (homes_in list) c) key) u →
        Contains begun.row.versions u }
{}

/// A get gives what its session's list has. Its context has a dot exactly where the versions of the
/// listed answers cover it. All its places are homes that hold for themselves exactly where the
/// listed answers are of such homes.
pub fn gets_give_what_was_told<J: Naming>()
    ensures context { (list : Preferred) (key : List ℕ) (r since : ℕ) (told : Told J)
        (done : GetDone J) → IsGot list key r since told done → (d : Dot) →
        IsTrue (set.contains done.context d)
        ↔ IsTrue (covers (newest (rows_of (first_answers done.seen.items))) d) }
    ensures homes { (list : Preferred) (key : List ℕ) (r since : ℕ) (told : Told J)
        (done : GetDone J) → IsGot list key r since told done → (homes : List ℕ) →
        All (λ p. IsTrue (is_home homes p.home) × (p.holder ≡ p.home)) done.from.items
        ↔ AreOfHomes homes (first_answers done.seen.items) }
{}
