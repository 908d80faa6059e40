//! What the nodes of a closed cluster keep, and what its sessions were sure to read. Each is a
//! function that does nothing.
ghost use Rattle.std.specs.{
  Prelude.{◌≡◌, ◌<◌, ◌≤◌, ◌+◌, ℕ, ◌↔◌, List, IsTrue, false, length, take},
  List.{All, Contains},
};
ghost use Rattle.dy_dots.specs.declared.dots.Dot.{Dot};
ghost use Rattle.dy_siblings.specs.{
  Siblings.{AreOneByDot, covers, newest},
  Versions.{precedes},
  declared.versions.Version.{Version},
};
ghost use Rattle.dy_ring.specs.Rings.{Tokens};
ghost use Rattle.dy_core.specs.{
  Covers.{CoverThemselves},
  Logs.{Answer, AnswerAgain, rows_of, world_after},
  Worlds.{IsSettled},
  declared.acks.Acked.{Acked},
};
ghost use Rattle.dy_shares.specs.Shares.{GetTold, IsAckSpent, IsOfHomes, SessionPart, steps_of};
ghost use Rattle.dy_book.specs.{
  Audits.{IsTold, ListsAck, TellsHeld},
  declared.audits.Audit.{Audit},
};
ghost use Rattle.dy_transport.specs.Told.{Told};
ghost use Rattle.dy_coord.specs.{
  Gets.{IsGot},
  Sure.{IsSureOf, ack_of, get_of},
  declared.get_done.GetDone.{GetDone},
  declared.put_results.PutDone.{PutDone},
};
ghost use Rattle.dy_cluster.specs.{
  Carrying.{IsAmong},
  Ends.{AtRest, IsClosed, IsEndOf, IsOpenAudit},
  Guarantees.{GivesNothingDeleted, IsRead, NeverGoesBack, ReadsOwnWrites, ReadsWritesOf},
  Lists.{list_of},
  PresentValues.{ArePresent, KeepsVersion, versions_held},
  Stores.{AreCovering, IsKept, TellsAcks},
  declared.resting.Closed.{Closed},
  declared.values.PresentValue.{PresentValue as PresentParts},
};

use dy_shares::Naming;
use dy_shares::laws::told_acks_are_logged;

/// Of a closed cluster. Its audit lists exactly the versions in the nodes' stores. For each put in
/// a session's list the stores cover w distinct homes, on as many distinct nodes. They do so by its
/// version, or by one that causally follows it.
pub fn stores_cover_acks()
    ensures held { (ring : Tokens) (n r : ℕ) (tellings : List SessionPart) (closed : Closed) →
        IsClosed ring n r tellings closed →
        (holder home : ℕ) (key : List ℕ) (d : Dot) →
        TellsHeld closed.audit.held.items holder home key d
        ↔ IsKept closed.rests.items holder home key d }
    ensures covered { (ring : Tokens) (n r : ℕ) (tellings : List SessionPart) (closed : Closed) →
        IsClosed ring n r tellings closed → (x : Acked) → IsTold tellings x →
        AreCovering ring n closed.rests.items x.key x.dot x.w }
{}

/// Of a closed cluster. As acknowledged, its audit lists exactly what its sessions were told.
pub fn audit_lists_what_was_told()
    ensures { (ring : Tokens) (n r : ℕ) (tellings : List SessionPart) (closed : Closed) →
        IsClosed ring n r tellings closed → TellsAcks tellings closed }
{}

/// Of an open cluster. Its audit lists as acknowledged each put that the lent sessions were told.
pub fn open_audit_lists_what_was_told()
    ensures { (ring : Tokens) (n r : ℕ) (tellings : List SessionPart) (audit : Audit) →
        IsOpenAudit ring n r tellings audit → (x : Acked) → IsTold tellings x → ListsAck audit x }
{
    told_acks_are_logged();
}

/// Of a closed cluster. Its audit lists as held exactly the versions in the nodes' stores, as their
/// own or as hints. Versions of a key with one dot are one version.
pub fn what_is_held_is_kept()
    ensures kept { (ring : Tokens) (n r : ℕ) (tellings : List SessionPart) (closed : Closed) →
        IsClosed ring n r tellings closed → (key : List ℕ) (v : Version) →
        Contains (versions_held closed.audit.held.items key) v
        ↔ KeepsVersion closed.rests.items key v }
    ensures one { (ring : Tokens) (n r : ℕ) (tellings : List SessionPart) (closed : Closed) →
        IsClosed ring n r tellings closed → (key : List ℕ) →
        AreOneByDot (versions_held closed.audit.held.items key) }
{}

/// Of a closed cluster, and of the values that were present in it, which `carry_over` puts again.
/// For each put in a session's list, they have its value, or that of a version that causally
/// follows it. They have neither where such a version is a deletion.
pub fn what_was_acknowledged_is_present()
    ensures { (ring : Tokens) (n r : ℕ) (tellings : List SessionPart) (closed : Closed) →
        IsClosed ring n r tellings closed →
        (xs : List PresentParts) → ArePresent closed.audit.held.items xs →
        (x : Acked) → IsTold tellings x →
        IsAmong closed.audit.held.items xs x.key x.dot }
{}

/// What the sessions of a closed cluster were sure to read, where homes themselves answered
/// (session guarantees, Terry et al., 1994). A session reads its own writes, and those of others
/// that were acknowledged before its get. Its gets never go back, where the same homes answer
/// again. A get that has a deletion gives nothing that the deletion follows.
pub fn session_guarantees()
    ensures own_writes { (ring : Tokens) (n r : ℕ) (tellings : List SessionPart)
        (closed : Closed) → IsClosed ring n r tellings closed →
        All (ReadsOwnWrites ring n r) tellings }
    ensures others_writes { (ring : Tokens) (n r : ℕ) (tellings : List SessionPart)
        (closed : Closed) → IsClosed ring n r tellings closed →
        (writer : SessionPart) → Contains tellings writer →
        All (ReadsWritesOf ring n r writer) tellings }
    ensures own_reads { (ring : Tokens) (n r : ℕ) (tellings : List SessionPart)
        (closed : Closed) → IsClosed ring n r tellings closed →
        All (NeverGoesBack ring n) tellings }
    ensures others_reads { (ring : Tokens) (n r : ℕ) (tellings : List SessionPart)
        (closed : Closed) → IsClosed ring n r tellings closed →
        (first later : SessionPart) → Contains tellings first → Contains tellings later →
        (f g : GetTold) → Contains first.gets f → Contains later.gets g →
        (key : List ℕ) → IsOfHomes ring n key f → IsOfHomes ring n key g →
        AnswerAgain f.answers g.since g.answers → (d : Dot) → IsRead f d → IsRead g d }
    ensures deleted { (ring : Tokens) (n r : ℕ) (tellings : List SessionPart)
        (closed : Closed) → IsClosed ring n r tellings closed →
        (other : SessionPart) → Contains tellings other →
        All (GivesNothingDeleted other) tellings }
{}

/// What a get in a session's list gave, by the log that the closed cluster ended with. A get of
/// homes themselves has what enough of them had taken themselves, by a step that the session knew
/// of. It has what was acknowledged, where the key was settled by then. What a home answered for
/// itself, its later answers have too. No get gives what precedes a version that it has.
pub fn gets_give_what_homes_took()
    ensures taken { (ring : Tokens) (n r : ℕ) (c : AtRest) (tellings : List SessionPart)
        (closed : Closed) → IsEndOf ring n r c tellings closed →
        (s : SessionPart) (g : GetTold) → Contains tellings s → Contains s.gets g →
        (key : List ℕ) (since : ℕ) (d : Dot) (took : List ℕ) →
        CoverThemselves (world_after (take since (steps_of c.book.log))) key d took →
        since ≤ g.since → IsOfHomes ring n key g → n < r + length took → IsRead g d }
    ensures settled { (ring : Tokens) (n r : ℕ) (c : AtRest) (tellings : List SessionPart)
        (closed : Closed) → IsEndOf ring n r c tellings closed →
        (s : SessionPart) (g : GetTold) → Contains tellings s → Contains s.gets g →
        (since : ℕ) (x : Acked) →
        IsSettled (world_after (take since (steps_of c.book.log))) x.key →
        Contains (world_after (take since (steps_of c.book.log))).acks x →
        since ≤ g.since → IsOfHomes ring n x.key g → n < r + x.w → IsRead g x.dot }
    ensures answers { (ring : Tokens) (n r : ℕ) (tellings : List SessionPart) (closed : Closed) →
        IsClosed ring n r tellings closed →
        (s t : SessionPart) (f g : GetTold) → Contains tellings s → Contains tellings t →
        Contains s.gets f → Contains t.gets g →
        (a b : Answer) → Contains f.answers a → Contains g.answers b → a.holder ≡ a.home →
        b.holder ≡ b.home → a.home ≡ b.home → a.key ≡ b.key → a.at < b.at →
        (d : Dot) → IsTrue (covers a.row d) → IsTrue (covers b.row d) }
    ensures replaced { (ring : Tokens) (n r : ℕ) (c : AtRest) (tellings : List SessionPart)
        (closed : Closed) → IsEndOf ring n r c tellings closed →
        (s : SessionPart) (g : GetTold) → Contains tellings s → Contains s.gets g →
        (v : Version) → Contains (world_after (steps_of c.book.log)).versions v →
        All (λ a. a.key ≡ v.key) g.answers → IsRead g v.dot →
        All (λ u. precedes u v ≡ false) (newest (rows_of g.answers)) }
{}

/// Of a get and a put of one key in the lists of sessions of one closed cluster. If `GetDone::sees`
/// is true of them, the get has the put's version, or one that causally follows it.
pub fn what_is_seen_is_there<J: Naming>()
    ensures { (ring : Tokens) (n r : ℕ) (tellings : List SessionPart) (closed : Closed) →
        IsClosed ring n r tellings closed →
        (writer reader : SessionPart) → Contains tellings writer → Contains tellings reader →
        (key : List ℕ) (w i acks : ℕ) (put : PutDone J) →
        IsAckSpent writer i (ack_of key w put) put.spent.items →
        (told : Told J) (get : GetDone J) → IsGot (list_of ring n key) key r get.since told get →
        Contains reader.gets (get_of acks get) → IsSureOf n get put →
        IsTrue (covers get.row.versions put.dot) }
{}
