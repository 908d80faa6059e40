//! What the shares of a ledger that ended say, all together, what sessions are sure to read, and
//! what a trail keeps. Each is a function that does nothing.
ghost use Rattle.std.specs.{
  Prelude.{◌≡◌, ℕ, ◌+◌, ◌<◌, ◌≤◌, ◌↔◌, IsTrue, List, Some, length, map, false, slice_get},
  List.{All, Contains},
};
ghost use Rattle.dy_ring.specs.Rings.{Tokens};
ghost use Rattle.dy_dots.specs.declared.dots.Dot.{Dot};
ghost use Rattle.dy_siblings.specs.{
  Siblings.{covers, newest},
  Versions.{precedes},
  declared.versions.Version.{Version},
};
ghost use Rattle.dy_core.specs.{
  Worlds.{layout_of},
  Logs.{AnswerAgain, IsLegal, rows_of, world_after},
  declared.acks.Acked.{Acked},
  declared.steps.Step.{Step},
};
ghost use Rattle.dy_shares.specs.{
  Shares.{Account, AckTold, AreAll, GetTold, IsAckOf, IsAckSpent, IsOfHomes, NodePart},
  Shares.{ReceiptParts, SessionPart, SessionBelongsTo, own_homes, shows_held, steps_of},
  Trails.{AreKept, Keeps},
  declared.entries.Entry.{Entry},
  declared.kept_steps.KeptStep.{KeptStep as Kept},
};

/// Where all shares are there, what is held is what they show, and what is acknowledged is what
/// they were told.
pub fn shares_say_all()
    ensures held { (nodes r : ℕ) (a : Account) (parts : List NodePart)
        (tellings : List SessionPart) → AreAll nodes r a parts tellings →
        (holder home : ℕ) (key : List ℕ) (d : Dot) →
        IsTrue ((world_after (steps_of a.log)).holdings holder home key d) ↔
        ((p : NodePart) × Contains parts p × (p.node ≡ holder) × IsTrue (shows_held p home key d)) }
    ensures acked { (nodes r : ℕ) (a : Account) (parts : List NodePart)
        (tellings : List SessionPart) → AreAll nodes r a parts tellings → (x : Acked) →
        Contains (world_after (steps_of a.log)).acks x ↔
        ((s : SessionPart) × Contains tellings s ×
        ((t : AckTold) × Contains s.acks t × IsAckOf t x)) }
{}

/// What a session was told as acknowledged is acknowledged in the log that its share belongs to.
pub fn told_acks_are_logged()
    ensures { (log : List Entry) (r : ℕ) (s : SessionPart) → SessionBelongsTo log r s →
        (t : AckTold) → Contains s.acks t → (x : Acked) → IsAckOf t x →
        Contains (world_after (steps_of log)).acks x }
{}

/// A session reads its own writes: of a put that was acknowledged to it, each get that it was told
/// later, of r homes themselves, answers the version or one that follows it, where r and the homes
/// that took the put themselves are more than n; and so does a get of another session whose since
/// is no less than the ack's step.
pub fn sessions_read_their_writes()
    ensures own { (ring : Tokens) (n r : ℕ) (log : List Entry) →
        IsLegal (layout_of ring n) (steps_of log) →
        (s : SessionPart) → SessionBelongsTo log r s →
        (i : ℕ) (t : AckTold) (spent : List ReceiptParts) → IsAckSpent s i t spent →
        (g : GetTold) → Contains s.gets g → i < g.acks →
        IsOfHomes ring n t.key g → n < r + length (own_homes spent) →
        IsTrue (covers (newest (rows_of g.answers)) t.dot) }
    ensures others { (ring : Tokens) (n r : ℕ) (log : List Entry) →
        IsLegal (layout_of ring n) (steps_of log) →
        (writer : SessionPart) → SessionBelongsTo log r writer →
        (i : ℕ) (t : AckTold) (spent : List ReceiptParts) → IsAckSpent writer i t spent →
        (reader : SessionPart) → SessionBelongsTo log r reader →
        (g : GetTold) → Contains reader.gets g → t.at ≤ g.since →
        IsOfHomes ring n t.key g → n < r + length (own_homes spent) →
        IsTrue (covers (newest (rows_of g.answers)) t.dot) }
{}

/// Of two gets of a key, of homes themselves, the later covers what the earlier did, where each
/// home that answered the earlier answered the later too: of one session's gets the later is that
/// which was told later, of two sessions' that whose since is no less than the other's answers.
pub fn reads_never_go_back()
    ensures own { (ring : Tokens) (n r : ℕ) (log : List Entry) →
        IsLegal (layout_of ring n) (steps_of log) →
        (s : SessionPart) → SessionBelongsTo log r s →
        (i j : ℕ) (f g : GetTold) → slice_get s.gets i ≡ Some f → slice_get s.gets j ≡ Some g →
        i < j → (key : List ℕ) → IsOfHomes ring n key f → IsOfHomes ring n key g →
        All (λ a. Contains (map (λ b. b.home) g.answers) a.home) f.answers →
        (d : Dot) → IsTrue (covers (newest (rows_of f.answers)) d) →
        IsTrue (covers (newest (rows_of g.answers)) d) }
    ensures others { (ring : Tokens) (n r : ℕ) (log : List Entry) →
        IsLegal (layout_of ring n) (steps_of log) →
        (first : SessionPart) → SessionBelongsTo log r first →
        (f : GetTold) → Contains first.gets f →
        (later : SessionPart) → SessionBelongsTo log r later →
        (g : GetTold) → Contains later.gets g →
        (key : List ℕ) → IsOfHomes ring n key f → IsOfHomes ring n key g →
        AnswerAgain f.answers g.since g.answers →
        (d : Dot) → IsTrue (covers (newest (rows_of f.answers)) d) →
        IsTrue (covers (newest (rows_of g.answers)) d) }
{}

/// A get that covers a version, as a deletion, gives none that precedes it; and so it is where the
/// version was acknowledged, to this session or to another, and the get is sure to read it.
pub fn the_deleted_is_not_read_again()
    ensures covered { (ring : Tokens) (n r : ℕ) (log : List Entry) →
        IsLegal (layout_of ring n) (steps_of log) →
        (v : Version) → Contains (world_after (steps_of log)).versions v →
        (s : SessionPart) → SessionBelongsTo log r s → (g : GetTold) → Contains s.gets g →
        All (λ a. a.key ≡ v.key) g.answers →
        IsTrue (covers (newest (rows_of g.answers)) v.dot) →
        All (λ u. precedes u v ≡ false) (newest (rows_of g.answers)) }
    ensures written { (ring : Tokens) (n r : ℕ) (log : List Entry) →
        IsLegal (layout_of ring n) (steps_of log) →
        (v : Version) → Contains (world_after (steps_of log)).versions v →
        (writer : SessionPart) → SessionBelongsTo log r writer →
        (i : ℕ) (t : AckTold) (spent : List ReceiptParts) → IsAckSpent writer i t spent →
        v.key ≡ t.key → v.dot ≡ t.dot →
        (reader : SessionPart) → SessionBelongsTo log r reader →
        (g : GetTold) → Contains reader.gets g → t.at ≤ g.since →
        IsOfHomes ring n t.key g → n < r + length (own_homes spent) →
        All (λ u. precedes u v ≡ false) (newest (rows_of g.answers)) }
{}

/// A trail that keeps the steps of a log is as long as the log, and keeps at each place the step of
/// that place.
pub fn trails_keep_each_step()
    ensures each { (kept : List Kept) (steps : List Step) → AreKept kept steps →
        (i : ℕ) (k : Kept) → slice_get kept i ≡ Some k →
        (s : Step) × (slice_get steps i ≡ Some s) × Keeps k s }
    ensures many { (kept : List Kept) (steps : List Step) → AreKept kept steps →
        length kept ≡ length steps }
{}
