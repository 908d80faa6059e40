//! What the world of a closed cluster's steps has. It is a function that does nothing.
ghost use Rattle.std.specs.Prelude.{ℕ, List};
ghost use Rattle.dy_ring.specs.Rings.{Tokens};
ghost use Rattle.dy_shares.specs.Shares.{SessionPart};
ghost use Rattle.dy_cluster.specs.{Ends.{AtRest, IsEndOf}, declared.resting.Closed.{Closed}};
ghost use Rattle.dy_replay.specs.Replays.{Agrees, log_of};

/// The world that a replay of a closed cluster gives agrees with the cluster's audit: on what is
/// held, on the acks and where each is covered, on the settled keys, and on the number of steps.
/// Its versions, and the last counter of each node and key, are those of the issues in the history.
pub fn replays_agree()
    ensures { (ring : Tokens) (n r : ℕ) (c : AtRest) (tellings : List SessionPart)
        (closed : Closed) → IsEndOf ring n r c tellings closed →
        Agrees (log_of ring n c) closed.audit }
{}
