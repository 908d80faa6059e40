ghost use Rattle.std.specs.Prelude.{◌≡◌, ◌↔◌, ◌<◌, IsTrue};
ghost use Rattle.dy_shares.specs.Shares.{receipt_parts};
ghost use Rattle.dy_transport.specs.Asking.{IsSeenAt};
ghost use Rattle.dy_sheets.specs.{
  Kept.{receipts_at},
  Sheets.{FitsKept, FitsNothing, FitsSent, IsFitted, answer_unsent},
};

use crate::kept::Kept;
use dy_dots::{Dot, Fault, NodeId};
use dy_node::Answer;
use dy_shares::{Naming, Receipt, Seen};
use dy_siblings::Key;

/// What is kept of an ask: the node and the home, what its answers are held against, where there
/// was memory for it, and whether it is on its way.
#[derive(Drop)]
pub struct Sent {
    pub to: NodeId,
    pub home: NodeId,
    pub kept: Option<Kept>,
    pub is_posted: bool,
}

// Whether the receipt is of the key and the dot, at this node for this home.
fn is_receipt<J: Naming>(
    receipt: &Receipt<J>,
    key: &Key,
    dot: Dot,
    to: NodeId,
    home: NodeId,
) -> bool
    ensures { IsTrue result ↔ (receipt.now ≡ receipt_parts key.now dot to home) }
{
    receipt.key() == key && receipt.dot() == dot && receipt.holder() == to && receipt.home() == home
}

// Whether the receipts are of these dots of the key, in their order, at this node for this home.
fn are_receipts<J: Naming>(
    receipts: &[Receipt<J>],
    key: &Key,
    dots: &[Dot],
    to: NodeId,
    home: NodeId,
) -> bool
    ensures { IsTrue result ↔ (receipts.now ≡ receipts_at key.now dots.now to home) }
{
    if receipts.len() != dots.len() {
        return false;
    }
    for i in 0..receipts.len() {
        if !is_receipt(&receipts[i], key, dots[i], to, home) {
            return false;
        }
    }
    true
}

// Whether it was seen at this node for this home and key, after so many steps.
fn is_seen<J: Naming>(seen: &Seen<J>, to: NodeId, home: NodeId, key: &Key, since: usize) -> bool
    ensures { IsTrue result ↔ IsSeenAt to home key.now since seen.now }
{
    seen.holder() == to && seen.home() == home && seen.key() == key && since < seen.at()
}

// Whether the answer is one of this node, for this home, to the ask of which this was kept.
fn fits_kept<J: Naming>(to: NodeId, home: NodeId, kept: &Kept, answer: &Answer<J>) -> bool
    ensures { IsTrue result ↔ FitsKept to home kept.now answer.now }
{
    match (kept, answer) {
        (Kept::Store { key, dots }, Answer::Stored(receipts)) => {
            are_receipts(receipts, key, dots.as_slice(), to, home)
        }
        (Kept::Fetch { key, since }, Answer::Rows(seen)) => is_seen(seen, to, home, key, *since),
        (Kept::Store { .. }, Answer::Rows(_)) | (Kept::Fetch { .. }, Answer::Stored(_)) => { false }
        (_, Answer::Down | Answer::NoAnswer | Answer::Refused(_)) => true,
    }
}

// Whether the answer is one to an ask of which nothing was kept.
fn fits_nothing<J: Naming>(answer: &Answer<J>) -> bool
    ensures { IsTrue result ↔ FitsNothing answer.now }
{
    match answer {
        Answer::Stored(_) | Answer::Rows(_) => false,
        Answer::Down | Answer::NoAnswer | Answer::Refused(_) => true,
    }
}

impl Sent {
    // Whether the answer is one to this ask.
    #[inline(always)]
    fn fits<J: Naming>(&self, answer: &Answer<J>) -> bool
        ensures { IsTrue result ↔ FitsSent self.now answer.now }
    {
        match &self.kept {
            Some(kept) => fits_kept(self.to, self.home, kept, answer),
            None => fits_nothing(answer),
        }
    }

    // What is answered where it is not on its way: refused where there was no memory for it, else
    // that nothing came.
    pub(crate) fn not_sent<J: Naming>(&self) -> Answer<J>
        ensures { result ≡ answer_unsent self.now.kept }
    {
        match &self.kept {
            None => Answer::Refused(Fault::OutOfMemory),
            Some(_) => Answer::NoAnswer,
        }
    }

    // The answer where it is one to this ask, else that nothing came.
    #[inline(always)]
    pub(crate) fn only_fitting<J: Naming>(&self, answer: Answer<J>) -> Answer<J>
        ensures fits { FitsSent self.now result }
        ensures fitted { IsFitted self.now answer result }
    {
        if self.fits(&answer) {
            answer
        } else {
            Answer::NoAnswer
        }
    }
}
