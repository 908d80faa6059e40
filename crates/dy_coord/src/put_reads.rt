ghost use Rattle.std.specs.{Prelude.{◌≡◌, ◌≤◌, ◌+◌, ◌*◌, ◌++◌, ℕ, IsTrue, length, map}, List.{All}};
ghost use Rattle.dy_transport.specs.{Snapshots.{snapshot_of}, Told.{Told}};
ghost use Rattle.dy_dots.specs.Dots.{same_dot};
ghost use Rattle.dy_siblings.specs.Siblings.{has_dot};
ghost use Rattle.dy_preference.specs.Preferences.{IsPreferred};
ghost use Rattle.dy_transport.specs.declared.asked.What.TheVariants as what;
ghost use Rattle.dy_quorum.specs.Tallies.{DoAgree};
ghost use Rattle.dy_reads.specs.Rules.{HasRead, IsReadOut, MayStandIn, as_read, nodes_asked};
ghost use Rattle.dy_reads.specs.declared.requests.Request.TheVariants as request;
ghost use Rattle.dy_coord.specs.{
  Puts.{receipts_read},
  inside.PutReads.{HasOwnReceipt, last_of, receipt_at},
  inside.Reads.{MayRead},
};

use dy_core::AnswerVec;
use dy_dots::Dot;
use dy_node::{Answer, VouchedRow};
use dy_preference::{Assign, Preference};
use dy_quorum::Tally;
use dy_reads::{Request, read_next};
use dy_shares::{Naming, Receipt};
use dy_transport::Transport;
use std::sync::Wait;

// For how many answers a put or a get makes room: two of each node of the list.
pub(crate) fn most_answers(list: &Preference) -> usize
    ensures value { result ≡ 2 * length list.now.nodes }
    ensures valid { IsPreferred list.now }
{
    2 * list.nodes().len()
}

// Whether the receipt is of the dot.
fn is_of<J: Naming>(receipt: &Receipt<J>, dot: Dot) -> bool
    ensures { result ≡ same_dot receipt.now.dot dot }
{
    receipt.dot() == dot
}

// The last of these receipts that is of the dot. It looks from the end, where the receipt of a new
// version lies, so it looks at few.
fn receipt_of_dot<J: Naming>(mut receipts: Vec<Receipt<J>>, dot: Dot) -> Option<Receipt<J>>
    ensures { result ≡ last_of dot receipts.items }
{
    while let Some(receipt) = receipts.pop() {
        if is_of(&receipt, dot) {
            return Some(receipt);
        }
    }
    None
}

// The receipt of the dot in an answer, if its node holds the row.
fn receipt_in<J: Naming>(answer: Answer<J>, dot: Dot) -> Option<Receipt<J>>
    ensures { result ≡ receipt_at dot answer }
{
    match answer {
        Answer::Stored(receipts) => receipt_of_dot(receipts, dot),
        Answer::Rows(_seen) => None,
        Answer::Down | Answer::NoAnswer | Answer::Refused(_) => None,
    }
}

// Reads every answer, and adds the receipt of each node that holds the row.
pub(crate) fn read_put<J: Naming, T: Transport<J>, R: Wait>(
    rt: &R,
    transport: &mut T,
    row: &VouchedRow<J>,
    dot: Dot,
    assign: &mut Assign<'_>,
    tally: &mut Tally<J>,
    answers: &mut AnswerVec,
)
    requires room { MayRead (T.told transport.old) assign.old (length answers.old.items)
        answers.old.capacity tally.old.room }
    requires dot { IsTrue (has_dot row.now.versions dot) }
    requires one_key { All (λ v. v.key ≡ row.now.key) row.now.versions }
    requires own { HasOwnReceipt row.now.key dot tally.old.added
        (nodes_asked (T.told transport.old).asks ++ assign.old) }
    requires agree { DoAgree tally.old.added }
    requires whats { All (λ a. a.what ≡ what.Store (snapshot_of row.now))
        (T.told transport.old).asks }
    requires may_ask { MayStandIn {J = J} J.ring J.n (request.Store row)
        (T.told transport.old).asks assign.old }
    ensures reading { HasRead (what.Store (snapshot_of row.now))
        (T.told transport.old).asks assign.old
        (T.told transport.new).asks (T.told transport.new).replies assign.new }
    ensures tries { (T.told transport.new).tries ≡ (T.told transport.old).tries }
    ensures room { (T.told transport.new).room ≡ (T.told transport.old).room }
    ensures agree { DoAgree tally.new.added }
    ensures added { tally.new.added
        ≡ tally.old.added ++ receipts_read row.now.key dot (T.told transport.new).replies }
    ensures w { tally.new.w ≡ tally.old.w }
    ensures answers { answers.new.items
        ≡ answers.old.items ++ map as_read (T.told transport.new).replies }
    ensures out { IsReadOut (T.told transport.new) }
{
    let request = Request::Store(row);
    'reading: for _ in rt.forever() {
        let Some((_, answer)) = read_next(rt, transport, &request, assign, answers) else {
            break;
        };
        if let Some(receipt) = receipt_in(answer, dot) {
            tally.add(receipt);
        }
    }
}
