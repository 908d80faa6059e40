ghost use Rattle.std.specs.{
  Prelude.{◌≡◌, ◌<◌, ◌≤◌, ◌+◌, ◌*◌, ℕ, List, [], ◌∷◌, ◌++◌, map, length, IfNone, IfSome},
  List.{All, Contains},
};
ghost use Rattle.dy_transport.specs.{
  Asking.{IsSeenAt},
  Snapshots.{snapshot_of},
  Told.{Told},
  declared.asked.What.TheVariants.{Fetch},
};
ghost use Rattle.dy_dots.specs.declared.nodes.TheConstants.{MAX_NODES};
ghost use Rattle.dy_preference.specs.Preferences.{IsPreferred, home_for};
ghost use Rattle.dy_quorum.specs.Gatherings.{first_answers};
ghost use Rattle.dy_reads.specs.{Lists.{homes_in}, Rules.{IsReadOut, HasRead, as_read}};
ghost use Rattle.dy_coord.specs.{
  Gets.{StopsSoon, seen_in, seens_of},
  inside.GetParts.{Collects},
  inside.Reads.{MayRead},
};

use crate::get_tasks::GetTask;
use dy_core::{AnswerKind, AnswerRead, AnswerVec, Place};
use dy_dots::NodeId;
use dy_node::Answer;
use dy_preference::{Assign, Preference};
use dy_quorum::Gathering;
use dy_reads::{Request, ask_homes, read_next};
use dy_shares::{Naming, Seen, Since};
use dy_siblings::Key;
use dy_transport::Transport;
use std::sync::Wait;

// The row of an answer, if it has one.
fn seen_of<J: Naming>(answer: Answer<J>) -> Option<Seen<J>>
    ensures some { IfSome result (λ seen. seen_in answer ≡ seen ∷ []) }
    ensures none { IfNone result (seen_in answer ≡ []) }
{
    match answer {
        Answer::Rows(seen) => Some(seen),
        Answer::Stored(_receipts) => None,
        Answer::Down | Answer::NoAnswer | Answer::Refused(_) => None,
    }
}

// Reads until enough homes have answered with a row, or no answer is left.
fn read_rows<J: Naming, T: Transport<J>, R: Wait>(
    rt: &R,
    transport: &mut T,
    key: &Key,
    since: &Since<J>,
    assign: &mut Assign<'_>,
    gathering: &mut Gathering<J>,
    answers: &mut AnswerVec,
)
    requires room { MayRead (T.told transport.old) assign.old (length answers.old.items)
        answers.old.capacity gathering.old.room }
    requires one { length gathering.old.seens ≡ 1 }
    requires r { length (first_answers gathering.old.seens) ≤ gathering.old.r }
    requires whats { All (λ a. a.what ≡ Fetch (snapshot_of key.now) since.now)
        (T.told transport.old).asks }
    ensures reading { HasRead (Fetch (snapshot_of key.now) since.now) (T.told transport.old).asks
        assign.old (T.told transport.new).asks (T.told transport.new).replies assign.new }
    ensures tries { (T.told transport.new).tries ≡ (T.told transport.old).tries }
    ensures room { (T.told transport.new).room ≡ (T.told transport.old).room }
    ensures seens { gathering.new.seens
        ≡ gathering.old.seens ++ seens_of (T.told transport.new).replies }
    ensures r { gathering.new.r ≡ gathering.old.r }
    ensures answers { answers.new.items
        ≡ answers.old.items ++ map as_read (T.told transport.new).replies }
    ensures most { length (first_answers gathering.new.seens) ≤ gathering.old.r }
    ensures stops { StopsSoon gathering.old.r gathering.old.seens (T.told transport.new).replies }
    ensures out { length (first_answers gathering.new.seens) < gathering.old.r →
        IsReadOut (T.told transport.new) }
    ensures for_homes { (homes : List ℕ) →
        All (λ a. Contains homes a.home) (T.told transport.old).asks →
        All (λ s. Contains homes s.home) gathering.old.seens →
        All (λ s. Contains homes s.home) gathering.new.seens }
{
    let request = Request::Fetch { key, since };
    'reading: for _ in rt.forever() {
        if gathering.is_ready() {
            break;
        }
        let Some((_, answer)) = read_next(rt, transport, &request, assign, answers) else {
            break;
        };
        if let Some(seen) = seen_of(answer) {
            gathering.add(seen);
        }
    }
}

impl<J: Naming> GetTask<'_, J> {
    /// Asks the homes, and reads until enough of them have answered with a row.
    pub(crate) fn gather<T: Transport<J>, R: Wait>(
        &self,
        rt: &R,
        transport: &mut T,
        list: &Preference,
        coordinator: NodeId,
        own: Seen<J>,
        gathering: &mut Gathering<J>,
        answers: &mut AnswerVec,
    )
        requires valid { IsPreferred list.now }
        requires fresh_asks { (T.told transport.old).asks ≡ [] }
        requires fresh_replies { (T.told transport.old).replies ≡ [] }
        requires room { MAX_NODES ≤ (T.told transport.old).room }
        requires own { IsSeenAt coordinator (home_for (homes_in list.now) coordinator)
            self.now.key.now self.now.since own }
        requires none { gathering.old.seens ≡ [] }
        requires r { 1 ≤ gathering.old.r }
        requires no_answers { answers.old.items ≡ [] }
        requires answers_room { 2 * length list.now.nodes ≤ answers.old.capacity }
        requires gathering_room { 2 * length list.now.nodes ≤ gathering.old.room }
        ensures collects { Collects list.now self.now.key.now gathering.old.r self.now.since
            coordinator own (T.told transport.new) gathering.new.seens answers.new.items }
        ensures tries { (T.told transport.new).tries ≡ (T.told transport.old).tries }
        ensures room { (T.told transport.new).room ≡ (T.told transport.old).room }
        ensures r { gathering.new.r ≡ gathering.old.r }
    {
        let key = self.key;
        let since = &self.since;
        let held = list.home_for(coordinator);
        answers.push_reserved(AnswerRead {
            place: Place {
                holder: coordinator,
                home: held,
            },
            kind: AnswerKind::Rows,
        });
        gathering.add(own);
        ask_homes(rt, transport, &Request::Fetch { key, since }, held, list);
        let mut assign = Assign::new(list, coordinator);
        read_rows(rt, transport, key, since, &mut assign, gathering, answers);
    }
}
