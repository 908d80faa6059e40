// How puts are acknowledged.
ghost use Rattle.std.specs.{
  Prelude.{◌≡◌, ◌≢◌, ◌+◌, ◌<◌, ◌≤◌, ◌↔◌, ◌⊎◌, ◌∷◌, ℕ, List, [], map, length, nat_eq, IfErr, OnOk},
  Prelude.{OnErr, IsErrOf},
  List.{IsDistinct},
};
ghost use Rattle.dy_dots.specs.declared.dots.Dot.{Dot as DotParts};
ghost use Rattle.dy_core.specs.declared.steps.Step.TheVariants.{Ack};
ghost use Rattle.dy_shares.specs.Shares.{NodeStays, SessionBelongsTo, SessionStays};
ghost use Rattle.dy_shares.specs.Shares.{since_of, told_to, with_ack};
ghost use Rattle.dy_book.specs.Books.{AreOf, LacksRoom, with_entries};

use crate::books::Book;
use dy_dots::Fault;
use dy_shares::{Naming, Receipt, SessionShare};

impl<J: Naming> Book<J> {
    /// Acknowledges a put of w homes to the session. It spends w receipts of one key and dot, of
    /// distinct homes and distinct holders.
    pub fn ack(
        &mut self,
        share: &mut SessionShare<J>,
        w: u8,
        receipts: &Vec<Receipt<J>>,
    ) -> Result<(), Fault>
        requires some { 1 ≤ w }
        requires few { w ≤ J.n }
        requires count { length receipts.now.items ≡ w }
        requires one_dot { (key : List ℕ) × (d : DotParts) × AreOf key d receipts.now.items }
        requires homes { IsDistinct nat_eq (map (λ r. r.home) receipts.now.items) }
        requires holders { IsDistinct nat_eq (map (λ r. r.holder) receipts.now.items) }
        ensures log { (key : List ℕ) (d : DotParts) → AreOf key d receipts.now.items →
            OnOk result (self.new ≡
            with_entries self.old (told_to share.old.session (Ack key d w) ∷ [])) }
        ensures share { (key : List ℕ) (d : DotParts) → AreOf key d receipts.now.items →
            OnOk result (share.new
            ≡ with_ack share.old (length self.old.log + 1) (Ack key d w) receipts.now.items) }
        ensures later { since_of share.old ≤ length self.old.log }
        ensures steps_full { IsErrOf result Fault.StepsFull ↔ LacksRoom self.old 1 }
        ensures only { IfErr result (λ fault.
            (fault ≡ Fault.StepsFull) ⊎ (fault ≡ Fault.OutOfMemory)) }
        ensures err { OnErr result ((self.new ≡ self.old) × (share.new ≡ share.old)) }
        ensures belongs { SessionBelongsTo self.old.log J.r share.old }
        ensures nodes { (node : ℕ) → NodeStays self.old.log self.new.log node }
        ensures sessions { (session : ℕ) → session ≢ share.old.session →
            SessionStays self.old.log self.new.log session }
    {
        self.ledger.agree_session(share);
        if self.steps_left() < 1 {
            return Err(Fault::StepsFull);
        }
        let Some(first) = receipts.first() else {
            unreachable!()
        };
        self.ledger.learn_receipts(receipts.as_slice());
        self.ledger
            .ack_step(share, first.key(), first.dot(), w, receipts)?;
        Ok(())
    }
}
