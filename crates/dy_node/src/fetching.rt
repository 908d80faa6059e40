// What a node answers to a fetch.
ghost use Rattle.std.specs.{
  Prelude.{◌≡◌, ◌+◌, ◌<◌, ◌∷◌, [], length, IfOk, OnOk, OnErr},
  Result.{result_err},
};
ghost use Rattle.dy_siblings.specs.Siblings.{IsSameRow};
ghost use Rattle.dy_core.specs.{Steps.{place_for}, declared.steps.Step.TheVariants.{Fetch}};
ghost use Rattle.dy_book.specs.Books.{with_untold};
ghost use Rattle.dy_node.specs.{Stored.{versions_at}, Refusals.{FetchRefused}};

use crate::nodes::Node;
use dy_book::Book;
use dy_dots::{Fault, NodeId};
use dy_shares::{Naming, Seen, Since};
use dy_siblings::Key;

impl<J: Naming> Node<J> {
    /// Fetches the row that the node keeps of the key for the home. Where it keeps none, the row
    /// has no version. The number of the step is greater than the since.
    #[inline(always)]
    pub fn fetch(
        &mut self,
        book: &mut Book<J>,
        home: NodeId,
        key: &Key,
        since: &Since<J>,
    ) -> Result<Seen<J>, Fault>
        ensures node { self.new ≡ self.old }
        ensures log { OnOk result
            (book.new ≡ with_untold book.old
            (Fetch (place_for self.old.part.node home) key.now ∷ [])) }
        ensures holder { IfOk result (λ seen. seen.holder ≡ self.old.part.node) }
        ensures home { IfOk result (λ seen. seen.home ≡ home) }
        ensures key { IfOk result (λ seen. seen.key ≡ key.now) }
        ensures at { IfOk result (λ seen. seen.at ≡ length book.old.log + 1) }
        ensures row { IfOk result (λ seen.
            IsSameRow seen.row (versions_at self.old.rooms home key.now)) }
        ensures later { IfOk result (λ seen. since.now < seen.at) }
        ensures refused { FetchRefused book.old self.old (result_err result) }
        ensures err { OnErr result (book.new ≡ book.old) }
    {
        if !self.is_up {
            return Err(Fault::Down);
        }
        book.agree(&mut self.share);
        book.fetch_step(&self.share, home, key, since)
    }
}
