// Which version an issue would add.
ghost use Rattle.std.specs.Prelude.{◌≡◌, ◌+◌, ◌<◌, ◌↔◌, ◌⊎◌, IfOk, IfErr, IsErrOf, MatchOption};
ghost use Rattle.dy_dots.specs.declared.dots.Dot.{Dot as DotParts};
ghost use Rattle.dy_core.specs.{Steps.{IsKnown, version_made}, Listings.{IsLeastUnknown}};
ghost use Rattle.dy_book.specs.Books.{HasVersionsLeft, LacksRoom, MayIssue, world_of};

use crate::books::Book;
use dy_dots::{Context, Dot, Fault};
use dy_shares::{Naming, NodeShare};
use dy_siblings::{Key, Value, Version};

impl<J: Naming> Book<J> {
    /// The least dot of the context that no version of the key has, if there is one. It goes run by
    /// run, not dot by dot. Takes no memory.
    pub fn unknown(&self, key: &Key, context: &Context) -> Option<Dot>
        ensures { MatchOption result (IsKnown (world_of self.now) key.now context.now)
            (IsLeastUnknown (world_of self.now).versions key.now context.now) }
    {
        dy_index::unknown(self.part(key), context)
    }

    /// The version that an issue would add now for the share's node. Its dot has the node's last
    /// counter of the key plus one. Its past is the union of the histories of the versions that the
    /// context names. Makes no step.
    pub fn plan(
        &self,
        share: &NodeShare<J>,
        key: &Key,
        context: &Context,
        value: Option<Value>,
    ) -> Result<Version, Fault>
        requires room { (world_of self.now).counters share.now.node key.now
            < self.now.options.counter_limit }
        ensures ok { IfOk result (λ version. version
            ≡ version_made (world_of self.now) share.now.node key.now context.now value) }
        ensures may { IfOk result (λ version. MayIssue self.now share.now.node version) }
        ensures context_unknown { (d : DotParts) → IsErrOf result (Fault.ContextUnknown d)
            ↔ IsLeastUnknown (world_of self.now).versions key.now context.now d }
        ensures versions_full { IsErrOf result Fault.VersionsFull
            ↔ (IsKnown (world_of self.now) key.now context.now
            × (HasVersionsLeft self.now → ⊥)) }
        ensures steps_full { IsErrOf result Fault.StepsFull
            ↔ (IsKnown (world_of self.now) key.now context.now
            × HasVersionsLeft self.now × LacksRoom self.now 2) }
        ensures only { IfErr result (λ fault.
            ((d : DotParts) × (fault ≡ Fault.ContextUnknown d))
            ⊎ ((fault ≡ Fault.VersionsFull) ⊎ ((fault ≡ Fault.StepsFull)
            ⊎ (fault ≡ Fault.OutOfMemory)))) }
    {
        let part = self.part(key);
        if let Some(dot) = dy_index::unknown(part, context) {
            return Err(Fault::ContextUnknown { dot });
        }
        if self.versions >= self.options.versions_limit {
            return Err(Fault::VersionsFull);
        }
        if self.steps_left() < 2 {
            return Err(Fault::StepsFull);
        }
        let node = share.node();
        let counter = dy_index::last(part, node) as u32 + 1;
        let dot = Dot::new(node, counter).unwrap();
        let past = match dy_index::past_named(self.alloc, part, context) {
            Ok(past) => past,
            Err(fault) => return Err(fault),
        };
        let key = match dy_index::own_copy(self.alloc, &self.keys, key) {
            Ok(key) => key,
            Err(fault) => return Err(fault),
        };
        match Version::new(self.alloc, key, dot, past, value) {
            Ok(version) => Ok(version),
            Err(fault) => Err(fault),
        }
    }
}
