use crate::lists::Ranked;
use arrayvec::ArrayVec;
use dy_dots::NodeId;
use std::cmp::Ordering;

/// A node and a home that it holds for, or may hold for. They are ordered by home, then by holder.
#[derive(Clone, Copy, Debug, Default, PartialEq, Eq)]
pub struct Place {
    pub holder: NodeId,
    pub home: NodeId,
}

/// Places of distinct homes, in the value itself: there are no more than nodes.
pub type PlaceVec = ArrayVec<Place, 32>;

impl Ranked for Place {
    ghost use Rattle.dy_core.specs.Orders.{place_cmp};

    ghost ranked = { place_cmp };

    fn rank(&self, other: &Place) -> Ordering {
        self.home
            .cmp(&other.home)
            .then(self.holder.cmp(&other.holder))
    }
}

impl Place {
    ghost use Rattle.std.specs.Prelude.{◌≡◌};
    ghost use Rattle.dy_core.specs.inside.Meanings.{clashes};

    /// The place of a home that holds for itself. Takes no memory.
    pub fn own(home: NodeId) -> Place
        ensures { result ≡ record { holder = home; home = home } }
    {
        Place { holder: home, home }
    }

    // Whether the other has its home or its holder in common.
    pub(crate) fn clashes(self, other: Place) -> bool
        ensures { result ≡ clashes self other }
    {
        other.home == self.home || other.holder == self.holder
    }
}
