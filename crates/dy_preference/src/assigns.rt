ghost use Rattle.std.specs.{
  Prelude.{take, nat_eq, false, ◌≢◌, ◌≡◌, [], ◌∷◌, IfSome, IfNone},
  List.{All, IsDistinct},
};
ghost use Rattle.dy_preference.specs.Preferences.{is_home, stand_ins_of};

use crate::lists::Preference;
use dy_dots::NodeId;
use std::marker::Model;

/// The nodes that may stand in for a home, in the order in which they are asked (Dynamo, section
/// 4.6).
#[derive(Drop)]
pub struct Assign<'a> {
    rest: &'a [NodeId],
    coordinator: NodeId,
}

impl<'a> Model for Assign<'a> {
    ghost use Rattle.std.specs.{
      Prelude.{take, nat_eq, false, ◌≢◌, ℕ, List, ◌==◌, not},
      List.{filter},
    };

    ghost Value = { List ℕ };

    ghost view = { λ assign. filter (λ node. not (node == assign.coordinator)) assign.rest.now };
}

impl<'a> Assign<'a> {
    /// The nodes past the homes, without the coordinator. Takes no memory.
    pub fn new(list: &'a Preference, coordinator: NodeId) -> Assign<'a>
        ensures value { result ≡ stand_ins_of list.now.nodes list.now.n coordinator }
        ensures once { IsDistinct nat_eq result }
        ensures others { All (λ node. node ≢ coordinator) result }
        ensures past { All (λ node. is_home (take list.now.n list.now.nodes) node ≡ false) result }
    {
        Assign {
            rest: list.past_homes(),
            coordinator,
        }
    }

    /// The next node, where one is left. Takes no memory.
    pub fn next(&mut self) -> Option<NodeId>
        ensures some { IfSome result (λ node. self.old ≡ node ∷ self.new) }
        ensures none { IfNone result (self.old ≡ []) }
        ensures ended { IfNone result (self.new ≡ []) }
    {
        while let Some((first, rest)) = self.rest.split_first() {
            self.rest = rest;
            if *first != self.coordinator {
                return Some(*first);
            }
        }
        None
    }
}
