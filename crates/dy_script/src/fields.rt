ghost use Rattle.std.specs.Prelude.{◌≡◌, length};
ghost use Rattle.dy_script.specs.declared.orders.TheConstants.{PLACES};

use crate::members::is_one_of;
use crate::orders::{Name, PLACES, text_at};

/// What a member of a command says.
#[derive(Clone, Copy, Debug)]
pub(crate) enum Field<'a> {
    Text(&'a str),
    Whole(u64),
    /// What no command has.
    Other,
}

/// The members of a command that were read one by one, each at the place of its name.
#[derive(Drop)]
pub(crate) struct Fields<'a> {
    places: [Option<Field<'a>>; PLACES],
    ghost sized: { length places ≡ PLACES },
}

impl<'a> Fields<'a> {
    ghost use Rattle.std.specs.Prelude.{◌≡◌, ◌<◌, ◌||◌, map, option_map, is_none, slice_index_or};
    ghost use Rattle.serde_json.specs.{Data.{no_members, put}, Find.{get_member}};
    ghost use Rattle.dy_script.specs.{
      Members.{knows},
      inside.Fields.{name_at, name_text, field_data, members_told},
      inside.Keys.{is_one_of},
    };

    /// No member.
    pub(crate) fn new() -> Fields<'a>
        ensures { members_told result ≡ no_members }
    {
        Fields {
            places: [None; PLACES],
        }
    }

    /// Takes all members out.
    pub(crate) fn clear(&mut self)
        ensures { members_told self.new ≡ no_members }
    {
        self.places = [None; PLACES];
    }

    /// Puts the field in place of what had its name before.
    pub(crate) fn set(&mut self, name: Name, field: Field<'a>)
        ensures { members_told self.new
            ≡ put (name_text name) (field_data field.entry) (members_told self.old) }
    {
        self.places[name.place()] = Some(field);
    }

    /// The field of this name, where it is there.
    pub(crate) fn get(&self, name: Name) -> Option<Field<'a>>
        ensures { option_map field_data result
            ≡ get_member (name_text name) (members_told self.now) }
    {
        self.places[name.place()]
    }

    /// Whether each member has one of the names.
    pub(crate) fn has_only(&self, names: &[&str]) -> bool
        ensures { result
            ≡ knows (map (λ name. name.now) names.now) (members_told self.now) }
    {
        for place in 0..PLACES {
            if !self.allows(place, names) {
                return false;
            }
        }
        true
    }

    // Whether no field stands at this place, or one of the names does.
    fn allows(&self, place: usize, names: &[&str]) -> bool
        requires { place < PLACES }
        ensures { result ≡ (is_none (slice_index_or self.now.places place None)
            || is_one_of names.now (name_at place)) }
    {
        self.places[place].is_none() || is_one_of(text_at(place), names)
    }
}
