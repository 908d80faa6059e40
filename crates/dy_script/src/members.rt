ghost use Rattle.std.specs.{Prelude.{◌≡◌, map, option_map}, List.{list_all}};
ghost use Rattle.dy_script.specs.{
  inside.Documents.{view, items_view, members_view},
  inside.Keys.{is_one_of},
  Members.{need, optional, seen, allow_only, small, flag, optional_list, optional_whole, as_whole},
  Members.{as_small},
};
ghost use Rattle.serde_json.specs.Find.{get as member_of, as_str, as_bool, as_array, as_object};

use crate::documents::WRONG_SCRIPT;
use crate::numbers::number_of;
use dy_dots::Fault;
use json::Value;

/// The members of one JSON value, which has none where it is no object, and the number of the
/// command that it stands for, 0 for the script itself.
#[derive(Clone, Copy)]
pub(crate) struct Members<'v, 'a> {
    pub(crate) value: &'v Value<'a>,
    pub(crate) command: u32,
}

impl<'v, 'a> Members<'v, 'a> {
    /// The refusal of a wrong member.
    pub(crate) fn fault(&self) -> Fault
        ensures { result ≡ Fault.ScriptSyntax self.now.command }
    {
        Fault::ScriptSyntax {
            command: self.command,
        }
    }

    /// Refuses what is no object, and a member of any other name.
    #[tactic(auto, unfolding(crate::specs::Members::allow_only))]
    pub(crate) fn allow_only(&self, names: &[&str]) -> Result<(), Fault>
        ensures { result ≡ allow_only self.now.command (map (λ name. name.now) names.now)
            (view self.now.value.now) }
    {
        let Some(members) = object_of(self.value) else {
            return Err(self.fault());
        };
        if has_only(members, names) {
            Ok(())
        } else {
            Err(self.fault())
        }
    }

    /// The member of this name, where it is there.
    pub(crate) fn get(&self, name: &str) -> Option<&'v Value<'a>>
        ensures { option_map (λ v. view v.now) result
            ≡ member_of name.now (view self.now.value.now) }
    {
        self.value.get(name)
    }

    // What was found, or else that the command is wrong.
    fn need<T>(&self, found: Option<T>) -> Result<T, Fault>
        ensures { result ≡ need self.now.command found }
    {
        found.ok_or(self.fault())
    }

    // What was read of a member that may be left out.
    fn optional<T>(&self, read: Option<Option<T>>) -> Result<Option<T>, Fault>
        ensures { result ≡ optional self.now.command (λ found. found) read }
    {
        match read {
            Some(found) => Ok(Some(self.need(found)?)),
            None => Ok(None),
        }
    }

    /// The elements of the list of this name, where it is there.
    #[tactic(auto, unfolding(crate::specs::Members::optional_list))]
    pub(crate) fn optional_list(&self, name: &str) -> Result<Option<&'v [Value<'a>]>, Fault>
        ensures { seen (option_map (λ vs. items_view vs.now)) result
            ≡ optional_list self.now.command name.now (view self.now.value.now) }
    {
        self.optional(self.get(name).map(list_of))
    }

    /// The whole number of this name, where it is there.
    #[tactic(auto, unfolding(crate::specs::Members::optional_whole))]
    pub(crate) fn optional_whole(&self, name: &str) -> Result<Option<u64>, Fault>
        ensures { result ≡ optional_whole self.now.command name.now (view self.now.value.now) }
    {
        self.optional(self.get(name).map(whole_of))
    }

    /// The whole number from 0 to 255 of this name.
    #[tactic(auto, unfolding(crate::specs::Members::small))]
    pub(crate) fn small(&self, name: &str) -> Result<u8, Fault>
        ensures { result ≡ small self.now.command name.now (view self.now.value.now) }
    {
        self.need(self.get(name).and_then(small_of))
    }

    /// The truth value of this name, false where it is not there.
    #[tactic(auto, unfolding(crate::specs::Members::flag))]
    pub(crate) fn flag(&self, name: &str) -> Result<bool, Fault>
        ensures { result ≡ flag self.now.command name.now (view self.now.value.now) }
    {
        match self.get(name) {
            Some(value) => self.need(flag_of(value)),
            None => Ok(false),
        }
    }
}

/// The text that the value is.
pub(crate) fn text_of<'a>(value: &Value<'a>) -> Option<&'a str>
    ensures { option_map (λ s. s.now) result ≡ as_str (view value.now) }
{
    value.as_str()
}

/// The truth value that the value is.
fn flag_of(value: &Value) -> Option<bool>
    ensures { result ≡ as_bool (view value.now) }
{
    value.as_bool()
}

/// The elements of the list that the value is.
pub(crate) fn list_of<'v, 'a>(value: &'v Value<'a>) -> Option<&'v [Value<'a>]>
    ensures { option_map (λ vs. items_view vs.now) result ≡ as_array (view value.now) }
{
    match value {
        Value::Array(items) => Some(items.as_slice()),
        _ => None,
    }
}

/// The elements of the list of this name, taken out of a script, where it is there.
#[tactic(auto, unfolding(crate::specs::Members::optional_list))]
pub(crate) fn taken_list<'a>(value: Value<'a>, name: &str) -> Result<Option<Vec<Value<'a>>>, Fault>
    ensures { seen (option_map (λ vs. items_view vs.items)) result
        ≡ optional_list 0 name.now (view value.entry) }
{
    match taken(value, name) {
        Some(Value::Array(items)) => Ok(Some(items)),
        Some(_) => Err(WRONG_SCRIPT),
        None => Ok(None),
    }
}

/// The last member of this name, taken out of the value, where it is there.
fn taken<'a>(value: Value<'a>, name: &str) -> Option<Value<'a>>
    ensures { option_map view result ≡ member_of name.now (view value.entry) }
{
    let Value::Object(members) = value else {
        return None;
    };
    let mut found = None;
    for (key, member) in members {
        if key == name {
            found = Some(member);
        }
    }
    found
}

/// The members of the object that the value is, in their order.
fn object_of<'v, 'a>(value: &'v Value<'a>) -> Option<&'v [(&'a str, Value<'a>)]>
    ensures { option_map (λ ms. members_view ms.now) result ≡ as_object (view value.now) }
{
    match value {
        Value::Object(members) => Some(members.as_slice()),
        _ => None,
    }
}

/// The whole number that the value is.
pub(crate) fn whole_of(value: &Value) -> Option<u64>
    ensures { result ≡ as_whole (view value.now) }
{
    number_of(value.as_number()?)?.as_u64()
}

/// The whole number from 0 to 255 that the value is.
fn small_of(value: &Value) -> Option<u8>
    ensures { result ≡ as_small (view value.now) }
{
    match whole_of(value) {
        Some(number) => u8::try_from(number).ok(),
        None => None,
    }
}

/// Whether each member has one of the names.
fn has_only(members: &[(&str, Value)], names: &[&str]) -> bool
    ensures { result ≡ list_all (λ m. is_one_of names.now m.0.now) members.now }
{
    members.iter().all(|member| is_one_of(member.0, names))
}

/// Whether the key is one of the names.
pub(crate) fn is_one_of(key: &str, names: &[&str]) -> bool
    ensures { result ≡ is_one_of names.now key.now }
{
    names.iter().any(|name| *name == key)
}
