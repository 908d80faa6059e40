ghost use Rattle.std.specs.Prelude.{◌≡◌, map, option_map, option_and_then};
ghost use Rattle.serde_json.specs.Find.{get as member_of, as_str};
ghost use Rattle.dy_script.specs.{
  Members.{need, optional, seen, allow_only, text, optional_text, optional_small, as_whole},
  inside.Documents.{view},
  inside.Fields.{Tells, name_text, source_data, text_in, whole_in, small_in},
};

use crate::fields::{Field, Fields};
use crate::members::{Members, text_of, whole_of};
use crate::orders::Name;
use dy_dots::Fault;
use json::Value;

/// Where the members of a command stand.
#[derive(Clone, Copy)]
pub(crate) enum Source<'v, 'a> {
    Tree(&'v Value<'a>),
    Told(&'v Fields<'a>),
}

/// A command that was not judged yet: its members, and its number.
#[derive(Clone, Copy)]
pub(crate) struct Order<'v, 'a> {
    pub(crate) source: Source<'v, 'a>,
    pub(crate) command: u32,
}

impl<'v, 'a> Order<'v, 'a> {
    /// The refusal of a wrong member.
    pub(crate) fn fault(&self) -> Fault
        ensures { result ≡ Fault.ScriptSyntax self.now.command }
    {
        let command = self.command;
        Fault::ScriptSyntax { command }
    }

    /// Refuses what is no object, and a member of any other name.
    #[tactic(auto, unfolding(crate::specs::Members::allow_only))]
    pub(crate) fn allow_only(&self, names: &[&str]) -> Result<(), Fault>
        ensures { result ≡ allow_only self.now.command (map (λ name. name.now) names.now)
            (source_data self.now.source) }
    {
        match self.source {
            Source::Tree(value) => {
                let members = Members {
                    value,
                    command: self.command,
                };
                members.allow_only(names)
            }
            Source::Told(fields) => {
                if fields.has_only(names) {
                    Ok(())
                } else {
                    Err(self.fault())
                }
            }
        }
    }

    // The member of this name, where it is there.
    fn get(&self, name: Name) -> Option<Field<'a>>
        ensures { Tells result (member_of (name_text name) (source_data self.now.source)) }
    {
        match self.source {
            Source::Tree(value) => value_told(value, name),
            Source::Told(fields) => fields.get(name),
        }
    }

    /// The text of this name.
    pub(crate) fn text(&self, name: Name) -> Result<&'a str, Fault>
        ensures { seen (λ s. s.now) result
            ≡ text self.now.command (name_text name) (source_data self.now.source) }
    {
        needed_text(self.get(name), self.command)
    }

    /// The text of this name, where it is there.
    pub(crate) fn optional_text(&self, name: Name) -> Result<Option<&'a str>, Fault>
        ensures { seen (option_map (λ s. s.now)) result
            ≡ optional_text self.now.command (name_text name) (source_data self.now.source) }
    {
        told_text(self.get(name), self.command)
    }

    /// The whole number from 0 to 255 of this name, where it is there.
    pub(crate) fn optional_small(&self, name: Name) -> Result<Option<u8>, Fault>
        ensures { result
            ≡ optional_small self.now.command (name_text name) (source_data self.now.source) }
    {
        told_small(self.get(name), self.command)
    }

    /// The whole number of this name, where it is there.
    pub(crate) fn whole(&self, name: Name) -> Option<u64>
        ensures { result ≡ option_and_then as_whole
            (member_of (name_text name) (source_data self.now.source)) }
    {
        told_whole(self.get(name))
    }
}

/// The member of this name of a tree's object, where it is there.
fn value_told<'a>(value: &Value<'a>, name: Name) -> Option<Field<'a>>
    ensures { Tells result (member_of (name_text name) (view value.now)) }
{
    let members = Members { value, command: 0 };
    match members.get(name.text()) {
        Some(member) => Some(field_of(member)),
        None => None,
    }
}

/// What the value says.
fn field_of<'a>(value: &Value<'a>) -> Field<'a>
    ensures text { text_in result ≡ as_str (view value.now) }
    ensures whole { whole_in result ≡ as_whole (view value.now) }
{
    if let Some(text) = text_of(value) {
        return Field::Text(text);
    }
    match whole_of(value) {
        Some(number) => Field::Whole(number),
        None => Field::Other,
    }
}

/// The text of a field that must be there, in this command.
fn needed_text<'a>(field: Option<Field<'a>>, command: u32) -> Result<&'a str, Fault>
    ensures { seen (λ s. s.now) result ≡ need command (option_and_then text_in field.entry) }
{
    match field {
        Some(Field::Text(text)) => Ok(text),
        _ => Err(Fault::ScriptSyntax { command }),
    }
}

/// The text of a field, where it is there.
fn told_text<'a>(field: Option<Field<'a>>, command: u32) -> Result<Option<&'a str>, Fault>
    ensures { seen (option_map (λ s. s.now)) result ≡ optional command text_in field.entry }
{
    match field {
        Some(Field::Text(text)) => Ok(Some(text)),
        Some(_) => Err(Fault::ScriptSyntax { command }),
        None => Ok(None),
    }
}

/// The whole number from 0 to 255 of a field, where it is there.
fn told_small(field: Option<Field>, command: u32) -> Result<Option<u8>, Fault>
    ensures { result ≡ optional command small_in field.entry }
{
    match field {
        Some(Field::Whole(number)) => match u8::try_from(number) {
            Ok(small) => Ok(Some(small)),
            Err(_) => Err(Fault::ScriptSyntax { command }),
        },
        Some(_) => Err(Fault::ScriptSyntax { command }),
        None => Ok(None),
    }
}

/// The whole number of a field, where it is there.
fn told_whole(field: Option<Field>) -> Option<u64>
    ensures { result ≡ option_and_then whole_in field.entry }
{
    match field {
        Some(Field::Whole(number)) => Some(number),
        _ => None,
    }
}
