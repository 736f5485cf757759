// The shape of the values on top.
ghost use Rattle.std.specs.Prelude.{◌≡◌, ◌∷◌, [], true};
ghost use Rattle.kr_parse_grammar.specs.Values.{tag, tag_of_form, tag_of_member, is_plain};
ghost use Rattle.kr_parse_reduction.specs.Kept.{are};
ghost use Rattle.kr_parse_trees.specs.Built.{values_of, IsBuilt};

use crate::builder::Builder;
use kr_parse_grammar::{Form, Modifiers, Tag};
use kr_parse_reduction::{Kept, Sort};

fn tag_of_form(form: Form) -> Tag
    ensures { result ≡ tag_of_form form }
{
    match form {
        Form::Target => Tag::Target,
        Form::Invocation => Tag::Invocation,
        Form::ArrayCreation => Tag::ArrayCreation,
        Form::Type => Tag::Type,
        Form::Local => Tag::Local,
        Form::Other => Tag::Other,
    }
}

fn tag_of_member(is_nested: bool, modifiers: Modifiers) -> Tag
    ensures { result ≡ tag_of_member is_nested modifiers }
{
    if modifiers.overrides {
        Tag::Overriding
    } else if modifiers.is_static && !is_nested {
        Tag::Nestable
    } else {
        Tag::Other
    }
}

fn is_plain(modifiers: Modifiers) -> bool
    ensures { result ≡ is_plain modifiers }
{
    !modifiers.is_static && !modifiers.is_final && !modifiers.overrides
}

impl Builder {
    /// The tag of a word on top: the class's name in a position for a constructor, or another word.
    fn tag_of_word(&self) -> Tag
        requires built { IsBuilt self.now }
        requires top { are (Sort.Word ∷ []) self.now.values ≡ true }
        ensures { result ≡ tag (values_of self.now) }
    {
        if !self.values.are(&[Sort::Word, Sort::Member, Sort::Owner]) {
            return Tag::Word;
        }
        if !is_plain(self.values.modifiers(1)) {
            return Tag::Word;
        }
        let name = self.forest.name(self.values.name(0));
        let owner = self.forest.name(self.values.name(2));
        if name == owner {
            Tag::Constructor
        } else {
            Tag::Word
        }
    }

    /// A tree on top: a type above a name is another one than a type alone.
    fn tag_of_part(&self) -> Tag
        requires { are (Sort.Part ∷ []) self.now.values ≡ true }
        ensures { result ≡ tag (values_of self.now) }
    {
        let form = self.values.form(0);
        match form {
            Form::Type => {
                if self.values.are(&[Sort::Part, Sort::Name]) {
                    Tag::InnerType
                } else {
                    Tag::Type
                }
            }
            _ => tag_of_form(form),
        }
    }

    /// The shape of the values on top, as far as a choice depends on it.
    pub fn tag(&self) -> Tag
        requires { IsBuilt self.now }
        ensures { result ≡ tag (values_of self.now) }
    {
        if self.values.is_empty() {
            return Tag::Other;
        }
        match self.values.top(0) {
            Kept::Word { .. } => self.tag_of_word(),
            Kept::Pair { .. } => Tag::Pair,
            Kept::Part { .. } => self.tag_of_part(),
            Kept::Member {
                is_nested,
                modifiers,
            } => tag_of_member(*is_nested, *modifiers),
            Kept::Mark { .. } => Tag::Other,
            Kept::Owner { .. } => Tag::Other,
        }
    }
}
