//! What attributes say of the bytes.
use super::Parser;
use crate::attributes::AttributeWalk;
use crate::declaration::{Body, Field, Layout};
use crate::derives::is_derived;
use crate::texts::{is_listed, row_of};
use crate::tokens::{NO_NAME, Tokens, Word, Words};
use crate::words::{
    ALMOST_WAY, LEFT_OUT, NO_BYTES, OF_ITEMS, OF_SERDE, ON_SOME_DEVICES, ONE_SIDE, OTHER_CONDITION,
    TOOLS, TRANSPARENT, UNKNOWN, WAY_OF_SERDE,
};

/// What attributes say of the bytes of a field, or of a type.
#[derive(Clone, Copy, Default, Drop)]
pub(super) struct Said {
    /// Whether one field alone is sent, if there are more.
    pub(super) is_transparent: bool,
    pub(super) not_written: bool,
    pub(super) not_read: bool,
    pub(super) layout: Layout,
}

/// How the bytes of a field are arranged, by the way that `with` names.
fn layout_of(way: &str) -> Option<Layout> {
    let way = way.trim_matches('"');
    match way.strip_prefix("::").unwrap_or(way) {
        "postcard::fixint::le" => Some(Layout::Little),
        "postcard::fixint::be" => Some(Layout::Big),
        "serde_bytes" => Some(Layout::Buffer),
        "BigArray" | "serde_big_array::BigArray" | "serde_arrays" => Some(Layout::Array),
        _ => None,
    }
}

/// How many of these fields a transparent type sends, as serde sees it: by the names of their types. One of these files called
/// `PhantomData` counts too, since serde leaves it out.
fn sent_of(tokens: &Tokens, fields: &[Field]) -> usize {
    let declares = &[Word::Struct, Word::Enum, Word::Alias, Word::As];
    let mut count: usize = 0;
    for field in fields {
        let path = field.of.before(tokens.up_to(field.of, &[Word::Less]));
        let name = tokens.last(path).name;
        if tokens.text(name) != "PhantomData" || tokens.follows(name, declares) {
            count = count.saturating_add(1);
        }
    }
    count
}

/// Whether an attribute is none of serde's, and if it is of a declaration, of the language or a tool's, or the helper of a derive
/// among these. A helper is one word, and a path is a macro's, which may rewrite the declaration.
fn is_harmless(tokens: &Tokens, words: Words, all: Words, is_item: bool) -> bool {
    let first = tokens.first(words).name;
    let name = tokens.text(first);
    if name.starts_with("serde") {
        let last = tokens.text(tokens.last(words).name);
        return last == "serde_as" && is_listed(name, "serde_as serde_with");
    }
    let is_path = matches!(tokens.nth(words, 1).word, Word::Colon);
    let is_helper = !is_path && (is_listed(name, OF_ITEMS) || is_derived(tokens, all, first));
    !is_item || first == NO_NAME || is_helper || is_listed(name, TOOLS)
}

impl Parser<'_, '_> {
    /// Reads attributes, and gathers what they say of the bytes. What is wrong is reported by their lines.
    pub(super) fn said(&mut self, attributes: Words) -> Said {
        let mut said = Said::default();
        let tokens = self.at.tokens;
        let line = self.at.line;
        let is_item = self.at.variant == NO_NAME && self.at.field.is_none();
        let mut walk = AttributeWalk::of(attributes);
        for _ in 0..=attributes.len() {
            let (words, condition) = walk.next(tokens);
            let first = tokens.first(words);
            self.at.line = first.line;
            match first.word {
                _ if words.is_empty() => {}
                Word::Mark => {}
                Word::Serde => self.read_serde(words, condition, &mut said),
                // that of a derive has parentheses
                Word::With if tokens.held(words).is_empty() => self.read_way(words, &mut said),
                Word::Condition if !is_item => self.at.refuse(first.name, ON_SOME_DEVICES),
                _ if is_harmless(tokens, words, attributes, is_item) => {}
                _ => self.at.refuse(first.name, UNKNOWN),
            }
        }
        self.at.line = line;
        said
    }

    /// Reads a comment that says how a field is sent, or only seems meant to.
    fn read_way(&mut self, words: Words, said: &mut Said) {
        let tokens = self.at.tokens;
        let comment = tokens.text(tokens.nth(words, 1).name);
        match (words.len(), self.marking.is_derived) {
            (2, false) => self.at.wrong(&["`// ", comment, ALMOST_WAY]),
            (2, true) => {}
            (_, true) => self.refuse_word("with", WAY_OF_SERDE),
            _ => self.read_changing(words, said),
        }
    }

    fn read_serde(&mut self, words: Words, condition: Words, said: &mut Said) {
        let tokens = self.at.tokens;
        let is_other = !condition.is_empty() && !self.marking.is_under(tokens, condition);
        let mut rest = tokens.held(words);
        for _ in 0..rest.len() {
            let (part, behind) = tokens.first_part(rest);
            // An attribute in an attribute is what a comment was.
            let (_, part) = tokens.attribute(part).unwrap_or((part, part));
            let first = tokens.first(part).name;
            let name = tokens.text(first);
            said.is_transparent = said.is_transparent || name == "transparent";
            if first != NO_NAME && !is_listed(name, NO_BYTES) {
                self.read_changing(part, said);
                if is_other {
                    self.at.refuse(first, OTHER_CONDITION);
                }
            }
            rest = behind;
        }
    }

    /// Reads a word of serde's that may change the bytes, with what follows it.
    fn read_changing(&mut self, words: Words, said: &mut Said) {
        let tokens = self.at.tokens;
        let first = tokens.first(words);
        let name = tokens.text(first.name);
        let has_value = words.len() == 3 && matches!(tokens.nth(words, 1).word, Word::Equals);
        let value = has_value.then_some(tokens.last(words)).unwrap_or_default();
        let value = tokens.text(value.name);
        let is_field = self.at.field.is_some();
        let not_written = is_listed(name, "skip skip_serializing");
        let not_read = is_listed(name, "skip skip_deserializing");
        let why = row_of(OF_SERDE, name).unwrap_or(UNKNOWN);
        let is_needless = name == "skip_serializing_if" && !self.marking.marks.written;
        match (first.word, layout_of(value)) {
            (Word::With, Some(layout)) if is_field => said.layout = layout,
            _ if is_field && value.is_empty() && (not_written || not_read) => {
                said.not_written = said.not_written || not_written;
                said.not_read = said.not_read || not_read;
            }
            _ if is_field && is_needless => {}
            _ => self.at.refuse(first.name, why),
        }
    }

    /// Refuses a transparent type that has more fields than the one that serde sends.
    pub(super) fn check_transparent(&mut self, said: Said, body: &Body) {
        if let Body::Struct(fields) = body
            && said.is_transparent
            && sent_of(self.at.tokens, &fields.items) > 1
        {
            self.refuse_word("transparent", TRANSPARENT);
        }
    }

    /// Whether a field is left out, on all sides that there are.
    pub(super) fn is_left_out(&mut self, said: Said) -> bool {
        let marks = self.marking.marks;
        let is_left_out = (marks.written && said.not_written) || (marks.read && said.not_read);
        match (is_left_out, said.not_written, said.not_read) {
            (false, ..) => {}
            (_, false, _) if marks.written => self.refuse_word("skip_deserializing", ONE_SIDE),
            (_, _, false) if marks.read => self.refuse_word("skip_serializing", ONE_SIDE),
            _ => self.refuse_in_code(true, &["`skip", LEFT_OUT]),
        }
        is_left_out
    }
}
