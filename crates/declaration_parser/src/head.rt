//! What precedes a declaration: attributes, and comments that mark.
use crate::attributes::AttributeWalk;
use crate::declaration::Marks;
use crate::derives::derive_of;
use crate::tokens::{Token, Tokens, Word, Words};

/// What marks add up to.
#[derive(Clone, Copy, Default, Drop)]
pub struct Marking<'a> {
    pub marks: Marks,
    /// Those that comments make, and derives by their paths.
    pub sure: Marks,
    /// The condition of the first derive that marks, if there is one; empty if it has none.
    condition: Option<Words>,
    /// Whether another derive that marks has another condition.
    has_others: bool,
    /// Whether the declaration, or a derive that marks it, has a condition.
    pub is_conditional: bool,
    /// Whether derives alone mark.
    pub is_derived: bool,
    /// The line of the first comment of which a word marks nothing, and the word. Beside a derive that marks a comment may be a
    /// headline.
    pub wrong: Option<(usize, &'a str)>,
    /// A derive that is called otherwise than serde's, and so may send other bytes.
    pub other: Option<Token>,
}

impl<'a> Marking<'a> {
    /// Adds what derives of these paths mark under a condition: all whose names begin as those of serde's traits.
    fn add_derived(&mut self, tokens: &Tokens, paths: Words, condition: Words) {
        let mut rest = paths;
        for _ in 0..paths.len() {
            let (part, behind) = tokens.first_part(rest);
            rest = behind;
            let path = tokens.behind_attributes(part);
            let name = derive_of(tokens, path).unwrap_or_default();
            let text = tokens.text(name.name);
            let is_written = text.starts_with("Serialize");
            if !is_written && !text.starts_with("Deserialize") {
                continue;
            }
            self.marks.add(is_written);
            if path.len() > 1 {
                self.sure.add(is_written);
            }
            self.is_conditional = self.is_conditional || !condition.is_empty();
            match self.condition {
                Some(first) if !tokens.are_same(first, condition) => self.has_others = true,
                _ => self.condition = Some(condition),
            }
            if !matches!(name.word, Word::OfSerde) {
                self.other = Some(name);
            }
        }
    }

    /// Adds what a comment marks by the words after its colon, all if it has none.
    fn add_comment(&mut self, tokens: &'a Tokens, mark: Token) {
        let parts = tokens.text(mark.name).split_once(':');
        let (_, words) = parts.unwrap_or(("", "Serialize, Deserialize"));
        for word in words.split(',') {
            let is_written = match word.trim() {
                "Serialize" => true,
                "Deserialize" => false,
                wrong => {
                    self.wrong = self.wrong.or(Some((mark.line, wrong)));
                    continue;
                }
            };
            self.marks.add(is_written);
            self.sure.add(is_written);
            self.is_derived = false;
        }
    }

    /// What attributes and comments mark.
    pub fn of(tokens: &'a Tokens, attributes: Words) -> Marking<'a> {
        let mut marking = Marking {
            is_derived: true,
            ..Marking::default()
        };
        let mut walk = AttributeWalk::of(attributes);
        for _ in 0..=attributes.len() {
            let (words, condition) = walk.next(tokens);
            let first = tokens.first(words);
            match first.word {
                Word::Mark => marking.add_comment(tokens, first),
                Word::Condition => marking.is_conditional = true,
                Word::Derive => marking.add_derived(tokens, tokens.held(words), condition),
                _ => {}
            }
        }
        if marking.condition.is_some() {
            marking.wrong = None;
        }
        marking
    }

    /// Whether all derives that mark have this condition, so that what is under it holds where they do.
    pub fn is_under(&self, tokens: &Tokens, condition: Words) -> bool {
        matches!(self.condition, Some(own) if !self.has_others && tokens.are_same(own, condition))
    }
}
