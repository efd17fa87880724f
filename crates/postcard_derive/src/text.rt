//! Texts that are made of pieces: types and bounds as the module below has them, and fields as their places want them.
use crate::scope::{Origins, path_word};
use declaration_parser::declaration::{Body, Declaration, Field, Form, Layout, VariantOf};
use declaration_parser::faults::Faults;
use declaration_parser::texts::{first_letter, is_listed, is_of_word};
use declaration_parser::tokens::{NO_NAME, Name, Word, Words};
use std::alloc::Global;
use std::collections::BTreeSet;

/// How many parts a tuple has at most; more are in rows.
const ROW: usize = 6;

/// The places where fields are a tuple.
const PLACES: &str = "types seen held sent lent taken";

/// How a field is written in a place, how one that is sent as its bytes, and what stands for none. A word between two `%` stands
/// for what it has: its `type`, its `member`, the name that it is `bound` to, its `place`, and the `way` that sends it; `&` is there
/// if others are beside it, and brackets are parentheses if none are.
fn spelling_of(place: &str) -> [&'static str; 3] {
    match place {
        // the type of a shape; in ghost text, the shape of a value, and that of a variant
        "types" => ["%type%", "%way%<%type%>", "()"],
        "seen" => ["v.%member%", "record { 0 = v.%member% }", "tt"],
        "held" => ["x%place%", "%[%record { 0 = x%place% }%]%", "tt"],
        // what is sent of a value, and of a variant, whose fields are borrowed
        "sent" => ["%&%self.%member%", "%way%(self.%member%)", "()"],
        "lent" => ["%bound%", "%way%(*%bound%)", ""],
        // a pattern for a shape; a value, or a pattern for one
        "taken" => ["%bound%", "%way%(%bound%)", "()"],
        _ => ["%bound%", "%bound%", ""],
    }
}

/// Whether a word begins as a name, a number or a lifetime does.
fn is_wordy(word: &str) -> bool {
    matches!(first_letter(word), Some(first) if is_of_word(first) || first == '\'')
}

/// Whether a field is sent as its bytes.
fn is_fixed(field: &Field) -> bool {
    matches!(field.layout, Layout::Little | Layout::Big)
}

/// A declaration, or one of its variants, with the place of this among all; with their number if it is none of them.
pub type Part<'r> = (&'r Declaration, usize, Option<&'r VariantOf>);

/// A text that is made.
#[derive(Drop)]
pub struct Text<'a> {
    pub origins: &'a Origins<'a>,
    /// The path of the definitions of the module that declarations are in.
    pub path: &'a str,
    /// How many variants there are, where a declaration has some.
    pub count: usize,
    /// Each name that is brought in, behind the type whose fields have it; behind none if bounds have it.
    pub uses: BTreeSet<(Name, Name)>,
    pub made: Faults,
}

impl<'a> Text<'a> {
    /// The empty text.
    pub fn new(alloc: Global, origins: &'a Origins<'a>, path: &'a str) -> Text<'a> {
        Text {
            origins,
            path,
            count: 0,
            uses: BTreeSet::new(alloc),
            made: Faults::new(alloc),
        }
    }

    /// Appends a piece.
    pub fn put(&mut self, piece: &str) {
        self.made.put(piece);
    }

    /// Appends the text of a name.
    pub fn put_name(&mut self, name: Name) {
        self.made.put(self.origins.tokens.text(name));
    }

    /// Appends the text of a name in ghost text, which has one word that Rust takes as a name.
    pub fn put_ghost_name(&mut self, name: Name) {
        match self.origins.tokens.text(name) {
            "Type" => self.put("«Type»"),
            text => self.put(text),
        }
    }

    /// Appends a piece so many times.
    pub fn put_times(&mut self, count: usize, piece: &str) {
        for _ in 0..count {
            self.put(piece);
        }
    }

    /// Appends a piece and a number.
    pub fn put_numbered(&mut self, piece: &str, number: usize) {
        self.put(piece);
        self.made.put_number(number);
    }

    /// Appends the words of a type or of bounds; one that begins a path which leads from the module above is another here. Notes
    /// which of them are brought in, for fields of a type of this name.
    pub fn put_words(&mut self, it: &Declaration, words: Words, by: Name) {
        let origins = self.origins;
        let mut before = "";
        for place in words.from..words.to {
            let word = path_word(origins.tokens, place);
            let text = origins.tokens.text(word.name);
            let is_parted = is_wordy(before) && is_wordy(text);
            self.put(if is_parted { " " } else { "" });
            self.put(match text {
                _ if word.is_led || !word.leads => text,
                "self" => "super",
                "super" => "super::super",
                "alloc" | "core" => "std",
                _ => text,
            });
            before = text;
            if origins.is_brought_in(it, word, by == NO_NAME) {
                self.made.note(self.uses.insert((by, word.name)).is_err());
            }
        }
    }

    /// Appends a parameter without its default: for an `alias` without bounds too, else a type with this one too, unless `plain`.
    fn put_parameter(&mut self, it: &Declaration, words: Words, bound: &str) {
        let tokens = self.origins.tokens;
        let front = tokens.front(words);
        let ends: &[Word] = match bound {
            "alias" if front != Word::Constant => &[Word::Equals, Word::Colon],
            _ => &[Word::Equals],
        };
        let words = words.before(tokens.type_up_to(words, ends));
        self.put_words(it, words, NO_NAME);
        let is_had = tokens.has_name(words, tokens.found_name(bound));
        let before = match (bound, front) {
            _ if is_had => return,
            ("alias" | "plain", _) | (_, Word::Constant | Word::Lifetime) => return,
            _ if words.len() == 1 => ": ",
            _ if words.len() == 2 => " ",
            _ => " + ",
        };
        self.made.put_all(&[before, bound]);
    }

    /// Appends the parameters of a declaration, each as [`put_parameter`](Text::put_parameter) has it, or their `names`.
    pub fn put_parameters(&mut self, it: &Declaration, bound: &str) {
        let tokens = self.origins.tokens;
        let mut rest = it.generics.behind_first();
        for (place, name) in it.parameters.iter().enumerate() {
            let behind = tokens.type_up_to(rest, &[Word::Comma, Word::Greater]);
            self.put(if place > 0 { ", " } else { "<" });
            match bound {
                "names" => self.put_name(*name),
                _ => self.put_parameter(it, rest.before(behind), bound),
            }
            rest = behind.behind_first();
        }
        self.put(if it.parameters.is_empty() { "" } else { ">" });
    }

    fn put_field(&mut self, it: &Declaration, field: &Field, place: &str, is_alone: bool) {
        let [own, fixed, _] = spelling_of(place);
        let pieces = if is_fixed(field) { fixed } else { own };
        for piece in pieces.split('%') {
            match piece {
                "type" => self.put_words(it, field.of, it.name),
                "way" if field.layout == Layout::Little => self.put("fixint::LE"),
                "way" => self.put("fixint::BE"),
                "member" | "bound" if field.name != NO_NAME => self.put_name(field.name),
                "bound" => self.put_numbered("p", field.place),
                "member" | "place" => self.put_numbered("", field.place),
                "&" if is_alone => {}
                "[" => self.put(if is_alone { "(" } else { "" }),
                "]" => self.put(if is_alone { ")" } else { "" }),
                _ => self.put(piece),
            }
        }
    }

    fn put_list(&mut self, it: &Declaration, fields: &[Field], place: &str, ends: [&str; 2]) {
        let [open, close] = ends;
        self.put(open);
        for (count, field) in fields.iter().enumerate() {
            self.put(if count > 0 { ", " } else { "" });
            self.put_field(it, field, place, false);
        }
        self.put(close);
    }

    /// Appends a tuple; one field stands for itself, and more than six are in rows.
    fn put_tuple(&mut self, it: &Declaration, fields: &[Field], place: &str) {
        match fields {
            [] => return self.put(spelling_of(place)[2]),
            [field] => return self.put_field(it, field, place, true),
            _ if fields.len() <= ROW => return self.put_list(it, fields, place, ["(", ")"]),
            _ => {}
        }
        self.put("(");
        for (count, row) in fields.chunks(ROW).enumerate() {
            self.put(if count > 0 { ", " } else { "" });
            match row {
                [field] => self.put_field(it, field, place, false),
                _ => self.put_list(it, row, place, ["(", ")"]),
            }
        }
        self.put(")");
    }

    /// Appends what a word stands for in a struct or a variant: its `value` has the names to which its fields are bound.
    pub fn put_of_fields(&mut self, part: Part<'_>, word: &str) {
        let (it, _, variant) = part;
        let (name, fields) = match (variant, &it.body) {
            (Some(variant), _) => (variant.name, &variant.fields),
            (None, Body::Struct(fields)) => (it.name, fields),
            _ => return self.put(word),
        };
        let own = self.origins.tokens.text(name);
        let items = fields.items.as_slice();
        let ends = match fields.form {
            Form::Unit => ["", ""],
            Form::Tuple => ["(", ")"],
            Form::Named => [" { ", " }"],
        };
        match word {
            _ if is_listed(word, PLACES) => self.put_tuple(it, items, word),
            "value" => {
                self.put(own);
                self.put_list(it, items, word, ends);
            }
            "variant" => self.put_ghost_name(name),
            // the constructors of shapes have these names, and no name of Rust has a `-`
            "as" | "own-" if !is_listed(own, "V0 V1 V2 V3 More This Other Last") => {}
            "as" => self.made.put_all(&[" as own-", own]),
            "kind" => self.put(if items.is_empty() { "unit" } else { "newtype" }),
            "and" => self.put(match items {
                [] => "",
                [field] if !is_fixed(field) => ", ",
                _ => ", &",
            }),
            "binders" => {
                for field in items {
                    self.put_numbered(" x", field.place);
                }
            }
            _ => self.put(word),
        }
    }
}
