//! What can't be implemented of declarations, a line each. Why a thing can't be is a text, which is empty if it can.
use crate::scope::{Origins, are_at, is_capital, path_word};
use crate::text::Text;
use declaration_parser::cursor::Cursor;
use declaration_parser::declaration::{Body, Declaration, Field, Fields, Layout};
use declaration_parser::derives::OF_OTHER_CRATE;
use declaration_parser::items::{ItemKind, Kind, Walk};
use declaration_parser::reading::AllDeclared;
use declaration_parser::sent::{is_primitive, sent_as};
use declaration_parser::texts::{first_letter, is_listed, row_of};
use declaration_parser::tokens::{DESERIALIZE, NO_NAME, Name, SERIALIZE, Token, Word, Words};
use std::alloc::{AllocError, Global};

// Why a type can't be in a message: what begins with a backtick follows its name, else it is what to write.
const HOLDS_ITSELF: &str =
    "` holds itself: write it by hand, as the crate `example_by_hand` shows of `Chain`";

// Of a declaration beside another of its name.
const TWICE: &str =
    "the file has this name twice, and what is written here is of one: leave one out, or give its module a file of its own";

const NO_TYPE: &str = "` can't stand in the type of a field: write the type that is on the wire";

/// Types of `heapless`, which has some by names of the language.
const OF_HEAPLESS: &[&str] = &[
    "String: ArrayString<N>` of `arrayvec",
    "Vec HistoryBuffer: ArrayVec<T, N>` of `arrayvec",
];

/// Types of the language and of known crates that no message can hold, but for those that [`sent_as`] has.
const NO_MESSAGES: &[&str] = &[
    "HashMap IndexMap FnvIndexMap LinearMap: BTreeMap",
    "HashSet BTreeSet IndexSet VecDeque BinaryHeap LinkedList: Vec",
    "FnvIndexSet Deque: ArrayVec<T, N>` of `arrayvec",
    "ByteBuf: Vec<u8>",
    "Rc Arc: Box",
    "Cow: String",
    "Cell RefCell Mutex RwLock Wrapping Reverse: ` sends what it holds: write that type",
    "PhantomData: ` has no bytes: leave the field out",
    "Instant: ` can't stand in the type of a field: write the type that is on the wire",
];

/// Why a type that isn't the crate's own can't be in a message, by where it is from and its name.
fn no_message(from: &str, name: &str) -> &'static str {
    let of_heapless = row_of(OF_HEAPLESS, if from == "heapless" { name } else { "" });
    let why = of_heapless.or(sent_as(name)).or(row_of(NO_MESSAGES, name));
    why.unwrap_or("")
}

/// Says why a word is wrong, which may be by what to write in its place.
fn refuse(at: &mut Cursor, word: Token, why: &str) {
    let instead = "` can't stand in the type of a field: write `";
    if word.word == Word::Raw {
        at.wrong(&["`r#", at.tokens.text(word.name), why]);
    } else if why.starts_with('`') {
        at.refuse(word.name, why);
    } else {
        at.wrong(&["`", at.tokens.text(word.name), instead, why, "`"]);
    }
    at.is_wrong = false;
}

impl Origins<'_> {
    /// Whether the file has two types of a declaration's name, so that the module below may not see this one. It sees one of the file
    /// itself also if a module or a body in it has another.
    fn has_namesake(&self, walk: &Walk<'_>, it: &Declaration) -> bool {
        let is_inner = matches!(walk.items.get(it.item), Some(item) if item.scope > 0);
        if is_inner && self.has_of_others(it.name) {
            return true;
        }
        for other in &walk.items {
            let is_type = matches!(other.kind, ItemKind::Type | ItemKind::Alias)
                && other.place != it.item
                && self.tokens.first(other.words).name == it.name;
            let is_seen = is_inner || other.scope == 0;
            // what belongs to a type or a trait hides no other
            if is_type
                && is_seen
                && matches!(walk.scopes.get(other.scope), Some(scope) if scope.kind != Kind::Impl)
            {
                return true;
            }
        }
        false
    }

    /// Why a field can't be sent as its attribute says, whose crate the file may hide by a name of its own.
    fn layout_refusal(&self, field: &Field) -> &'static str {
        let (tokens, of) = (self.tokens, field.of);
        let first = tokens.first_text(of);
        let is_integer = is_listed(first, "u16 u32 u64 u128 i16 i32 i64 i128") || is_capital(first);
        // with or without colons before the bracket
        let is_bytes = are_at(tokens, of.to.saturating_sub(4), "Vec < u8 >")
            || are_at(tokens, of.to.saturating_sub(6), "Vec : : < u8 >")
            || (first == "&" && are_at(tokens, of.from.saturating_add(2), "[ u8 ]"));
        match field.layout {
            Layout::Little | Layout::Big if of.len() > 1 || !is_integer =>
                "` can't be sent as its bytes: `postcard::fixint` has integers of 16 to 128 bits; write the type that is on the wire",
            Layout::Little | Layout::Big if self.hides("postcard") =>
                "` is sent by `postcard::fixint`, but this file has another `postcard`: call that otherwise",
            Layout::Little | Layout::Big | Layout::Buffer if self.hides("*") =>
                "` is sent by the crate that its `with` names, but a `*` of this file may bring in another by that name: bring in each name by itself",
            Layout::Buffer if self.hides("serde_bytes") =>
                "` is sent by `serde_bytes`, but this file has another one: call that otherwise",
            Layout::Buffer if !is_bytes =>
                "` can't be sent by `serde_bytes` here: write `Vec<u8>` or `&'a [u8]`, which have those bytes",
            Layout::Array if first != "[" =>
                "` is no array, which its `with` wants: write `[T; N]`",
            _ => "",
        }
    }

    /// Why the word at a place, in a path with this first word, can't be in a type.
    fn refusal(&self, it: &Declaration, place: usize, head: Token) -> &'static str {
        let tokens = self.tokens;
        let word = path_word(tokens, place);
        let name = tokens.text(word.name);
        let (first, from) = (tokens.text(head.name), tokens.text(self.origin(head.name)));
        let is_alone = !word.is_led && !word.leads;
        let is_known = from == "std" || is_listed(first, "alloc core heapless std");
        let behind = place.saturating_add(2);
        let token = tokens.at(place);
        match name {
            _ if token.word == Word::Raw => NO_TYPE,
            "Self" => HOLDS_ITSELF,
            "!" | "?" => NO_TYPE,
            "f32" => "` is no message: take `LE<u32>` of its bits",
            "f64" => "` is no message: take `LE<u64>` of its bits",
            "&" if tokens.at(place.saturating_add(1)).word != Word::Lifetime =>
                "` is a reference without a lifetime: write one of the type, as `&'a str`",
            "&"
                if it.marks.read
                    && !are_at(tokens, behind, "str")
                    && !are_at(tokens, behind, "[ u8 ]") =>
                "` can't be read: `&'a str` and `&'a [u8]` alone are lent; write `Vec` for a list, or the type itself",
            _ if !token.is_name || name.starts_with('_') => "",
            _ if is_alone && (it.parameters.contains(&word.name) || is_primitive(name)) => "",
            _ if is_alone && !is_capital(name) => NO_TYPE,
            _ if !head.is_name =>
                "` stands behind `::`, with which no path begins in Rattle: leave that out",
            _ if is_alone && is_listed(from, "crate self super") => "",
            _ if is_alone => no_message(from, name),
            _ if is_capital(first) => "` leads to a type of its own: write that type itself",
            _ if word.leads => "",
            _ if is_known => no_message(first, name),
            _ => "",
        }
    }

    /// Says what is first wrong with a field.
    fn judge(&self, at: &mut Cursor, it: &Declaration, field: &Field) {
        let mut why = self.layout_refusal(field);
        let mut head = Token::default();
        for place in field.of.from..field.of.to {
            let token = self.tokens.at(place);
            if token.word == Word::Colon {
                continue;
            }
            if !path_word(self.tokens, place).is_led {
                head = token;
            }
            if why.is_empty() {
                why = self.refusal(it, place, head);
            }
            if !why.is_empty() {
                at.line = token.line;
                return refuse(at, token, why);
            }
        }
    }

    /// Says what is wrong with fields, which may be a variant's.
    fn judge_all(&self, at: &mut Cursor, it: &Declaration, variant: Name, fields: &Fields) {
        at.variant = variant;
        for field in &fields.items {
            at.field = Some((field.place, field.name));
            self.judge(at, it, field);
        }
    }
}

impl Text<'_> {
    /// Whether a type of this name holds itself, also by way of others.
    fn holds_itself(&self, alloc: Global, at: &mut Cursor, name: Name) -> bool {
        let mut held = Vec::new(alloc);
        let mut by = name;
        for place in 0..=self.uses.len() {
            for (_, of) in self.uses.range((by, NO_NAME)..=(by, Name::MAX)) {
                if !held.contains(of) {
                    at.push(&mut held, *of);
                }
            }
            match held.get(place) {
                Some(next) => by = *next,
                None => break,
            }
        }
        held.contains(&name)
    }

    /// What is wrong with a file, and can't be implemented of its declarations, which are in the text, a line each; nothing if all can.
    pub fn refused(&self, alloc: Global, file: &AllDeclared<'_>) -> Result<String, AllocError> {
        let origins = self.origins;
        let mut at = Cursor::new(alloc, origins.tokens, 0, Words::default());
        at.faults.put(file.faults.as_str());
        for it in &file.all {
            if !it.wrong.is_empty() {
                at.faults.put(it.wrong.as_str());
                continue;
            }
            at.name = it.name;
            match &it.body {
                Body::Struct(fields) => origins.judge_all(&mut at, it, NO_NAME, fields),
                Body::Enum(variants) => {
                    for variant in variants {
                        origins.judge_all(&mut at, it, variant.name, &variant.fields);
                    }
                }
            }
            at.variant = NO_NAME;
            at.field = None;
            at.line = it.line;
            for derive in [SERIALIZE, DESERIALIZE] {
                if it.is_by_use(derive) && origins.hides(origins.tokens.text(derive)) {
                    at.refuse(derive, OF_OTHER_CRATE);
                    at.is_wrong = false;
                }
            }
            if origins.has_namesake(&file.walk, it) {
                at.wrong(&[TWICE]);
                at.is_wrong = false;
            }
            if self.holds_itself(alloc, &mut at, it.name) {
                at.refuse(it.name, HOLDS_ITSELF);
                at.is_wrong = false;
            }
        }
        at.faults.finished()
    }
}
