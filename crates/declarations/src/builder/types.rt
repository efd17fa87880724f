//! The places of types, by their words.
use super::{Builder, Context, DEEPEST, Given, Made, NOWHERE};
use crate::Names;
use crate::known::{
    FormRow, KnownForm, form_of, is_known, node_of, plain_node, sent_as, varint_type,
};
use crate::names::{Found, Path, Space, What};
use declaration_parser::faults::Faults;
use declaration_parser::texts::{common, is_listed};
use declaration_parser::tokens::{NO_NAME, Name, Tokens, Word, Words, word_of};
use schema_table::Node;

/// How many nodes a table has at most, which parameters could make many.
const MOST_NODES: usize = 100_000;

/// What types begin with whose values aren't sent.
const UNSENT: &str = "! * dyn extern fn for impl unsafe";

// What is said of a word that is no type here.
const UNDECLARED: &str =
    "` isn't declared and marked here: name the file of its declaration too, or write the type that is on the wire";

const TWO: &str =
    "` stands for more than one thing: leave out what isn't meant, or write its module before it";

const ENDPOINT: &str =
    "` stands in `endpoints!` or `topics!`, which aren't read: name the type that it sends or answers with";

const HANDED: &str =
    "` isn't declared here, but handed to a macro, which may make it: write its declaration out, in a file of its own";

const CANNOT_BE_SENT: &str =
    "` begins a type that postcard can't send: leave the field out, or write the type that is on the wire";

const BEHIND: &str = "` can't follow a type: leave it out, or write the type that is on the wire";

const NO_ARGUMENTS: &str =
    "write what the type holds in `<` and `>`, as in `Option<u8>` and `ArrayVec<u8, 4>`";

const NO_INTEGER: &str =
    "` isn't an integer of 16 to 128 bits: write one, or its bytes as an array";

/// What the words of a type say.
#[derive(Drop)]
enum Said {
    /// The type at this place, or none that is right.
    Place(usize),
    /// What other words say there.
    Other(Words, Context),
    /// What holds the types and the length in these parts.
    Formed(FormRow, Vec<Words>),
}

/// The path at the start of words, its last name, if there is one, and the words after it, as `<u8>` after `Vec::`.
pub fn path_at(tokens: &Tokens, words: Words) -> (Path, Name, Words) {
    let mut path = Path::default();
    let mut last = NO_NAME;
    let mut rest = words;
    for _ in words.from..words.to {
        let (first, behind) = (tokens.first(rest), rest.behind_first());
        if first.word == Word::Colon && tokens.front(behind) == Word::Colon {
            rest = behind.behind_first();
            match tokens.front(rest) {
                _ if last == NO_NAME => path.begin(),
                Word::Less => break,
                _ => path.go(last),
            }
            last = NO_NAME;
        } else if last == NO_NAME && first.is_name {
            (last, rest) = (first.name, behind);
        } else {
            break;
        }
    }
    (path, last, rest)
}

impl<'a> Builder<'a> {
    /// The place of the type that these words say there, and nothing after it. It may nest in so many words.
    pub(super) fn place(&mut self, words: Words, at: Context, depth: u32) -> usize {
        let (before, rest, line) = (self.at, self.words.rest, self.words.line);
        self.turn_to(at);
        self.words.rest = words;
        let mut place = match self.said(depth) {
            Said::Other(words, at) if depth > 0 => self.place(words, at, depth - 1),
            Said::Formed(row, parts) if depth > 0 => {
                let (_, types, _) = row;
                let mut places = Vec::new(self.alloc);
                for words in parts.iter().take(types) {
                    let place = self.place(*words, at, depth - 1);
                    self.words.push(&mut places, place);
                }
                self.formed(row, &parts, places)
            }
            Said::Place(place) => place,
            _ => NOWHERE,
        };
        if !self.words.rest.is_empty() {
            place = self.refuse(self.tokens.first(self.words.rest).name, BEHIND);
        }
        self.turn_to(before);
        self.words.turn_to(rest);
        self.words.line = line;
        place
    }

    /// What the words of a type at the start say, which are taken.
    fn said(&mut self, depth: u32) -> Said {
        if self.words.is_wrong {
            return Said::Place(NOWHERE);
        }
        if depth == 0 {
            // parameters that grow reach this many times
            self.words.is_wrong = self.is_too_deep;
            self.is_too_deep = true;
            return Said::Place(self.wrong(&[
                "types nest more than 64 deep, or hold themselves by aliases: declare a type for a part",
            ]));
        }
        if self.schema.nodes.len() > MOST_NODES {
            return Said::Place(self.wrong(&[
                "the types have more than 100000 parts: read them from fewer files",
            ]));
        }
        match (self.words.peek(), self.tokens.group(self.words.rest)) {
            (open @ (Word::Paren | Word::Bracket), Some((inside, rest))) => {
                self.words.rest = rest;
                self.bracketed(open, inside)
            }
            (Word::Less, _) => Said::Place(self.wrong(&[
                "`<..>::` isn't followed here: write the type that it stands for",
            ])),
            (Word::And, _) => {
                self.words.step();
                self.words.take(Word::Lifetime);
                self.words.take(Word::Mutable);
                let words = self.words.rest;
                self.words.rest = Words::default();
                Said::Other(words, self.at)
            }
            _ => self.named(depth - 1),
        }
    }

    /// What is in brackets: an array, or what is borrowed as a slice; in parentheses a tuple, or a type.
    fn bracketed(&mut self, open: Word, inside: Words) -> Said {
        if open == Word::Paren {
            let parts = self.parts(inside, false);
            let form = match parts.len() {
                1 if self.tokens.last(inside).word != Word::Comma => KnownForm::Inner,
                _ => KnownForm::Tuple,
            };
            return Said::Formed((form, parts.len(), NOWHERE), parts);
        }
        let behind = self.tokens.up_to(inside, &[Word::Semicolon]);
        let row = match behind.is_empty() {
            true => (KnownForm::List, 1, NOWHERE),
            false => (KnownForm::Array, 1, 1),
        };
        let mut parts = Vec::new(self.alloc);
        self.words.push(&mut parts, inside.before(behind));
        self.words.push(&mut parts, behind.behind_first());
        Said::Formed(row, parts)
    }

    /// What a name or a path says: a parameter, a type that the files declare, or one that is known.
    fn named(&mut self, depth: u32) -> Said {
        let (path, last, rest) = path_at(self.tokens, self.words.rest);
        let first = self.words.step();
        if first.word != Word::Raw && is_listed(self.tokens.text(first.name), UNSENT) {
            return Said::Place(self.refuse(first.name, CANNOT_BE_SENT));
        }
        if last == NO_NAME {
            return Said::Place(self.refuse(first.name, UNDECLARED));
        }
        self.words.rest = rest;
        if path.is_empty()
            && let Some(it) = self.given(self.at, last, false)
        {
            return Said::Other(it.words, it.at);
        }
        if path.is_empty() && word_of(last) == Word::OwnType {
            return Said::Place(match self.made.get(self.at.own) {
                Some(made) => made.place,
                None => self.wrong(&["`Self` stands for no type here: write its name"]),
            });
        }
        match self.found(self.at, &path, last, Space::Types) {
            Found::In(What::Alias(words), scope) => self.alias(words, scope),
            Found::Known(name) => self.known(name),
            Found::In(What::Marked(index), _) => Said::Place(self.instance(index, depth)),
            Found::Wrong(why) => Said::Place(self.refuse(last, why)),
            Found::Two => Said::Place(self.refuse_two(last)),
            Found::Outside => Said::Place(self.wrong(&[
                "`",
                self.tokens.text(path.root()),
                "::..`: write `",
                self.tokens.text(last),
                "` alone, and its declaration into this file, or the type that is on the wire",
            ])),
            _ => Said::Place(self.unknown(last)),
        }
    }

    /// What an alias says by its words after its name, with what is in angle brackets. It is noted with what stands for its parameters.
    fn alias(&mut self, words: Words, scope: usize) -> Said {
        let of = self.tokens.type_up_to(words, &[Word::Equals]);
        let inside = words.before(of).behind_first();
        let list = inside.before(self.tokens.type_up_to(inside, &[Word::Greater]));
        let (mut parameters, mut lengths) = (Vec::new(self.alloc), Vec::new(self.alloc));
        for part in self.parts(list, true) {
            let part = self.tokens.behind_attributes(part);
            let is_length = self.tokens.front(part) == Word::Constant;
            let name = self.tokens.nth(part, usize::from(is_length)).name;
            self.words.push(&mut parameters, name);
            if is_length {
                self.words.push(&mut lengths, name);
            }
        }
        let given = self.arguments_of(&parameters, &lengths);
        if self.words.is_wrong {
            return Said::Place(NOWHERE);
        }
        let own = match given.is_empty() {
            true => NOWHERE,
            // no declaration is there
            false => self.own_of(self.all.len().saturating_add(words.from), given, 0),
        };
        Said::Other(of.behind_first(), Context { scope, own })
    }

    /// What a known type says, with what is in angle brackets after it.
    fn known(&mut self, name: Name) -> Said {
        let word = self.tokens.text(name);
        match (form_of(word), plain_node(word)) {
            (Some(row), _) if word != "String" || self.words.peek() == Word::Less => {
                let (_, types, _) = row;
                let parts = self.arguments();
                if parts.len() < types {
                    self.wrong(&[NO_ARGUMENTS]);
                }
                Said::Formed(row, parts)
            }
            (_, Some(Node::LE(of))) => Said::Place(self.add(Node::LE(of), Names::Float)),
            (_, Some(node)) => {
                let place = self.add(node, Names::Nothing);
                if matches!(word, "isize" | "usize") {
                    self.words.push(&mut self.sized, place);
                }
                Said::Place(place)
            }
            _ => Said::Place(self.unknown(name)),
        }
    }

    /// What a path stands for where it is read.
    pub(super) fn found(&self, at: Context, path: &Path, last: Name, space: Space) -> Found {
        let scope = at.scope;
        if scope == self.asked && space == Space::Types {
            match self.names.find_asked(path, last) {
                Found::Not if !path.is_empty() => {}
                Found::Not if is_known(self.tokens.text(last)) && !self.names.has(last) =>
                    return Found::Known(last),
                found => return found,
            }
        }
        if path.is_empty() {
            // most names are these, and needn't be looked for
            if space == Space::Types && self.names.is_untouched(scope, last) {
                return Found::Known(last);
            }
            return self.names.find(scope, last, space);
        }
        // what belongs to a parameter isn't known here
        if !path.is_absolute && self.given(at, path.root(), false).is_some() {
            return Found::Outside;
        }
        self.names.find_by_path(scope, path, last, space)
    }

    /// Refuses a name that stands for more than one thing, with the paths that say which.
    fn refuse_two(&mut self, name: Name) -> usize {
        let mut paths = Faults::new(self.alloc);
        self.names.put_paths(&mut paths, name);
        let paths = paths.apart_from(&mut self.words.faults);
        self.wrong(&["`", self.tokens.text(name), TWO, paths.as_str()])
    }

    /// Refuses a type that is sent as another. (Apart, so that the texts have one lifetime.)
    fn refuse_sent(&mut self, word: &str, sent: &str) -> usize {
        self.wrong(&["`", word, "` is sent as `", sent, "`: write that"])
    }

    /// Refuses a type that isn't known: one that is requested with the nearest, and with all that there are.
    fn unknown(&mut self, name: Name) -> usize {
        let word = self.tokens.text(name);
        if let Some(sent) = sent_as(word) {
            return self.refuse_sent(word, sent);
        }
        for words in &self.names.endpoints {
            if self.tokens.has_name(*words, name) {
                return self.refuse(name, ENDPOINT);
            }
        }
        if self.names.is_first_handed(name) {
            return self.refuse(name, HANDED);
        }
        self.refuse(name, UNDECLARED);
        if self.at.scope == self.asked {
            self.put_nearest(word);
        }
        NOWHERE
    }

    /// Appends which declared name is most like a word, if half of it is, and all that there are.
    fn put_nearest(&mut self, word: &str) {
        let (mut most, mut nearest) = (0, "");
        for it in self.all {
            let name = self.tokens.text(it.name);
            let common = common(word, name);
            if common > most && common.saturating_mul(2) >= word.len().max(name.len()) {
                (most, nearest) = (common, name);
            }
        }
        let faults = &mut self.words.faults;
        if most > 0 {
            faults.put_all(&["the nearest is `", nearest, "`\n"]);
        }
        faults.put(match self.all {
            [] => "no type is declared and marked in these files",
            _ => "there are:",
        });
        for it in self.all {
            faults.put_all(&[" ", self.tokens.text(it.name)]);
        }
        faults.put("\n");
    }

    /// What stands for a parameter of this name, which is a length or a type.
    pub(super) fn given(&self, at: Context, name: Name, is_length: bool) -> Option<&Given> {
        for it in &self.made.get(at.own)?.of {
            if it.name == name && it.is_length == is_length {
                return Some(it);
            }
        }
        None
    }

    /// What words are that stand for a parameter: those of the parameter that they are, if they are one.
    fn given_by(&self, name: Name, is_length: bool, words: Words) -> Given {
        let mut at = self.at;
        if let Some(own) = self.made.get(at.own)
            && !self.tokens.has_word(words, Word::OwnType)
        {
            at.own = NOWHERE;
            for it in &own.of {
                let is_it = self.tokens.has_name(words, it.name);
                if is_it && words.len() == 1 && it.is_length == is_length {
                    return Given { name, ..*it };
                }
                at.own = if is_it { self.at.own } else { at.own };
            }
        }
        Given {
            name,
            is_length,
            words,
            at,
        }
    }

    /// Takes what is in angle brackets for these parameters, of which some are lengths.
    fn arguments_of(&mut self, parameters: &[Name], lengths: &[Name]) -> Vec<Given> {
        let mut given = Vec::new(self.alloc);
        let all = self.arguments();
        let mut rest = all.iter();
        for name in parameters {
            if self.tokens.text(*name).starts_with('\'') {
                continue;
            }
            let Some(words) = rest.next() else {
                self.refuse(
                    *name,
                    "` is left out, and defaults aren't followed: write it",
                );
                break;
            };
            let it = self.given_by(*name, lengths.contains(name), *words);
            self.words.push(&mut given, it);
        }
        if let Some(words) = rest.next() {
            let first = self.tokens.first(*words).name;
            self.refuse(first, "` is an argument too many: leave it out");
        }
        given
    }

    /// The place of a declared type, with what is in angle brackets after it.
    pub(super) fn instance(&mut self, index: usize, depth: u32) -> usize {
        let Some(it) = self.all.get(index) else {
            return NOWHERE;
        };
        let of = self.arguments_of(&it.parameters, &it.lengths);
        if self.words.is_wrong {
            return NOWHERE;
        }
        let depth = if of.is_empty() { DEEPEST } else { depth };
        let own = self.own_of(index, of, depth);
        match self.made.get(own) {
            Some(made) => made.place,
            None => NOWHERE,
        }
    }

    /// Which of those that are made this one is, with the same words for its parameters. A new one is made later, and until then
    /// can't be read.
    fn own_of(&mut self, index: usize, of: Vec<Given>, depth: u32) -> usize {
        let key = self.key_of(index, &of);
        if let Some(own) = self.owns.get(key.as_slice()) {
            return *own;
        }
        let own = self.made.len();
        let failed = self.owns.insert(key, own).is_err();
        self.words.faults.note(failed);
        let place = match self.all.get(index) {
            Some(_) => self.add(Node::Option(NOWHERE), Names::Nothing),
            None => NOWHERE,
        };
        let made = Made {
            index,
            of,
            place,
            depth,
        };
        self.words.push(&mut self.made, made);
        own
    }

    /// What tells a type that is made from others: which it is, and what stands for its parameters.
    fn key_of(&mut self, index: usize, of: &[Given]) -> Vec<usize> {
        let mut key = Vec::new(self.alloc);
        self.words.push(&mut key, index);
        for it in of {
            self.put_given(&mut key, it);
        }
        key
    }

    /// Appends where the words for a parameter are, how many, and their names.
    fn put_given(&mut self, key: &mut Vec<usize>, it: &Given) {
        self.words.push(key, it.at.scope);
        self.words.push(key, it.at.own);
        self.words.push(key, it.words.len());
        for place in it.words.from..it.words.to {
            let name = self.tokens.at(place).name;
            self.words.push(key, name);
        }
    }

    /// The words between the commas that nothing encloses; of arguments only those of types and lengths.
    fn parts(&mut self, words: Words, are_arguments: bool) -> Vec<Words> {
        let mut all = Vec::new(self.alloc);
        let mut rest = words;
        for _ in words.from..words.to {
            if rest.is_empty() {
                break;
            }
            let behind = self.tokens.type_up_to(rest, &[Word::Comma]);
            let part = rest.before(behind);
            if !are_arguments || !(part.is_empty() || self.tokens.front(part) == Word::Lifetime) {
                self.words.push(&mut all, part);
            }
            rest = behind.behind_first();
        }
        all
    }

    /// Takes what is in angle brackets, and gives the words of each argument, but for lifetimes.
    fn arguments(&mut self) -> Vec<Words> {
        if !self.words.take(Word::Less) {
            return Vec::new(self.alloc);
        }
        let words = self.words.take_up_to(&[Word::Greater]);
        self.words.owe(Word::Greater, "`>` is wanted");
        self.parts(words, true)
    }

    /// The place of a type that holds the types at these places and the length in these parts.
    fn formed(&mut self, row: FormRow, parts: &[Words], places: Vec<usize>) -> usize {
        let (form, _, length) = row;
        let most = match parts.get(length) {
            Some(words) => Some(self.length(*words)),
            None => None,
        };
        let (words, inner) = match (parts, places.as_slice()) {
            ([words, ..], [inner]) => (*words, *inner),
            _ => (Words::default(), NOWHERE),
        };
        match form {
            _ if self.words.is_wrong => NOWHERE,
            KnownForm::Inner => inner,
            KnownForm::Little | KnownForm::Big => self.ordered(form, words, inner),
            // a list of what is called `u8`
            KnownForm::List
                if most.is_none()
                    && matches!(self.schema.nodes.get(inner), Some(Node::U8))
                    && self.tokens.text(self.tokens.last(words).name) == "u8" => {
                self.holding(KnownForm::Bytes, places, None)
            }
            KnownForm::Map | KnownForm::MapUpTo => {
                let pair = self.holding(KnownForm::Tuple, places, None);
                let mut pairs = Vec::new(self.alloc);
                self.words.push(&mut pairs, pair);
                self.holding(form, pairs, most)
            }
            _ => self.holding(form, places, most),
        }
    }

    /// The place of an integer, which these words say, and whose bytes are sent in an order.
    pub(super) fn ordered(&mut self, form: KnownForm, words: Words, place: usize) -> usize {
        // an integer of devices is as wide as their addresses
        let of = if self.sized.contains(&place) {
            None
        } else {
            varint_type(self.schema.nodes.get(place))
        };
        match node_of(form, Vec::new(self.alloc), None, of) {
            Some(node) => self.put(place, node, Names::Nothing),
            None => self.refuse(self.tokens.first(words).name, NO_INTEGER),
        }
    }

    /// The place of a type that holds these, or so many.
    fn holding(&mut self, form: KnownForm, places: Vec<usize>, most: Option<u64>) -> usize {
        let names = match form {
            KnownForm::Map | KnownForm::MapUpTo => Names::Map,
            KnownForm::Outcome => {
                let mut names = Vec::new(self.alloc);
                self.put_name(&mut names, "Ok");
                self.put_name(&mut names, "Err");
                Names::Variants(names)
            }
            KnownForm::Tuple if places.is_empty() => Names::Unit,
            KnownForm::Tuple => Names::Tuple,
            _ => Names::Nothing,
        };
        match node_of(form, places, most, None) {
            Some(node) => self.add(node, names),
            None => self.wrong(&[NO_ARGUMENTS]),
        }
    }
}
