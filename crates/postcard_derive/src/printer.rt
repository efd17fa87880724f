//! From declarations to implementations, which `rt fmt` lays out.
use crate::text::{Part, Text};
use declaration_parser::declaration::{Body, Declaration};
use declaration_parser::faults::Faults;
use declaration_parser::tokens::NO_NAME;
use std::alloc::{AllocError, Global};
use std::collections::BTreeSet;

/// How what is written begins.
const HEAD: &str = "//! How the message types of the module above are written and read.
// Written by postcard_derive from their declarations: change those, and write this anew.
";

/// What ghost text brings in, and before it what it does for tables.
const LEMMAS: &str = "ghost use Rattle.postcard_tree.specs.ReadingLaws.{form_as};
ghost use Rattle.postcard_tree.specs.Shapes.{form_matches};
";

const OF_TABLES: &str = "ghost use Rattle.schemas.specs.TypeSchemas.{as_its_shape};\n";

/// What is brought in of libraries: each piece if the implementations have what stands before it.
const LIBRARIES: &[(&str, &str)] = &[
    ("&mut Serializer<F>", "use postcard::ser_flavors::Flavor;\n"),
    ("", "use postcard::{AsShape, "),
    (".{Last};", "Last, "),
    ("", "MatchesShape, Readable, "),
    ("&mut Serializer<F>", "Serialize, Serializer, "),
    ("", "ShapeOf, Shaped"),
    (".{This, Other};", ", Variant"),
    (".{V0, V1, V2, V3, More};", ", Variants4"),
    ("record { 0 = ", ", fixint"),
    ("", "};\n"),
    ("{ as_its_shape }", "use schemas::SchemaOfShape;\n"),
];

/// The shape of a struct that has one field or none. In what follows a word between two `%` stands for what `put_word` has.
const ALONE: &str = "impl%plain% Shaped for %name%%names%%where% {
    type Shape = %types%;
    ghost shape = { λ v. %seen% };
    fn from_shape(%taken%: %types%) -> %name%%names% {
        %value%
    }
}
";

/// The shape of a struct of several fields.
const SEVERAL: &str = "type %name%Shape%alias% = %types%;
impl%plain% Shaped for %name%%names%%where% {
    type Shape = %name%Shape%names%;
    ghost shape = { λ v. %seen% };
    fn from_shape(it: %name%Shape%names%) -> %name%%names% {
        let %taken% = it;
        %value%
    }
}
";

/// The shape of an enum, which holds the variants in fours, and then one by one. What is between two `@` is there for each variant.
const VARIANTS: &str = "type %name%Shape%alias% = @%before%%opens%%types%@%closes types%;
impl%plain% Shaped for %name%%names%%where% {
    ghost use Rattle%path%.%own%.TheVariants.{@%before%%variant%%as%@};
%fours%%singles%    ghost use Rattle.postcard_tree.specs.declared.variants.Last.TheVariants.{Last};
    type Shape = %name%Shape%names%;
    ghost shape = { λ v. elim v [
@| %own-%%variant%%binders% ↦ %More (%%Other (%%by% %held%%closes all%
@    ] };
    fn from_shape(it: %name%Shape%names%) -> %name%%names% {
        match it {
@%next%%Variant::Other(%%holder%::%by%(%taken%)%closes one% => %name%::%value%,
@%},
%        }
    }
}
";

/// What that brings in if there are more than four variants, and if some are one by one.
const FOURS: &str =
    "    ghost use Rattle.postcard_tree.specs.declared.variants.Variants4.TheVariants.{V0, V1, V2, V3, More};\n";

const SINGLES: &str =
    "    ghost use Rattle.postcard_tree.specs.declared.variants.Variant.TheVariants.{This, Other};\n";

/// What takes the next four variants apart.
const NEXT: &str = "Variants4::More(it) => match it {\n";

/// What a type takes from its shape.
const OF_ITS_SHAPE: &str = "impl%Readable% Readable for %name%%names%%where% {
    type Form = AsShape;
    ghost form = { form_as ⟦<Self as Shaped>⟧.shape ⟦<ShapeOf<Self> as Readable>⟧.form };
}
impl%Readable% MatchesShape for %name%%names%%where% {
    ghost matches = { form_matches };
}
";

/// That a type that is read has the schema of its shape.
const SCHEMA: &str = "impl%Readable% SchemaOfShape for %name%%names%%where% {
    ghost same = { as_its_shape };
}
";

/// How a struct is written, and how an enum.
const SENDING: &str = "impl%Serialize% Serialize for %name%%names%%where% {
    fn serialize<F: Flavor>(&self, serializer: &mut Serializer<F>) -> postcard::Result<()> {
        %sent%.serialize(serializer)
    }
}
";

const MATCHING: &str = "impl%Serialize% Serialize for %name%%names%%where% {
    fn serialize<F: Flavor>(&self, serializer: &mut Serializer<F>) -> postcard::Result<()> {
        match self {
@%name%::%value% => serializer.serialize_%kind%_variant(%index%%and%%lent%),
@        }
    }
}
";

impl Text<'_> {
    /// Appends what a word of a template stands for: of the declaration its name, which is its `own` in ghost text; its parameters, as
    /// [`put_parameters`](Text::put_parameters) has them; its bounds; and the path of the module's definitions; of its variant, or of
    /// what is behind all of them, how many fours and then single ones precede it.
    fn put_word(&mut self, part: Part<'_>, word: &str) {
        let (it, index, _) = part;
        let all_fours = self.count.saturating_sub(1) / 4;
        let fours = all_fours.min(index / 4);
        let ones = index.saturating_sub(all_fours.saturating_mul(4));
        match word {
            "name" => self.put_name(it.name),
            "own" => self.put_ghost_name(it.name),
            "path" => self.put(self.path),
            "names" | "alias" | "plain" | "Readable" | "Serialize" => self.put_parameters(it, word),
            "where" if it.bounds.is_empty() => {}
            "where" => {
                self.put(" where ");
                self.put_words(it, it.bounds, NO_NAME);
            }
            "More (" | "},\n" => self.put_times(fours, word),
            "Other (" | "Variant::Other(" => self.put_times(ones, word),
            "closes one" => self.put_times(ones, ")"),
            "closes all" => self.put_times(fours.saturating_add(ones), ")"),
            "closes types" => self.put_times(fours.saturating_add(ones), ">"),
            "fours" => self.put(if fours > 0 { FOURS } else { "" }),
            "singles" => self.put(if ones > 1 { SINGLES } else { "" }),
            "next" if index > 0 && index % 4 == 0 => self.put(NEXT),
            "next" => {}
            "before" => self.put(if index > 0 { ", " } else { "" }),
            "index" => self.put_numbered("", index),
            "opens" | "holder" | "by" => self.put_holder(index, all_fours, word),
            _ => self.put_of_fields(part, word),
        }
    }

    /// Appends what holds a variant in its enum's shape: the type, with `<` where it `opens`, or the constructor it is held `by`.
    fn put_holder(&mut self, index: usize, all_fours: usize, word: &str) {
        let (holder, by) = match index % 4 {
            _ if index.saturating_add(1) == self.count => ("Last", "Last"),
            _ if index / 4 >= all_fours => ("Variant", "This"),
            0 => ("Variants4", "V0"),
            1 => ("Variants4", "V1"),
            2 => ("Variants4", "V2"),
            _ => ("Variants4", "V3"),
        };
        match (word, by) {
            ("by", _) => self.put(by),
            ("holder", _) => self.put(holder),
            (_, "V1" | "V2" | "V3") => {}
            _ => self.made.put_all(&[holder, "<"]),
        }
    }

    fn put_template(&mut self, it: &Declaration, template: &str) {
        for (place, piece) in template.split('@').enumerate() {
            match &it.body {
                Body::Enum(variants) if place % 2 > 0 => {
                    for (index, variant) in variants.iter().enumerate() {
                        self.put_part((it, index, Some(variant)), piece);
                    }
                }
                _ => self.put_part((it, self.count, None), piece),
            }
        }
    }

    /// Appends a piece of a template, which may be a row for a variant.
    fn put_part(&mut self, part: Part<'_>, piece: &str) {
        for word in piece.split('%') {
            self.put_word(part, word);
        }
    }

    /// Appends the implementations of a declaration, with its schema if it is read, or without.
    pub fn put_declaration(&mut self, it: &Declaration, with_schemas: bool) {
        self.made
            .note(self.uses.insert((NO_NAME, it.name)).is_err());
        let (count, shape, sent) = match &it.body {
            Body::Enum(variants) => (variants.len(), VARIANTS, MATCHING),
            Body::Struct(fields) if fields.items.len() > 1 => (0, SEVERAL, SENDING),
            Body::Struct(_) => (0, ALONE, SENDING),
        };
        self.count = count;
        let sent = if it.marks.written { sent } else { "" };
        let has_schema = it.marks.read && with_schemas;
        let schema = if has_schema { SCHEMA } else { "" };
        for template in [shape, OF_ITS_SHAPE, sent, schema] {
            self.put_template(it, template);
        }
    }

    /// The text, after what it brings in.
    pub fn finished(self, alloc: Global) -> Result<String, AllocError> {
        let tokens = self.origins.tokens;
        let written = self.made.finished()?;
        let mut whole = Faults::new(alloc);
        let mut names = BTreeSet::new(alloc);
        for (_, name) in &self.uses {
            whole.note(names.insert(tokens.text(*name)).is_err());
        }
        let in_tables = written.contains("{ as_its_shape }");
        let tables = if in_tables { OF_TABLES } else { "" };
        whole.put_all(&[HEAD, tables, LEMMAS, "use super"]);
        for (place, name) in names.iter().enumerate() {
            whole.put_all(&[if place > 0 { ", " } else { "::{" }, name]);
        }
        whole.put("};\n");
        for (sign, piece) in LIBRARIES {
            whole.put(if written.contains(*sign) { *piece } else { "" });
        }
        whole.put(written.as_str());
        whole.finished()
    }
}
