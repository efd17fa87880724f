//! The words that the parser knows, and what is said of them.

/// How many fields a struct can have that is implemented, and a variant that is written, which is proved with no more.
pub const MOST_FIELDS: usize = 36;

pub const MOST_OF_VARIANT: usize = 5;

// What is said after a word of a mark, of an attribute or of a derive, each in the case of its name.
pub const NO_MARK: &str =
    "` marks nothing: a message is marked for `Serialize`, `Deserialize`, or both, and has all else by itself";

pub const ALMOST: &str =
    "` marks nothing: a line of its own does, `// message` or `// message: Serialize`\n";

pub const IN_MACRO: &str =
    "!` writes anew what it holds, where a mark marks nothing: write the declaration out, without the macro\n";

pub const RENAMES: &str =
    "` is another name of serde's, by which a derive isn't found: derive `Serialize` and `Deserialize` by these names\n";

pub const IN_WORDS: &str =
    "` stands within a declaration, where it marks nothing: take it out, or close what stands before it\n";

pub const BY_HAND: &str =
    "` is implemented by hand, so the bytes may be others than those of the fields: declare what is on the wire";

pub const ON_SOME_DEVICES: &str =
    "` has this on some devices alone: take the attribute out where it is there, else what stands behind it";

pub const OTHER_CONDITION: &str =
    "` changes the bytes under a condition that not every derive has: write the field as it is on the wire";

pub const ONE_SIDE: &str =
    "` leaves the field out on one side alone: the other side wants its bytes, so the device can't be read as it is";

pub const ONLY_FIELD: &str =
    "` of the only field of a struct in parentheses leaves out nothing, since serde writes it all the same: take the word out";

pub const TRANSPARENT: &str =
    "` sends one field alone, but there are more: skip the others, or take the word out where all are sent";

pub const LEFT_OUT: &str =
    "` leaves the field out, but what is read back has to be what was written: declare a type without the field, and hold both in another that isn't sent";

pub const ALMOST_WAY: &str =
    "` marks nothing: a line of its own before a field does, `// with = \"postcard::fixint::le\"` or the same with `be`";

pub const WAY_OF_SERDE: &str =
    "` in a comment says nothing to serde, whose derive marks the type: write `#[serde(with = ..)]`, or take the comment out";

pub const UNKNOWN: &str =
    "` isn't known here and may change the bytes: write the declaration as it is on the wire";

pub const OTHER_DERIVE: &str =
    "` may send something else than the fields, as a number or a text: where the type is a field, write what is on the wire";

pub const OPEN: &str = "` begins what a comma is in, which isn't followed here: write the number";

pub const TWICE: &str =
    "` is declared twice here: give one of them another name, since names aren't sent";

pub const RAW: &str =
    "` is raw, and Rattle has no raw names: call it otherwise, since names aren't sent";

pub const USED: &str = "` is also a name that the implementations use: call it otherwise";

/// Words of serde's attributes that change no byte.
pub const NO_BYTES: &str = "
    alias borrow bound crate default deny_unknown_fields expecting rename rename_all
    rename_all_fields transparent
";

/// Words of serde's attributes that do, and after them what is said of each.
pub const OF_SERDE: &[&str] = &[
    "flatten: ` can't be sent by postcard, which has no names: write the fields themselves",
    "tag content untagged: ` can't be read by postcard: it wants a number before a variant, so the device has to leave the word out",
    "other: ` can't be read by postcard as the device sends it: declare each variant that there is",
    "skip_serializing_if: ` leaves out bytes that the reader wants: the device has to send the field always",
    "serialize_with deserialize_with with: ` sends the field in ways not known here: write the type that is on the wire in its place",
    "from try_from into: ` sends another type's bytes: mark that type, and write it where this one is a field",
    "skip skip_deserializing skip_serializing: ` of a variant counts it on one side alone: take the variant out where it is the last",
];

/// What the paths of attributes begin with that change no byte.
pub const TOOLS: &str = "clippy diagnostic pyo3 rustfmt typeshare wasm_bindgen";

/// Attributes of declarations that change no byte: those of the language, and helpers of derives that are often met.
pub const OF_ITEMS: &str = "
    allow arbitrary archive archive_attr arg as_mut as_ref at_enum automatically_derived
    backtrace bincode bits borsh br brw builder bw cbor cfg clap codec command component debug
    defmt deku deny deprecated deref deref_mut derivative derive derive_where diesel display doc
    educe enumset error expect facet forbid from from_str garde get getset graphql group into
    into_params max_size must_use n nom non_exhaustive num_enum oai packed_struct postcard
    proptest prost pyclass rasn reflect repr require rkyv rtype schema schemars set snafu source
    specta sqlx structopt strum strum_discriminants tabled try_into ts tsify validate valuable
    value warn zeroize
";

/// Names that the implementations use: those of postcard, of its parameters, and of what writes.
pub const OF_IMPLEMENTATIONS: &str = "
    AsShape F Flavor Last MatchesShape Readable Serialize Serializer ShapeOf Shaped Taken Variant
    Variants4 serializer
";
