//! The types that are known by their words, and their nodes.
ghost use Rattle.std.specs.Prelude.{IfSome};
ghost use Rattle.declarations.specs.KnownNodes.{IsNodeOf};
ghost use Rattle.declarations.specs.TypeWords.{IsWordOf};

pub use declaration_parser::sent::{is_primitive, sent_as};
use declaration_parser::texts::is_listed;
use schema_table::{IntegerType, Node};

/// What a known type makes of what is in `<` and `>` after its name.
#[derive(Clone, Copy, PartialEq, Eq, Drop)]
pub enum KnownForm {
    /// What is in it is sent as it is.
    Inner,
    Option,
    /// A list, of `u8` a buffer; one of at most so many, if a length follows.
    List,
    ListUpTo,
    /// A list, also of `u8`.
    Set,
    Outcome,
    Map,
    MapUpTo,
    Array,
    /// What holds any types, or none.
    Tuple,
    TextUpTo,
    /// Bytes of a length that is sent.
    Bytes,
    /// An integer's bytes in this order.
    Little,
    Big,
}

/// A form, how many types it holds, and where a length is among what is in its brackets, or [`NOWHERE`].
pub type FormRow = (KnownForm, usize, usize);

pub const NOWHERE: usize = usize::MAX;

/// The known types that hold others, or a length. Before the length of a heap is which element comes first.
const ROWS: &[(&str, FormRow)] = &[
    ("Arc Box Cell Cow Mutex Rc", (KnownForm::Inner, 1, NOWHERE)),
    ("RefCell Reverse RwLock", (KnownForm::Inner, 1, NOWHERE)),
    ("Saturating Wrapping", (KnownForm::Inner, 1, NOWHERE)),
    ("Option", (KnownForm::Option, 1, NOWHERE)),
    ("BTreeSet LinkedList Vec VecDeque", (KnownForm::List, 1, 1)),
    ("BinaryHeap", (KnownForm::List, 1, 2)),
    ("ArrayVec Deque FnvIndexSet", (KnownForm::ListUpTo, 1, 1)),
    ("HashSet", (KnownForm::Set, 1, NOWHERE)),
    ("Result", (KnownForm::Outcome, 2, NOWHERE)),
    ("BTreeMap HashMap", (KnownForm::Map, 2, NOWHERE)),
    ("FnvIndexMap LinearMap", (KnownForm::MapUpTo, 2, 2)),
    ("ArrayString String", (KnownForm::TextUpTo, 0, 0)),
    ("ByteArray", (KnownForm::Bytes, 0, 0)),
    ("LE", (KnownForm::Little, 1, NOWHERE)),
    ("BE", (KnownForm::Big, 1, NOWHERE)),
    ("PhantomData", (KnownForm::Tuple, 0, NOWHERE)),
];

/// The node of a type that holds no other, by its word.
pub fn plain_node(word: &str) -> Option<Node>
    ensures { IfSome result (λ node. IsWordOf node word.now) }
{
    Some(match word {
        "bool" => Node::Bool,
        "u8" => Node::U8,
        "i8" => Node::I8,
        "u16" => Node::U16,
        "u32" => Node::U32,
        "u64" | "usize" => Node::U64,
        "u128" => Node::U128,
        "i16" => Node::I16,
        "i32" => Node::I32,
        "i64" | "isize" => Node::I64,
        "i128" => Node::I128,
        "f32" => Node::LE(IntegerType::U32),
        "f64" => Node::LE(IntegerType::U64),
        "char" => Node::Char,
        "str" | "String" => Node::Text,
        "ByteBuf" | "Bytes" => Node::Bytes,
        _ => return None,
    })
}

/// The form of the known type of this name, if it holds others or a length.
pub fn form_of(word: &str) -> Option<FormRow> {
    for (words, row) in ROWS {
        if is_listed(word, words) {
            return Some(*row);
        }
    }
    None
}

/// The node of a known type, by the places of the types that it holds (of a map, that of its pairs), its length, and its type if
/// that can be sent as its bytes. Nothing if it has no node of its own.
pub fn node_of(
    form: KnownForm,
    places: Vec<usize>,
    most: Option<u64>,
    of: Option<IntegerType>,
) -> Option<Node>
    ensures { IfSome result (λ n. IsNodeOf form places.items most of n) }
{
    Some(match (form, places.as_slice(), most, of) {
        (KnownForm::Option, [inner], _, _) => Node::Option(*inner),
        (KnownForm::List, [inner], None, _) => Node::List(*inner),
        (KnownForm::Set | KnownForm::Map, [inner], _, _) => Node::List(*inner),
        (KnownForm::List, [inner], Some(most), _) => Node::ListUpTo(most, *inner),
        (KnownForm::ListUpTo, [inner], Some(most), _) => Node::ListUpTo(most, *inner),
        (KnownForm::MapUpTo, [inner], Some(most), _) => Node::ListUpTo(most, *inner),
        (KnownForm::Array, [inner], Some(count), _) => Node::Array(count, *inner),
        (KnownForm::Outcome, [_, _], _, _) => Node::Enum(places),
        (KnownForm::Tuple, _, _, _) => Node::Struct(places),
        (KnownForm::TextUpTo, _, Some(most), _) => Node::TextUpTo(most),
        (KnownForm::Bytes, _, _, _) => Node::Bytes,
        (KnownForm::Little, _, _, Some(of)) => Node::LE(of),
        (KnownForm::Big, _, _, Some(of)) => Node::BE(of),
        _ => return None,
    })
}

/// Whether every file has this name, unless it declares it or a `use` brings another in.
pub fn is_everywhere(word: &str) -> bool {
    is_primitive(word) || is_listed(word, "Box Option Result String Vec")
}

/// Whether the types of the crate of this name are known by theirs, as far as they can be sent.
pub fn is_known_crate(name: &str) -> bool {
    is_listed(
        name,
        "alloc arrayvec core defmt hashbrown heapless postcard serde serde_bytes std",
    )
}

/// Whether a type of this name is known.
pub fn is_known(word: &str) -> bool {
    form_of(word).is_some() || plain_node(word).is_some()
}

/// The integer type of a node that writes one as a varint.
pub fn varint_type(node: Option<&Node>) -> Option<IntegerType> {
    Some(match node? {
        Node::U16 => IntegerType::U16,
        Node::U32 => IntegerType::U32,
        Node::U64 => IntegerType::U64,
        Node::U128 => IntegerType::U128,
        Node::I16 => IntegerType::I16,
        Node::I32 => IntegerType::I32,
        Node::I64 => IntegerType::I64,
        Node::I128 => IntegerType::I128,
        _ => return None,
    })
}
