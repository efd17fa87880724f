//! A table of types as JSON, for other tools. README.md of the program `wire` documents its form.
ghost use Rattle.std.specs.Prelude.{◌≡◌, [], ◌∷◌, IfOk};
ghost use Rattle.json.specs.Json.{string};
ghost use Rattle.wire_print.specs.Appended.{AppendsJson};
ghost use Rattle.wire_print.specs.TableJson.{AppendsMembers, array_members, enum_members, fixed_members, integer_name as integer_name_of, kind_of, list_members, maybe_number, named_json, node_members, nodes_of, number_of, parts_of, places_of, plain_name as plain_kind, sized_json, struct_members, table_of, table_text, text_members, type_json, types_of};

use json::Writer;
use schema_table::{IntegerType, Names, Node, Schema};
use std::alloc::{AllocError, Global};

type Put = Result<(), AllocError>;

/// The version of this form.
const VERSION: u64 = 1;

/// Appends a member that is a number.
fn put_number(out: &mut Writer, name: &str, number: u64) -> Put
    ensures members { AppendsMembers result out.old out.new ((name.now, number_of number) ∷ []) }
    ensures before { out.new.before ≡ out.old.before }
{
    out.key(name)?;
    out.u64(number)
}

/// Appends a member that is a number, or `null`.
fn put_maybe(out: &mut Writer, name: &str, number: Option<u64>) -> Put
    ensures members { AppendsMembers result out.old out.new ((name.now, maybe_number number) ∷ []) }
    ensures before { out.new.before ≡ out.old.before }
{
    out.key(name)?;
    match number {
        Some(number) => out.u64(number),
        None => out.null(),
    }
}

/// Appends a member that is a text.
fn put_text(out: &mut Writer, name: &str, text: &str) -> Put
    ensures members { AppendsMembers result out.old out.new ((name.now, string text.now) ∷ []) }
    ensures before { out.new.before ≡ out.old.before }
{
    out.key(name)?;
    out.string(text)
}

/// Appends the kind of a node.
fn put_kind(out: &mut Writer, kind: &str) -> Put
    ensures members { AppendsMembers result out.old out.new (kind_of kind.now ∷ []) }
    ensures before { out.new.before ≡ out.old.before }
{
    put_text(out, "kind", kind)
}

/// Appends an object of a name and an index.
fn put_named(out: &mut Writer, name: &str, node: usize) -> Put
    ensures json { AppendsJson result out.old out.new (named_json name.now node) }
    ensures before { out.new.before ≡ out.old.before }
{
    out.begin_object()?;
    put_text(out, "name", name)?;
    put_number(out, "node", node as u64)?;
    out.end_object()
}

/// Appends a member that lists indices by names.
fn put_parts(out: &mut Writer, of: &str, names: &[String], places: &[usize]) -> Put
    ensures members { AppendsMembers result out.old out.new
        (parts_of of.now names.now places.now ∷ []) }
    ensures before { out.new.before ≡ out.old.before }
{
    out.key(of)?;
    out.begin_array()?;
    for (name, place) in names.iter().zip(places) {
        put_named(out, name.as_str(), *place)?;
    }
    out.end_array()
}

/// Appends a member that lists indices.
fn put_places(out: &mut Writer, places: &[usize]) -> Put
    ensures members { AppendsMembers result out.old out.new (places_of places.now ∷ []) }
    ensures before { out.new.before ≡ out.old.before }
{
    out.key("nodes")?;
    out.begin_array()?;
    for place in places {
        out.u64(*place as u64)?;
    }
    out.end_array()
}

/// The name of an integer type.
fn integer_name(of: IntegerType) -> &'static str
    ensures { result.now ≡ integer_name_of of }
{
    match of {
        IntegerType::U16 => "u16",
        IntegerType::U32 => "u32",
        IntegerType::U64 => "u64",
        IntegerType::U128 => "u128",
        IntegerType::I16 => "i16",
        IntegerType::I32 => "i32",
        IntegerType::I64 => "i64",
        IntegerType::I128 => "i128",
    }
}

/// Appends an integer of fixed width, or a float.
fn put_fixed(out: &mut Writer, names: &Names, of: IntegerType, order: &str) -> Put
    ensures members { AppendsMembers result out.old out.new (fixed_members names.now of order.now) }
    ensures before { out.new.before ≡ out.old.before }
{
    match (names, of) {
        (Names::Float, IntegerType::U32) => put_kind(out, "f32"),
        (Names::Float, IntegerType::U64) => put_kind(out, "f64"),
        _ => {
            put_kind(out, "fixed")?;
            put_text(out, "integer", integer_name(of))?;
            put_text(out, "order", order)
        }
    }
}

/// Appends a list or a map, with the index of its elements.
fn put_list(out: &mut Writer, names: &Names, most: Option<u64>, inner: usize) -> Put
    ensures members { AppendsMembers result out.old out.new (list_members names.now most inner) }
    ensures before { out.new.before ≡ out.old.before }
{
    put_kind(
        out,
        match names {
            Names::Map => "map",
            _ => "list",
        },
    )?;
    put_maybe(out, "most", most)?;
    put_number(out, "node", inner as u64)
}

/// Appends an array.
fn put_array(out: &mut Writer, count: u64, inner: usize) -> Put
    ensures members { AppendsMembers result out.old out.new (array_members count inner) }
    ensures before { out.new.before ≡ out.old.before }
{
    put_kind(out, "array")?;
    put_number(out, "count", count)?;
    put_number(out, "node", inner as u64)
}

/// Appends a struct or a tuple.
fn put_struct(out: &mut Writer, names: &Names, places: &[usize]) -> Put
    ensures members { AppendsMembers result out.old out.new (struct_members names.now places.now) }
    ensures before { out.new.before ≡ out.old.before }
{
    match (names, places) {
        (Names::Empty, _) => put_kind(out, "empty"),
        (Names::Unit, _) => put_kind(out, "unit"),
        (Names::Newtype, [only]) => {
            put_kind(out, "newtype")?;
            put_number(out, "node", *only as u64)
        }
        (Names::Fields(names), _) => {
            put_kind(out, "struct")?;
            put_parts(out, "fields", names, places)
        }
        _ => {
            put_kind(out, "tuple")?;
            put_places(out, places)
        }
    }
}

/// Appends an enum.
fn put_enum(out: &mut Writer, names: &Names, places: &[usize]) -> Put
    ensures members { AppendsMembers result out.old out.new (enum_members names.now places.now) }
    ensures before { out.new.before ≡ out.old.before }
{
    put_kind(out, "enum")?;
    match names {
        Names::Variants(names) => put_parts(out, "variants", names, places),
        _ => put_places(out, places),
    }
}

/// Appends a text, with its maximum length, if it has one.
fn put_any_text(out: &mut Writer, most: Option<u64>) -> Put
    ensures members { AppendsMembers result out.old out.new (text_members most) }
    ensures before { out.new.before ≡ out.old.before }
{
    put_kind(out, "text")?;
    put_maybe(out, "most", most)
}

/// The kind of a node without parts.
fn plain_name(node: &Node) -> &'static str
    ensures { result.now ≡ plain_kind node.now }
{
    match node {
        Node::Bool => "bool",
        Node::U8 => "u8",
        Node::U16 => "u16",
        Node::U32 => "u32",
        Node::U64 => "u64",
        Node::U128 => "u128",
        Node::I8 => "i8",
        Node::I16 => "i16",
        Node::I32 => "i32",
        Node::I64 => "i64",
        Node::I128 => "i128",
        Node::Char => "char",
        _ => "bytes",
    }
}

/// Appends the kind and the parts of a node.
fn put_node(out: &mut Writer, names: &Names, node: &Node) -> Put
    ensures members { AppendsMembers result out.old out.new (node_members names.now node.now) }
    ensures before { out.new.before ≡ out.old.before }
{
    match node {
        Node::LE(of) => put_fixed(out, names, *of, "little"),
        Node::BE(of) => put_fixed(out, names, *of, "big"),
        Node::Text => put_any_text(out, None),
        Node::TextUpTo(most) => put_any_text(out, Some(*most)),
        Node::Option(inner) => {
            put_kind(out, "option")?;
            put_number(out, "node", *inner as u64)
        }
        Node::List(inner) => put_list(out, names, None, *inner),
        Node::ListUpTo(most, inner) => put_list(out, names, Some(*most), *inner),
        Node::Array(count, inner) => put_array(out, *count, *inner),
        Node::Struct(fields) => put_struct(out, names, fields),
        Node::Enum(payloads) => put_enum(out, names, payloads),
        _ => put_kind(out, plain_name(node)),
    }
}

/// Appends a declared type, with its name, its line and its index.
fn put_type(out: &mut Writer, name: &str, line: usize, place: usize) -> Put
    ensures json { AppendsJson result out.old out.new (type_json name.now line place) }
    ensures before { out.new.before ≡ out.old.before }
{
    out.begin_object()?;
    put_text(out, "name", name)?;
    put_number(out, "line", line as u64)?;
    put_number(out, "node", place as u64)?;
    out.end_object()
}

/// Appends the declared types.
fn put_types(out: &mut Writer, schema: &Schema) -> Put
    ensures members { AppendsMembers result out.old out.new (types_of schema.now ∷ []) }
    ensures before { out.new.before ≡ out.old.before }
{
    out.key("types")?;
    out.begin_array()?;
    for (place, it) in schema.types.iter().enumerate() {
        put_type(out, it.name.as_str(), it.line, place)?;
    }
    out.end_array()
}

/// Appends a node, with its maximum size.
fn put_sized(out: &mut Writer, node: &Node, names: &Names, size: Option<u64>) -> Put
    ensures json { AppendsJson result out.old out.new (sized_json node.now names.now size) }
    ensures before { out.new.before ≡ out.old.before }
{
    out.begin_object()?;
    put_node(out, names, node)?;
    put_maybe(out, "size", size)?;
    out.end_object()
}

/// Appends the nodes.
fn put_nodes(out: &mut Writer, schema: &Schema, sizes: &[Option<u64>]) -> Put
    ensures members { AppendsMembers result out.old out.new (nodes_of schema.now sizes.now ∷ []) }
    ensures before { out.new.before ≡ out.old.before }
{
    out.key("nodes")?;
    out.begin_array()?;
    for ((node, names), size) in schema.nodes.iter().zip(&schema.names).zip(sizes) {
        put_sized(out, node, names, *size)?;
    }
    out.end_array()
}

/// Appends the table as an object.
fn put_table(out: &mut Writer, schema: &Schema, sizes: &[Option<u64>]) -> Put
    ensures json { AppendsJson result out.old out.new (table_of schema.now sizes.now) }
    ensures before { out.new.before ≡ out.old.before }
{
    out.begin_object()?;
    put_number(out, "version", VERSION)?;
    put_types(out, schema)?;
    put_nodes(out, schema, sizes)?;
    out.end_object()
}

/// Returns a table of types as one line of JSON, with these sizes, one for each node: `{"version":1,"types":[..],"nodes":[..]}`.
///
/// # Errors
/// Out of memory.
///
/// # Allocates
/// The line.
pub fn print_table(
    alloc: Global,
    schema: &Schema,
    sizes: &[Option<u64>],
) -> Result<Vec<u8>, AllocError>
    ensures { IfOk result (λ text. text.items ≡ table_text schema.now sizes.now) }
{
    let mut out = Writer::new(Vec::new(alloc));
    put_table(&mut out, schema, sizes)?;
    Ok(out.into_inner())
}
