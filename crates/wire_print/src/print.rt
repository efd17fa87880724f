//! Values as JSON.
ghost use Rattle.std.specs.Prelude.{◌≡◌, true, ◌<◌, ◌&&◌, [], ◌∷◌, ℕ, List, IfOk, IfSome, None, Some, length, zip, decimal, encode_utf8};
ghost use Rattle.std.specs.Fmt.{signed_decimal};
ghost use Rattle.std.specs.List.{slice_get};
ghost use Rattle.hex.specs.Hex.{encode_lower};
ghost use Rattle.json.specs.Json.{null, boolean, number, string, array};
ghost use Rattle.json.specs.Token.{key};
ghost use Rattle.schema_table.specs.Telling.{names_at, node_at};
ghost use Rattle.schema_table.specs.declared.value.Value.{out-Value};
ghost use Rattle.schema_table.specs.Floats.{ShowsDouble, ShowsSingle};
ghost use Rattle.schema_table.specs.Looks.{IsUnder, inside_within, integer_key, is_byte_node, is_float_named, key_text, only_part as part_in, part_of, plain_key, variant_named};
ghost use Rattle.wire_print.specs.Appended.{AppendsJson, AppendsKey, AppendsMember, AppendsOne};
ghost use Rattle.schema_table.specs.Printed.{Prints, Shows, ShowsArray, ShowsElements, ShowsEnum, ShowsFields, ShowsFirst, ShowsFixed, ShowsInteger, ShowsList, ShowsNamed, ShowsObject, ShowsOption, ShowsPair, ShowsPart, ShowsParts, ShowsStruct, ShowsVariant, byte_items, bytes_in, bytes_json, digits_json, first_name, integer_json, other_names, plain_json, two_values};

use crate::floats::{double, single, word_of, word_of_double};
use json::{Writer, is_number};
use schema_table::looks::{
    PRESENT, is_byte, is_empty, is_float, is_object, may_be_null, names_of, node_of, only_field,
    pair_of,
};
use schema_table::{Integer, Names, Node, Schema, Value};
use std::alloc::{AllocError, Global};

/// Printing fails only if out of memory: what isn't of the type is printed by the value alone.
type Printed = Result<(), AllocError>;

// Passed by reference: each call would copy it.
/// The table, whether bytes are printed as hexadecimal text, and how many more nested nodes are allowed.
#[derive(Clone, Copy, Drop)]
struct Style<'a> {
    alloc: Global,
    schema: &'a Schema,
    hex: bool,
    depth: u32,
}

/// Appends a number by its digits. They are tested here, since no clause says that the digits of each number past 64 bits are a
/// JSON number.
fn put_digits(out: &mut Writer, digits: &str) -> Printed
    ensures json { AppendsJson result out.old out.new (digits_json digits.now) }
    ensures before { out.new.before ≡ out.old.before }
{
    if !is_number(digits) {
        return put_text(out, digits);
    }
    out.number(digits)
}

/// Appends a number.
#[inline(never)]
fn put_u128(out: &mut Writer, n: u128) -> Printed
    ensures json { AppendsJson result out.old out.new (digits_json (decimal n)) }
    ensures before { out.new.before ≡ out.old.before }
{
    let mut buffer = itoa::Buffer::new();
    put_digits(out, buffer.format(n))
}

/// Appends a number that may be negative.
#[inline(never)]
fn put_i128(out: &mut Writer, n: i128) -> Printed
    ensures json { AppendsJson result out.old out.new (digits_json (signed_decimal n)) }
    ensures before { out.new.before ≡ out.old.before }
{
    let mut buffer = itoa::Buffer::new();
    put_digits(out, buffer.format(n))
}

/// Appends a number of up to 64 bits.
fn put_u64(out: &mut Writer, n: u64) -> Printed
    ensures json { AppendsJson result out.old out.new (number (decimal n)) }
    ensures before { out.new.before ≡ out.old.before }
{
    out.u64(n)
}

/// Appends a number of up to 64 bits that may be negative.
fn put_i64(out: &mut Writer, n: i64) -> Printed
    ensures json { AppendsJson result out.old out.new (number (signed_decimal n)) }
    ensures before { out.new.before ≡ out.old.before }
{
    out.i64(n)
}

/// Appends an integer of fixed width.
fn put_integer(out: &mut Writer, n: Integer) -> Printed
    ensures json { AppendsJson result out.old out.new (integer_json n) }
    ensures before { out.new.before ≡ out.old.before }
{
    match n {
        Integer::U16(n) => put_u64(out, u64::from(n)),
        Integer::U32(n) => put_u64(out, u64::from(n)),
        Integer::U64(n) => put_u64(out, n),
        Integer::U128(n) => put_u128(out, n),
        Integer::I16(n) => put_i64(out, i64::from(n)),
        Integer::I32(n) => put_i64(out, i64::from(n)),
        Integer::I64(n) => put_i64(out, n),
        Integer::I128(n) => put_i128(out, n),
    }
}

/// Appends an `f32`: the shortest number that reads back as it, or a string if it isn't finite.
fn put_single(out: &mut Writer, alloc: Global, bits: u32) -> Printed
    ensures json { AppendsOne result out.old out.new (ShowsSingle bits) }
    ensures before { out.new.before ≡ out.old.before }
{
    match single(bits) {
        Some(float) => out.float(float),
        None => {
            let word = word_of(alloc, bits)?;
            put_text(out, word.as_str())
        }
    }
}

/// The same for an `f64`.
fn put_double(out: &mut Writer, alloc: Global, bits: u64) -> Printed
    ensures json { AppendsOne result out.old out.new (ShowsDouble bits) }
    ensures before { out.new.before ≡ out.old.before }
{
    match double(bits) {
        Some(float) => out.float(float),
        None => {
            let word = word_of_double(alloc, bits)?;
            put_text(out, word.as_str())
        }
    }
}

/// Appends a float from its bits.
fn put_float(out: &mut Writer, style: &Style<'_>, value: &Value) -> Printed
    ensures json { AppendsOne result out.old out.new
        (ShowsInteger true style.now.hex (out-Value value.now)) }
    ensures before { out.new.before ≡ out.old.before }
{
    match value {
        Value::LE(Integer::U32(bits)) => put_single(out, style.alloc, *bits),
        Value::LE(Integer::U64(bits)) => put_double(out, style.alloc, *bits),
        _ => put_plain(out, style, value),
    }
}

/// Appends `null`.
#[inline(never)]
fn put_null(out: &mut Writer) -> Printed
    ensures json { AppendsJson result out.old out.new null }
    ensures before { out.new.before ≡ out.old.before }
{
    out.null()
}

/// Appends `true` or `false`.
#[inline(never)]
fn put_boolean(out: &mut Writer, b: bool) -> Printed
    ensures json { AppendsJson result out.old out.new (boolean b) }
    ensures before { out.new.before ≡ out.old.before }
{
    out.boolean(b)
}

/// Appends a text.
#[inline(never)]
fn put_text(out: &mut Writer, text: &str) -> Printed
    ensures json { AppendsJson result out.old out.new (string text.now) }
    ensures before { out.new.before ≡ out.old.before }
{
    out.string(text)
}

/// Appends a character as a text.
#[inline(never)]
fn put_char(out: &mut Writer, alloc: Global, c: char) -> Printed
    ensures json { AppendsJson result out.old out.new (string (encode_utf8 c)) }
    ensures before { out.new.before ≡ out.old.before }
{
    let mut text = String::new(alloc);
    text.push(c)?;
    put_text(out, text.as_str())
}

/// Appends bytes as an array of numbers.
fn put_numbers(out: &mut Writer, bytes: &[u8]) -> Printed
    ensures json { AppendsJson result out.old out.new (array (byte_items bytes.now)) }
    ensures before { out.new.before ≡ out.old.before }
{
    out.begin_array()?;
    for byte in bytes {
        out.u64(u64::from(*byte))?;
    }
    out.end_array()
}

/// Appends bytes as hexadecimal digits.
fn put_hex(out: &mut Writer, alloc: Global, bytes: &[u8]) -> Printed
    ensures json { AppendsJson result out.old out.new (string (encode_lower bytes.now)) }
    ensures before { out.new.before ≡ out.old.before }
{
    let digits = hex::encode(alloc, bytes)?;
    put_text(out, digits.as_str())
}

/// Appends bytes.
#[inline(never)]
fn put_bytes(out: &mut Writer, style: &Style<'_>, bytes: &[u8]) -> Printed
    ensures json { AppendsJson result out.old out.new (bytes_json style.now.hex bytes.now) }
    ensures before { out.new.before ≡ out.old.before }
{
    if style.hex {
        return put_hex(out, style.alloc, bytes);
    }
    put_numbers(out, bytes)
}

// Most values are small numbers. Functions that need more registers or stack than `put_u64` aren't inlined here, since each number
// would pay for them.
/// Appends a value without parts; `null` for one with parts.
fn put_plain(out: &mut Writer, style: &Style<'_>, value: &Value) -> Printed
    ensures json { AppendsJson result out.old out.new (plain_json style.now.hex
        (out-Value value.now)) }
    ensures before { out.new.before ≡ out.old.before }
{
    match value {
        Value::Bool(b) => put_boolean(out, *b),
        Value::U8(n) => put_u64(out, u64::from(*n)),
        Value::U16(n) => put_u64(out, u64::from(*n)),
        Value::U32(n) => put_u64(out, u64::from(*n)),
        Value::U64(n) => put_u64(out, *n),
        Value::U128(n) => put_u128(out, *n),
        Value::I8(n) => put_i64(out, i64::from(*n)),
        Value::I16(n) => put_i64(out, i64::from(*n)),
        Value::I32(n) => put_i64(out, i64::from(*n)),
        Value::I64(n) => put_i64(out, *n),
        Value::I128(n) => put_i128(out, *n),
        Value::LE(n) | Value::BE(n) => put_integer(out, *n),
        Value::Char(c) => put_char(out, style.alloc, *c),
        Value::Text(text) => put_text(out, text.as_str()),
        Value::Bytes(bytes) => put_bytes(out, style, bytes),
        _ => put_null(out),
    }
}

/// Appends an integer that is sent as its bytes, or a float.
fn put_fixed(out: &mut Writer, style: &Style<'_>, place: usize, value: &Value) -> Printed
    ensures json { AppendsOne result out.old out.new
        (ShowsInteger (is_float_named (names_at style.now.schema.now place)) style.now.hex
        (out-Value value.now)) }
    ensures before { out.new.before ≡ out.old.before }
{
    if is_float(style.schema, place) {
        return put_float(out, style, value);
    }
    put_plain(out, style, value)
}

/// Appends a value of the type at index `place`; parts nested too deeply become `null`.
#[cycle(print)]
fn put(out: &mut Writer, style: &Style<'_>, place: usize, value: &Value) -> Printed
    ensures json { AppendsOne result out.old out.new
        (Shows style.now.hex style.now.schema.now style.now.depth place value.now) }
    ensures before { out.new.before ≡ out.old.before }
{
    if style.depth == 0 {
        return put_null(out);
    }
    let depth = style.depth - 1;
    let below = Style { depth, ..*style };
    let Some(node) = node_of(style.schema, place) else {
        return put_plain(out, style, value);
    };
    match node {
        Node::Option(inner) => put_option(out, &below, *inner, value),
        Node::List(inner) => put_list(out, &below, place, *inner, value),
        Node::ListUpTo(_, inner) => put_list(out, &below, place, *inner, value),
        Node::Array(_, inner) => put_array(out, &below, *inner, value),
        Node::Struct(fields) => put_struct(out, &below, place, fields, value),
        Node::Enum(payloads) => put_enum(out, &below, place, payloads, value),
        Node::LE(_) => put_fixed(out, style, place, value),
        _ => put_plain(out, style, value),
    }
}

/// Appends an optional value.
#[cycle(print)]
fn put_option(out: &mut Writer, style: &Style<'_>, inner: usize, value: &Value) -> Printed
    ensures json { AppendsOne result out.old out.new
        (ShowsOption style.now.hex style.now.schema.now inner
        (Shows style.now.hex style.now.schema.now style.now.depth inner)
        (out-Value value.now)) }
    ensures before { out.new.before ≡ out.old.before }
{
    match value {
        Value::Present(held) if may_be_null(style.schema, inner) => {
            put_under(out, style, PRESENT, inner, held)
        }
        Value::Present(held) => put(out, style, inner, held),
        _ => put_plain(out, style, value),
    }
}

/// Appends a value as the only member of an object.
#[cycle(print)]
fn put_under(
    out: &mut Writer,
    style: &Style<'_>,
    name: &str,
    place: usize,
    value: &Value,
) -> Printed
    ensures json { AppendsOne result out.old out.new
        (IsUnder name.now
        (Shows style.now.hex style.now.schema.now style.now.depth place value.now)) }
    ensures before { out.new.before ≡ out.old.before }
{
    out.begin_object()?;
    out.key(name)?;
    put(out, style, place, value)?;
    out.end_object()
}

/// Appends a list; a map whose keys can be texts as an object.
#[cycle(print)]
fn put_list(
    out: &mut Writer,
    style: &Style<'_>,
    place: usize,
    inner: usize,
    value: &Value,
) -> Printed
    ensures json { AppendsOne result out.old out.new
        (ShowsList style.now.hex style.now.schema.now place inner
        (Shows style.now.hex style.now.schema.now style.now.depth)
        (out-Value value.now)) }
    ensures before { out.new.before ≡ out.old.before }
{
    let Value::List(items) = value else {
        return put_plain(out, style, value);
    };
    if is_object(style.schema, place, inner) {
        return put_pairs(out, style, inner, items);
    }
    put_elements(out, style, inner, items)
}

/// Appends an array.
#[cycle(print)]
fn put_array(out: &mut Writer, style: &Style<'_>, inner: usize, value: &Value) -> Printed
    ensures json { AppendsOne result out.old out.new
        (ShowsFixed style.now.hex style.now.schema.now inner
        (Shows style.now.hex style.now.schema.now style.now.depth inner)
        (out-Value value.now)) }
    ensures before { out.new.before ≡ out.old.before }
{
    match value {
        Value::Group(items) => put_elements(out, style, inner, items),
        _ => put_plain(out, style, value),
    }
}

/// Whether values of the type at index `place` are hexadecimal digits.
fn are_digits(style: &Style<'_>, place: usize) -> bool
    ensures { result ≡ (style.now.hex && is_byte_node (node_at style.now.schema.now place)) }
{
    style.hex && is_byte(style.schema, place)
}

/// Appends values of one type as an array, or bytes as a text.
#[cycle(print)]
fn put_elements(out: &mut Writer, style: &Style<'_>, inner: usize, items: &[Value]) -> Printed
    ensures json { AppendsOne result out.old out.new
        (ShowsElements style.now.hex (node_at style.now.schema.now inner)
        (Shows style.now.hex style.now.schema.now style.now.depth inner) items.now) }
    ensures before { out.new.before ≡ out.old.before }
{
    if are_digits(style, inner) {
        let bytes = bytes_of(style.alloc, items)?;
        return put_hex(out, style.alloc, &bytes);
    }
    put_items(out, style, inner, items)
}

/// The bytes among values.
fn bytes_of(alloc: Global, items: &[Value]) -> Result<Vec<u8>, AllocError>
    ensures { IfOk result (λ bytes. bytes.items ≡ bytes_in items.now) }
{
    let mut bytes = Vec::new(alloc);
    for item in items {
        if let Value::U8(byte) = item {
            bytes.push(*byte)?;
        }
    }
    Ok(bytes)
}

/// Appends values of one type as an array.
#[cycle(print)]
fn put_items(out: &mut Writer, style: &Style<'_>, inner: usize, items: &[Value]) -> Printed
    ensures json { AppendsOne result out.old out.new
        (ShowsArray
        (Shows style.now.hex style.now.schema.now style.now.depth inner) items.now) }
    ensures before { out.new.before ≡ out.old.before }
{
    out.begin_array()?;
    for item in items {
        put(out, style, inner, item)?;
    }
    out.end_array()
}

/// Appends pairs as an object.
#[cycle(print)]
fn put_pairs(out: &mut Writer, style: &Style<'_>, pair: usize, items: &[Value]) -> Printed
    ensures json { AppendsOne result out.old out.new
        (ShowsObject (ShowsPair style.now.schema.now pair
        (Shows style.now.hex style.now.schema.now style.now.depth)) items.now) }
    ensures before { out.new.before ≡ out.old.before }
{
    out.begin_object()?;
    for item in items {
        put_pair(out, style, pair, item)?;
    }
    out.end_object()
}

/// Appends a number as a key.
fn put_u128_key(out: &mut Writer, n: u128) -> Printed
    ensures key { AppendsKey result out.old out.new (decimal n) }
    ensures before { out.new.before ≡ out.old.before }
{
    let mut buffer = itoa::Buffer::new();
    out.key(buffer.format(n))
}

/// Appends a number that may be negative as a key.
fn put_i128_key(out: &mut Writer, n: i128) -> Printed
    ensures key { AppendsKey result out.old out.new (signed_decimal n) }
    ensures before { out.new.before ≡ out.old.before }
{
    let mut buffer = itoa::Buffer::new();
    out.key(buffer.format(n))
}

/// Appends an integer of fixed width as a key.
fn put_integer_key(out: &mut Writer, n: Integer) -> Printed
    ensures key { AppendsKey result out.old out.new (integer_key n) }
    ensures before { out.new.before ≡ out.old.before }
{
    match n {
        Integer::U16(n) => put_u128_key(out, u128::from(n)),
        Integer::U32(n) => put_u128_key(out, u128::from(n)),
        Integer::U64(n) => put_u128_key(out, u128::from(n)),
        Integer::U128(n) => put_u128_key(out, n),
        Integer::I16(n) => put_i128_key(out, i128::from(n)),
        Integer::I32(n) => put_i128_key(out, i128::from(n)),
        Integer::I64(n) => put_i128_key(out, i128::from(n)),
        Integer::I128(n) => put_i128_key(out, n),
    }
}

/// Appends a character as a key.
fn put_char_key(out: &mut Writer, alloc: Global, c: char) -> Printed
    ensures key { AppendsKey result out.old out.new (encode_utf8 c) }
    ensures before { out.new.before ≡ out.old.before }
{
    let mut text = String::new(alloc);
    text.push(c)?;
    out.key(text.as_str())
}

/// Appends a value without parts as a key; an empty key for what can't be one.
fn put_plain_key(out: &mut Writer, alloc: Global, value: &Value) -> Printed
    ensures key { AppendsKey result out.old out.new (plain_key (out-Value value.now)) }
    ensures before { out.new.before ≡ out.old.before }
{
    match value {
        Value::Bool(b) => out.key(if *b { "true" } else { "false" }),
        Value::U8(n) => put_u128_key(out, u128::from(*n)),
        Value::U16(n) => put_u128_key(out, u128::from(*n)),
        Value::U32(n) => put_u128_key(out, u128::from(*n)),
        Value::U64(n) => put_u128_key(out, u128::from(*n)),
        Value::U128(n) => put_u128_key(out, *n),
        Value::I8(n) => put_i128_key(out, i128::from(*n)),
        Value::I16(n) => put_i128_key(out, i128::from(*n)),
        Value::I32(n) => put_i128_key(out, i128::from(*n)),
        Value::I64(n) => put_i128_key(out, i128::from(*n)),
        Value::I128(n) => put_i128_key(out, *n),
        Value::LE(n) | Value::BE(n) => put_integer_key(out, *n),
        Value::Char(c) => put_char_key(out, alloc, *c),
        Value::Text(text) => out.key(text.as_str()),
        _ => out.key(""),
    }
}

/// The name of a variant of the type at index `place`.
fn variant_name<'a>(schema: &'a Schema, place: usize, index: u32) -> Option<&'a str>
    ensures some { IfSome result (λ name. variant_named (names_at schema.now place) index ≡
        Some name.now) }
    ensures none { result ≡ None → variant_named (names_at schema.now place) index ≡ None }
{
    match schema.names.get(place) {
        Some(Names::Variants(names)) => match names.get(index as usize) {
            Some(name) => Some(name.as_str()),
            None => None,
        },
        _ => None,
    }
}

/// The only part of a value.
fn only_part(value: &Value) -> Option<&Value>
    ensures some { IfSome result (λ part. part_in (out-Value value.now) ≡ Some part.now) }
    ensures none { result ≡ None → part_in (out-Value value.now) ≡ None }
{
    match value {
        Value::Group(parts) => match parts.as_slice() {
            [only] => Some(only),
            _ => None,
        },
        _ => None,
    }
}

/// The only part of a value, with the index of its type.
fn typed_part<'a>(schema: &Schema, place: usize, value: &'a Value) -> Option<(usize, &'a Value)>
    ensures some { IfSome result (λ p. part_of schema.now place value.now ≡ Some (p.0, p.1.now)) }
    ensures none { result ≡ None → part_of schema.now place value.now ≡ None }
{
    let Some(field) = only_field(schema, place) else {
        return None;
    };
    let Some(part) = only_part(value) else {
        return None;
    };
    Some((field, part))
}

/// The value inside the newtypes around a key, and the index of its type.
fn inside_newtypes<'a>(schema: &Schema, place: usize, value: &'a Value) -> (usize, &'a Value)
    ensures { (result.0, result.1.now)
        ≡ inside_within (length schema.now.nodes.items) schema.now place value.now }
{
    let (mut at, mut held) = (place, value);
    for _ in 0..schema.nodes.len() {
        match typed_part(schema, at, held) {
            Some((field, part)) => (at, held) = (field, part),
            None => return (at, held),
        }
    }
    (at, held)
}

/// Appends a key of the type at index `place`: its text, its digits, or the name of a variant.
fn put_key(out: &mut Writer, style: &Style<'_>, place: usize, value: &Value) -> Printed
    ensures key { AppendsKey result out.old out.new
        (key_text style.now.schema.now place value.now) }
    ensures before { out.new.before ≡ out.old.before }
{
    let (at, held) = inside_newtypes(style.schema, place, value);
    let Value::Variant(index, _) = held else {
        return put_plain_key(out, style.alloc, held);
    };
    match variant_name(style.schema, at, *index) {
        Some(name) => out.key(name),
        None => put_u128_key(out, u128::from(*index)),
    }
}

/// The two values of a pair.
fn two_of(value: &Value) -> Option<(&Value, &Value)>
    ensures some { IfSome result (λ two. two_values (out-Value value.now) ≡
        Some (two.0.now, two.1.now)) }
    ensures none { result ≡ None → two_values (out-Value value.now) ≡ None }
{
    match value {
        Value::Group(parts) => match parts.as_slice() {
            [key, held] => Some((key, held)),
            _ => None,
        },
        _ => None,
    }
}

/// Appends a pair as a member; an empty one for what isn't a pair.
#[cycle(print)]
fn put_pair(out: &mut Writer, style: &Style<'_>, pair: usize, item: &Value) -> Printed
    ensures member { AppendsMember result out.old out.new
        (ShowsPair style.now.schema.now pair
        (Shows style.now.hex style.now.schema.now style.now.depth) item.now) }
    ensures before { out.new.before ≡ out.old.before }
{
    let Some((key, inner)) = pair_of(style.schema, pair) else {
        return put_no_pair(out);
    };
    let Some((name, held)) = two_of(item) else {
        return put_no_pair(out);
    };
    put_key(out, style, key, name)?;
    put(out, style, inner, held)
}

/// Appends an empty member for what isn't a pair.
fn put_no_pair(out: &mut Writer) -> Printed
    ensures member { AppendsMember result out.old out.new (λ m. m.1 ≡ null) }
    ensures before { out.new.before ≡ out.old.before }
{
    out.key("")?;
    out.null()
}

/// Appends a struct or a tuple: as an array if its fields have no names.
#[cycle(print)]
fn put_struct(
    out: &mut Writer,
    style: &Style<'_>,
    place: usize,
    fields: &[usize],
    value: &Value,
) -> Printed
    ensures json { AppendsOne result out.old out.new
        (ShowsStruct style.now.hex (names_at style.now.schema.now place) fields.now
        (Shows style.now.hex style.now.schema.now style.now.depth)
        (out-Value value.now)) }
    ensures before { out.new.before ≡ out.old.before }
{
    match value {
        Value::Group(items) => put_named(out, style, place, fields, items),
        _ => put_plain(out, style, value),
    }
}

/// Appends values of these types by what they are called.
#[cycle(print)]
fn put_named(
    out: &mut Writer,
    style: &Style<'_>,
    place: usize,
    fields: &[usize],
    items: &[Value],
) -> Printed
    ensures json { AppendsOne result out.old out.new
        (ShowsNamed (names_at style.now.schema.now place) fields.now
        (Shows style.now.hex style.now.schema.now style.now.depth) items.now) }
    ensures before { out.new.before ≡ out.old.before }
{
    let Some(names) = names_of(style.schema, place) else {
        return put_tuple(out, style, fields, items);
    };
    match names {
        Names::Unit => out.null(),
        Names::Empty => out.null(),
        Names::Newtype => put_newtype(out, style, fields, items),
        Names::Fields(names) => put_members(out, style, names, fields, items),
        _ => put_tuple(out, style, fields, items),
    }
}

/// A value, the index of its type before it, and what is left of both.
type FirstPart<'a> = (usize, &'a Value, &'a [usize], &'a [Value]);

/// The first of these types and values, and the others.
fn first_part<'a>(types: &'a [usize], parts: &'a [Value]) -> Option<FirstPart<'a>>
    ensures some { IfSome result (λ p. zip types.now parts.now ≡
        (p.0, p.1.now) ∷ zip p.2.now p.3.now) }
    ensures fewer { IfSome result (λ p. length p.2.now < length types.now) }
    ensures none { result ≡ None → zip types.now parts.now ≡ [] }
{
    let [first, types @ ..] = types else {
        return None;
    };
    let [part, parts @ ..] = parts else {
        return None;
    };
    Some((*first, part, types, parts))
}

/// Appends the value of a struct's only field; if a checksum follows, the value before it.
#[cycle(print)]
fn put_newtype(out: &mut Writer, style: &Style<'_>, fields: &[usize], items: &[Value]) -> Printed
    ensures json { AppendsOne result out.old out.new
        (ShowsFirst (ShowsPart
        (Shows style.now.hex style.now.schema.now style.now.depth)) (zip fields.now items.now)) }
    ensures before { out.new.before ≡ out.old.before }
{
    match first_part(fields, items) {
        Some((field, item, _, _)) => put(out, style, field, item),
        None => out.null(),
    }
}

/// Appends values of these types as an array.
#[cycle(print)]
fn put_tuple(out: &mut Writer, style: &Style<'_>, fields: &[usize], items: &[Value]) -> Printed
    ensures json { AppendsOne result out.old out.new
        (ShowsParts
        (Shows style.now.hex style.now.schema.now style.now.depth) fields.now items.now) }
    ensures before { out.new.before ≡ out.old.before }
{
    out.begin_array()?;
    let (mut types, mut parts) = (fields, items);
    while let Some((field, item, types_left, parts_left)) = first_part(types, parts) {
        put(out, style, field, item)?;
        (types, parts) = (types_left, parts_left);
    }
    out.end_array()
}

/// The first of some names, which is empty if there is none, and the others.
fn next_name(names: &[String]) -> (&str, &[String])
    ensures name { result.0.now ≡ first_name names.now }
    ensures others { result.1.now ≡ other_names names.now }
{
    match names {
        [name, others @ ..] => (name.as_str(), others),
        [] => ("", names),
    }
}

/// Appends values of these types as an object; a value without a name gets an empty one.
#[cycle(print)]
fn put_members(
    out: &mut Writer,
    style: &Style<'_>,
    names: &[String],
    fields: &[usize],
    items: &[Value],
) -> Printed
    ensures json { AppendsOne result out.old out.new
        (ShowsFields
        (Shows style.now.hex style.now.schema.now style.now.depth) names.now fields.now items.now) }
    ensures before { out.new.before ≡ out.old.before }
{
    out.begin_object()?;
    let (mut called, mut types, mut parts) = (names, fields, items);
    while let Some((field, item, types_left, parts_left)) = first_part(types, parts) {
        let (name, others) = next_name(called);
        out.key(name)?;
        put(out, style, field, item)?;
        (called, types, parts) = (others, types_left, parts_left);
    }
    out.end_object()
}

/// The index of the type that a variant holds.
fn payload_of(payloads: &[usize], index: u32) -> Option<usize>
    ensures some { IfSome result (λ place. slice_get payloads.now index ≡ Some place) }
    ensures none { result ≡ None → slice_get payloads.now index ≡ None }
{
    payloads.get(index as usize).copied()
}

/// Appends a variant: its name, or an object of its name and its payload; its index if it has no name.
#[cycle(print)]
fn put_enum(
    out: &mut Writer,
    style: &Style<'_>,
    place: usize,
    payloads: &[usize],
    value: &Value,
) -> Printed
    ensures json { AppendsOne result out.old out.new
        (ShowsEnum style.now.hex style.now.schema.now place payloads.now
        (Shows style.now.hex style.now.schema.now style.now.depth)
        (out-Value value.now)) }
    ensures before { out.new.before ≡ out.old.before }
{
    match value {
        Value::Variant(index, held) => put_variant(out, style, place, payloads, *index, held),
        _ => put_plain(out, style, value),
    }
}

/// The same by its index and what it holds.
#[cycle(print)]
fn put_variant(
    out: &mut Writer,
    style: &Style<'_>,
    place: usize,
    payloads: &[usize],
    index: u32,
    held: &Value,
) -> Printed
    ensures json { AppendsOne result out.old out.new
        (ShowsVariant style.now.schema.now
        (variant_named (names_at style.now.schema.now place) index)
        (slice_get payloads.now index) index
        (Shows style.now.hex style.now.schema.now style.now.depth) held.now) }
    ensures before { out.new.before ≡ out.old.before }
{
    let Some(name) = variant_name(style.schema, place, index) else {
        return put_u64(out, u64::from(index));
    };
    let Some(payload) = payload_of(payloads, index) else {
        return put_u64(out, u64::from(index));
    };
    if is_empty(style.schema, payload) {
        return put_text(out, name);
    }
    put_under(out, style, name, payload, held)
}

/// How values are printed.
#[derive(Clone, Copy, Drop)]
pub struct Look {
    /// Whether bytes are strings of hexadecimal digits in lower case, else arrays of numbers.
    pub hex: bool,
    /// The limit of nested nodes of a value.
    pub depth: u32,
}

/// Appends a value of the type at index `place` as JSON, as [`print`] does.
///
/// # Errors
/// Out of memory, and nothing else: what doesn't fit the type, or is nested too deeply, is written as `null`, by its index, or under
/// an empty name.
///
/// # Allocates
/// What `out` grows by. A text at a time is allocated meanwhile, and freed.
pub fn print_into(
    out: &mut Writer,
    alloc: Global,
    schema: &Schema,
    place: usize,
    look: Look,
    value: &Value,
) -> Result<(), AllocError>
    ensures json { AppendsOne result out.old out.new
        (Shows look.hex schema.now look.depth place value.now) }
    ensures before { out.new.before ≡ out.old.before }
{
    let style = Style {
        alloc,
        schema,
        hex: look.hex,
        depth: look.depth,
    };
    put(out, &style, place, value)
}

/// Returns the JSON of a value of the type at index `place`, in one line without a line feed.
///
/// It is what `serde_json` writes for the same Rust type: a variant without fields as its name, another as an object of its name and
/// its payload; a struct as an object in the order of its fields, by Rust's names; a newtype as the value inside; a tuple as an
/// array; `null` for what has no fields. Every number is exact. Bytes are an array of numbers, or with `hex` a string. A map whose
/// keys can be texts is an object. Two things differ from `serde_json`: another map is an array of pairs, which it refuses, and a
/// present optional value whose own JSON could be `null` is `{"Some": ..}`, where it writes `null` again.
///
/// # Errors
/// Out of memory, and nothing else: see [`print_into`].
///
/// # Allocates
/// The JSON. A text at a time is allocated meanwhile, and freed.
pub fn print(
    alloc: Global,
    schema: &Schema,
    place: usize,
    look: Look,
    value: &Value,
) -> Result<Vec<u8>, AllocError>
    ensures json { IfOk result
        (λ text. Prints look.hex schema.now look.depth place value.now text.items) }
{
    let mut out = Writer::new(Vec::new(alloc));
    print_into(&mut out, alloc, schema, place, look, value)?;
    Ok(out.into_inner())
}
