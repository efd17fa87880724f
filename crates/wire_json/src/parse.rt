//! Values from JSON.
ghost use Rattle.std.specs.Prelude.{◌≡◌, ◌≢◌, ◌<◌, ◌+◌, ◌*◌, ◌≤◌, ◌^◌, ◌&&◌, ℕ, List, [], ◌∷◌, true, false, IfErr, IfOk, IfSome, OnOk, None, Some, codes, length};
ghost use Rattle.json.specs.Json.{Json as Tree, value as json_value, member, no_members, object, string};
ghost use Rattle.json.specs.Value.{items_view, members_view, value_view};
ghost use Rattle.schema_table.specs.declared.node.Node.TheVariants as kind;
ghost use Rattle.schema_table.specs.Telling.{node_at};
ghost use Rattle.schema_table.specs.declared.value.Value.{Group, List as Listed};
ghost use Rattle.schema_table.specs.Integers.{type_of};
ghost use Rattle.schema_table.specs.Schemas.{AtTop, EachHas, OfGroup};
ghost use Rattle.wire_json.specs.InRange.{AreAllBytes, Fits, InRange, IsByte, IsIntegerOf};
ghost use Rattle.schema_table.specs.Looks.{HasNoFields, first_is_key, is_byte_node, is_map_named, pair_node, variant_named};
ghost use Rattle.wire_json.specs.Meant.{AreNamedOnce, AreBytes, AreBytesOf, HasMember, HasOnlyFields, HasShape, IsHex, IsIndexOf, IsInteger, IsNamed, IsOneOf, IsPresent, KeyMeans, KeyMeansPlain, Means, MeansByte, MeansBytes, MeansElements, MeansEnum, MeansField, MeansFloat, MeansHolding, MeansItems, MeansLine, MeansList, MeansMember, MeansMembers, MeansNode, MeansNumber, MeansOption, MeansPlain, MeansStruct, MeansText, MeansValue, chosen, field_json, held_json};
ghost use Rattle.wire_json.specs.Parsed.{AreOfType, IsGroupOf, IsOfEnum, IsOfLeaf, IsOfNode, IsOfStruct, IsOfType};
ghost use Rattle.wire_json.specs.Refused.{IfNone, IfWrong, IsNumberNode, IsWrong, NoneOf};

use crate::faults::{TOO_DEEP, no_json};
use crate::floats::{float_of_number, float_of_word};
use crate::wrong::{ParseError, inside, inside_element, refusal};
use hex::FromHexError;
use json::{Error, Reader, Scratch, Value as Json};
use schema_table::looks::{
    PRESENT, has_text_keys, inside_newtype, is_byte, is_empty, may_be_null, names_of, node_of,
    pair_of,
};
use schema_table::{Integer, IntegerType, Names, Node, Schema, Value};
use std::alloc::Global;
use std::str::from_utf8;

type Parsed = Result<Value, ParseError>;

/// The error for an index that the table hasn't.
const NO_TYPE: &str = "the schema has no such type";

fn boolean(json: &Json<'_>) -> Parsed
    ensures of_type { IfOk result (IsOfLeaf kind.Bool) }
    ensures means { IfOk result (AtTop (MeansPlain (value_view json.now))) }
    ensures refused { IfWrong result
        (NoneOf (InRange (IsOfLeaf kind.Bool)) (AtTop (MeansPlain (value_view json.now)))) }
{
    match json {
        Json::Bool(b) => Ok(Value::Bool(*b)),
        _ => Err(refusal("expected true or false")),
    }
}

/// A character from a string of one character.
fn character(json: &Json<'_>) -> Parsed
    ensures of_type { IfOk result (IsOfLeaf kind.Char) }
    ensures means { IfOk result (AtTop (MeansPlain (value_view json.now))) }
    ensures refused { IfWrong result
        (NoneOf (InRange (IsOfLeaf kind.Char)) (AtTop (MeansPlain (value_view json.now)))) }
{
    match json {
        Json::String(text) => char_of(text),
        _ => Err(refusal("expected a string of one character")),
    }
}

/// The only character of a text.
fn char_of(text: &str) -> Parsed
    ensures of_type { IfOk result (IsOfLeaf kind.Char) }
    ensures means { IfOk result (AtTop (MeansPlain (string text.now))) }
    ensures refused { IfWrong result
        (NoneOf (InRange (IsOfLeaf kind.Char)) (AtTop (MeansPlain (string text.now)))) }
{
    let mut characters = text.chars();
    match (characters.next(), characters.next()) {
        (Some(c), None) => Ok(Value::Char(c)),
        _ => Err(refusal("expected a string of one character")),
    }
}

/// A text.
fn text_of(alloc: Global, held: &str) -> Parsed
    ensures of_type { IfOk result (IsOfLeaf kind.Text) }
    ensures means { IfOk result (AtTop (MeansPlain (string held.now))) }
    ensures never_wrong { IfWrong result ⊥ }
{
    Ok(Value::Text(String::from_str(alloc, held)?))
}

fn text(alloc: Global, json: &Json<'_>) -> Parsed
    ensures of_type { IfOk result (IsOfLeaf kind.Text) }
    ensures means { IfOk result (AtTop (MeansPlain (value_view json.now))) }
    ensures refused { IfWrong result
        (NoneOf (InRange (IsOfLeaf kind.Text)) (AtTop (MeansPlain (value_view json.now)))) }
{
    match json {
        Json::String(held) => text_of(alloc, held),
        _ => Err(refusal("expected a string")),
    }
}

/// A text of at most `most` bytes.
fn text_up_to(alloc: Global, most: u64, held: &str) -> Parsed
    ensures of_type { IfOk result (IsOfLeaf (kind.TextUpTo most)) }
    ensures means { IfOk result (AtTop (MeansPlain (string held.now))) }
    ensures refused { IfWrong result
        (NoneOf (InRange (IsOfLeaf (kind.TextUpTo most))) (AtTop (MeansPlain (string held.now)))) }
{
    if held.len() as u64 > most {
        return Err(refusal("the string is too long"));
    }
    Ok(Value::Text(String::from_str(alloc, held)?))
}

/// The same from JSON.
fn short_text(alloc: Global, most: u64, json: &Json<'_>) -> Parsed
    ensures of_type { IfOk result (IsOfLeaf (kind.TextUpTo most)) }
    ensures means { IfOk result (AtTop (MeansPlain (value_view json.now))) }
    ensures refused { IfWrong result
        (NoneOf (InRange (IsOfLeaf (kind.TextUpTo most)))
        (AtTop (MeansPlain (value_view json.now)))) }
{
    match json {
        Json::String(held) => text_up_to(alloc, most, held),
        _ => Err(refusal("expected a string")),
    }
}

/// A byte from a number.
fn byte(json: &Json<'_>) -> Result<u8, ParseError>
    ensures means { IfOk result (MeansByte (value_view json.now)) }
    ensures refused { IfWrong result (NoneOf IsByte (MeansByte (value_view json.now))) }
{
    match json {
        Json::Number(text) => match text.parse::<u8>() {
            Ok(byte) => Ok(byte),
            Err(_) => Err(refusal("expected a number from 0 to 255")),
        },
        _ => Err(refusal("expected a byte")),
    }
}

/// Bytes from an array of numbers.
fn bytes_of_numbers(alloc: Global, elements: &[Json<'_>]) -> Result<Vec<u8>, ParseError>
    ensures means { IfOk result (λ v. MeansBytes (items_view elements.now) v.items) }
    ensures refused { IfWrong result (NoneOf AreAllBytes (MeansBytes (items_view elements.now))) }
{
    let mut bytes = Vec::new(alloc);
    for element in elements {
        match byte(element) {
            Ok(byte) => bytes.push(byte)?,
            Err(error) => return Err(inside_element(alloc, bytes.len(), error)),
        }
    }
    Ok(bytes)
}

/// Bytes from hexadecimal digits.
fn bytes_of_digits(alloc: Global, digits: &str) -> Result<Vec<u8>, ParseError>
    ensures means { IfOk result (λ v. IsHex digits.now v.items) }
    ensures refused { IfWrong result (NoneOf AreAllBytes (IsHex digits.now)) }
{
    match hex::decode(alloc, digits) {
        Ok(bytes) => Ok(bytes),
        Err(FromHexError::OutOfMemory) => Err(ParseError::OutOfMemory),
        Err(_) => Err(refusal("the string isn't hexadecimal")),
    }
}

/// Bytes from an array of numbers or from hexadecimal digits.
fn bytes_of(alloc: Global, json: &Json<'_>) -> Result<Vec<u8>, ParseError>
    ensures means { IfOk result (λ v. AreBytesOf (value_view json.now) v.items) }
    ensures refused { IfWrong result (NoneOf AreAllBytes (AreBytesOf (value_view json.now))) }
{
    match json {
        Json::Array(elements) => bytes_of_numbers(alloc, elements),
        Json::String(digits) => bytes_of_digits(alloc, digits),
        _ => Err(refusal("expected an array of bytes or a string of hexadecimal digits")),
    }
}

fn bytes(alloc: Global, json: &Json<'_>) -> Parsed
    ensures of_type { IfOk result (IsOfLeaf kind.Bytes) }
    ensures means { IfOk result (AtTop (MeansPlain (value_view json.now))) }
    ensures refused { IfWrong result
        (NoneOf (InRange (IsOfLeaf kind.Bytes)) (AtTop (MeansPlain (value_view json.now)))) }
{
    match bytes_of(alloc, json) {
        Ok(bytes) => Ok(Value::Bytes(bytes)),
        Err(error) => Err(error),
    }
}

/// An integer, if it is in the range of the type.
fn integer_of(of: IntegerType, text: &str) -> Option<Integer>
    ensures of_type { IfSome result (λ i. type_of i ≡ of) }
    ensures means { IfSome result (IsInteger text.now) }
    ensures none { IfNone result (NoneOf (IsIntegerOf of) (IsInteger text.now)) }
{
    match of {
        IntegerType::U16 => text.parse().ok().map(Integer::U16),
        IntegerType::U32 => text.parse().ok().map(Integer::U32),
        IntegerType::U64 => text.parse().ok().map(Integer::U64),
        IntegerType::U128 => text.parse().ok().map(Integer::U128),
        IntegerType::I16 => text.parse().ok().map(Integer::I16),
        IntegerType::I32 => text.parse().ok().map(Integer::I32),
        IntegerType::I64 => text.parse().ok().map(Integer::I64),
        IntegerType::I128 => text.parse().ok().map(Integer::I128),
    }
}

/// A number, if it is in the range of the type.
fn number_of(node: &Node, text: &str) -> Option<Value>
    ensures of_type { IfSome result (IsOfLeaf node.now) }
    ensures means { IfSome result (AtTop (MeansNumber text.now)) }
    ensures none { IfNone result
        (NoneOf (InRange (IsOfLeaf node.now)) (AtTop (MeansNumber text.now))) }
{
    match node {
        Node::U8 => text.parse().ok().map(Value::U8),
        Node::U16 => text.parse().ok().map(Value::U16),
        Node::U32 => text.parse().ok().map(Value::U32),
        Node::U64 => text.parse().ok().map(Value::U64),
        Node::U128 => text.parse().ok().map(Value::U128),
        Node::I8 => text.parse().ok().map(Value::I8),
        Node::I16 => text.parse().ok().map(Value::I16),
        Node::I32 => text.parse().ok().map(Value::I32),
        Node::I64 => text.parse().ok().map(Value::I64),
        Node::I128 => text.parse().ok().map(Value::I128),
        Node::LE(of) => Some(Value::LE(integer_of(*of, text)?)),
        Node::BE(of) => Some(Value::BE(integer_of(*of, text)?)),
        _ => None,
    }
}

/// The error for a number out of the range of the type.
fn range_of(node: &Node) -> &'static str {
    match node {
        Node::U8 => "expected a number from 0 to 255",
        Node::I8 => "expected a number from -128 to 127",
        Node::U16 | Node::LE(IntegerType::U16) | Node::BE(IntegerType::U16) =>
            "expected a number from 0 to 65535",
        Node::I16 | Node::LE(IntegerType::I16) | Node::BE(IntegerType::I16) =>
            "expected a number from -32768 to 32767",
        Node::U32 | Node::LE(IntegerType::U32) | Node::BE(IntegerType::U32) =>
            "expected a number from 0 to 4294967295",
        Node::I32 | Node::LE(IntegerType::I32) | Node::BE(IntegerType::I32) =>
            "expected a number from -2147483648 to 2147483647",
        Node::U64 | Node::LE(IntegerType::U64) | Node::BE(IntegerType::U64) =>
            "expected a number from 0 to 2^64 - 1",
        Node::I64 | Node::LE(IntegerType::I64) | Node::BE(IntegerType::I64) =>
            "expected a number from -2^63 to 2^63 - 1",
        Node::U128 | Node::LE(IntegerType::U128) | Node::BE(IntegerType::U128) =>
            "expected a number from 0 to 2^128 - 1",
        _ => "expected a number from -2^127 to 2^127 - 1",
    }
}

/// Whether a number has a fraction or an exponent.
fn has_fraction(text: &str) -> bool {
    text.chars().any(is_of_fraction)
}

/// Whether a character of a number begins a fraction or an exponent.
fn is_of_fraction(c: char) -> bool {
    matches!(c, '.' | 'e' | 'E')
}

fn number(node: &Node, json: &Json<'_>) -> Parsed
    ensures of_type { IfOk result (IsOfLeaf node.now) }
    ensures means { IfOk result (AtTop (MeansPlain (value_view json.now))) }
    ensures refused { IfWrong result
        (IsNumberNode node.now → NoneOf (InRange (IsOfLeaf node.now)) (AtTop
        (MeansPlain (value_view json.now)))) }
{
    let Json::Number(text) = json else {
        return Err(refusal("expected a number"));
    };
    match number_of(node, text) {
        Some(value) => Ok(value),
        None if has_fraction(text) => {
            Err(refusal("expected a number without fraction or exponent"))
        }
        None => Err(refusal(range_of(node))),
    }
}

/// The bits of a float: from a number, or from the string of one that isn't finite.
fn float(of: IntegerType, json: &Json<'_>) -> Parsed
    ensures of_type { IfOk result (IsOfLeaf (kind.LE of)) }
    ensures means { IfOk result (AtTop (MeansFloat (value_view json.now))) }
    ensures refused { IfWrong result
        (NoneOf (InRange (IsOfLeaf (kind.LE of))) (AtTop (MeansFloat (value_view json.now)))) }
{
    let bits = match json {
        Json::Number(text) => float_of_number(of, text),
        Json::String(word) => float_of_word(of, word),
        _ => return Err(refusal("expected a number")),
    };
    match bits {
        Some(bits) => Ok(Value::LE(bits)),
        None => Err(refusal(
            "the float is out of range, or the string is none of `NaN`, `Infinity`, `-Infinity`",
        )),
    }
}

/// The only member of an object.
fn only_member<'a, 'b>(json: &'b Json<'a>) -> Option<(&'a str, &'b Json<'a>)>
    ensures some { IfSome result
        (λ m. value_view json.now ≡ object (member m.0.now (value_view m.1.now) no_members)) }
    ensures none { IfNone result
        ((s : List ℕ) (j : Tree) → value_view json.now ≢ object (member s j no_members)) }
{
    let Json::Object(members) = json else {
        return None;
    };
    match members.as_slice() {
        [(name, held)] => Some((name, held)),
        _ => None,
    }
}

/// The JSON of a present optional value, which isn't `null`.
fn present<'a, 'b>(
    schema: &Schema,
    place: usize,
    json: &'b Json<'a>,
) -> Result<&'b Json<'a>, ParseError>
    ensures present { IfOk result
        (λ held. IsPresent schema.now place (value_view held.now) (value_view json.now)) }
    ensures refused { IfWrong result
        ((j : Tree) → IsPresent schema.now place j (value_view json.now) → ⊥) }
{
    if !may_be_null(schema, place) {
        return Ok(json);
    }
    if let Some((name, held)) = only_member(json)
        && name == PRESENT
    {
        return Ok(held);
    }
    Err(refusal("expected null or {\"Some\": ..}"))
}

#[cycle(parse)]
fn option(alloc: Global, schema: &Schema, place: usize, depth: u32, json: &Json<'_>) -> Parsed
    ensures of_type { IfOk result (IsOfNode depth schema.now.nodes.items (kind.Option place)) }
    ensures means { IfOk result
        (AtTop (MeansOption schema.now place (MeansValue schema.now depth place) (value_view
        json.now))) }
    ensures refused { IfWrong result
        (NoneOf (InRange (IsOfNode depth schema.now.nodes.items (kind.Option place))) (AtTop
        (MeansOption schema.now place (MeansValue schema.now depth place) (value_view
        json.now)))) }
{
    if json.is_null() {
        return Ok(Value::Absent);
    }
    let held = present(schema, place, json)?;
    let held = value(alloc, schema, place, depth, held)?;
    Ok(Value::Present(Box::new(alloc, held)?))
}

/// Values of one type.
#[cycle(parse)]
fn items(
    alloc: Global,
    schema: &Schema,
    place: usize,
    depth: u32,
    elements: &[Json<'_>],
) -> Result<Vec<Value>, ParseError>
    ensures of_type { IfOk result (λ v. AreOfType depth schema.now.nodes.items place v.items) }
    ensures means { IfOk result
        (λ v. MeansItems (MeansValue schema.now depth place) (items_view elements.now) v.items) }
    ensures refused { IfWrong result
        (NoneOf (EachHas (Fits schema.now depth place)) (MeansItems (MeansValue schema.now depth
        place) (items_view elements.now))) }
{
    let mut items = Vec::new(alloc);
    for element in elements {
        match value(alloc, schema, place, depth, element) {
            Ok(item) => items.push(item)?,
            Err(error) => return Err(inside_element(alloc, items.len(), error)),
        }
    }
    Ok(items)
}

/// Bytes as values.
fn byte_values(alloc: Global, bytes: &[u8]) -> Result<Vec<Value>, ParseError>
    ensures of_type { IfOk result (λ v. EachHas (IsOfLeaf kind.U8) v.items) }
    ensures means { IfOk result (λ v. AreBytes bytes.now v.items) }
    ensures never_wrong { IfWrong result ⊥ }
{
    let mut items = Vec::new(alloc);
    for byte in bytes {
        items.push(Value::U8(*byte))?;
    }
    Ok(items)
}

/// Bytes as values, from hexadecimal digits.
fn byte_values_of_digits(
    alloc: Global,
    schema: &Schema,
    place: usize,
    depth: u32,
    digits: &str,
) -> Result<Vec<Value>, ParseError>
    ensures of_type { is_byte_node (node_at schema.now place) ≡ true
        → IfOk result (λ v. AreOfType depth schema.now.nodes.items place v.items) }
    ensures means { IfOk result
        (λ v. (bs : List ℕ) × IsHex digits.now bs × AreBytes bs v.items) }
    ensures refused { IfWrong result
        (NoneOf (EachHas (Fits schema.now depth place))
        (λ vs. (bs : List ℕ) × IsHex digits.now bs × AreBytes bs vs)) }
{
    if depth == 0 && !digits.is_empty() {
        return Err(refusal(TOO_DEEP));
    }
    let bytes = bytes_of_digits(alloc, digits)?;
    byte_values(alloc, &bytes)
}

/// What the JSON of a list has to be, for the error.
fn no_list(schema: &Schema, names: &Names, place: usize) -> &'static str {
    match names {
        Names::Map => "expected an object or an array of pairs",
        _ if is_byte(schema, place) => {
            "expected an array of bytes or a string of hexadecimal digits"
        }
        _ => "expected an array",
    }
}

/// Values of one type: from an array, or from hexadecimal digits if the type is `u8`.
#[cycle(parse)]
fn elements(
    alloc: Global,
    schema: &Schema,
    names: &Names,
    place: usize,
    depth: u32,
    json: &Json<'_>,
) -> Result<Vec<Value>, ParseError>
    ensures of_type { IfOk result (λ v. AreOfType depth schema.now.nodes.items place v.items) }
    ensures means { IfOk result
        (λ v. MeansElements (node_at schema.now place) (MeansValue schema.now depth place)
        (value_view json.now) v.items) }
    ensures refused { IfWrong result
        (NoneOf (EachHas (Fits schema.now depth place)) (MeansElements (node_at schema.now place)
        (MeansValue schema.now depth place) (value_view json.now))) }
{
    match json {
        Json::Array(elements) => items(alloc, schema, place, depth, elements),
        Json::String(digits) if is_byte(schema, place) => {
            byte_values_of_digits(alloc, schema, place, depth, digits)
        }
        _ => Err(refusal(no_list(schema, names, place))),
    }
}

/// A boolean from a key.
fn truth_of(key: &str) -> Parsed
    ensures of_type { IfOk result (IsOfLeaf kind.Bool) }
    ensures means { IfOk result (AtTop (KeyMeansPlain key.now)) }
    ensures refused { IfWrong result
        (NoneOf (InRange (IsOfLeaf kind.Bool)) (AtTop (KeyMeansPlain key.now))) }
{
    match key {
        "true" => Ok(Value::Bool(true)),
        "false" => Ok(Value::Bool(false)),
        _ => Err(refusal("the key is neither true nor false")),
    }
}

/// A number from a key.
fn number_key(node: &Node, key: &str) -> Parsed
    ensures of_type { IfOk result (IsOfLeaf node.now) }
    ensures means { IfOk result (AtTop (MeansNumber key.now)) }
    ensures refused { IfWrong result
        (NoneOf (InRange (IsOfLeaf node.now)) (AtTop (MeansNumber key.now))) }
{
    match number_of(node, key) {
        Some(value) => Ok(value),
        None => Err(refusal(range_of(node))),
    }
}

/// A value from a key, newtypes and enums apart.
fn plain_key(alloc: Global, node: &Node, key: &str) -> Parsed
    ensures of_type { IfOk result (IsOfLeaf node.now) }
    ensures means { IfOk result (AtTop (KeyMeansPlain key.now)) }
    ensures refused { IfWrong result
        (NoneOf (InRange (IsOfLeaf node.now)) (AtTop (KeyMeansPlain key.now))) }
{
    match node {
        Node::Bool => truth_of(key),
        Node::Char => char_of(key),
        Node::Text => text_of(alloc, key),
        Node::TextUpTo(most) => text_up_to(alloc, *most, key),
        _ => number_key(node, key),
    }
}

/// A struct without fields.
fn no_fields(alloc: Global, schema: &Schema, place: usize, depth: u32) -> Parsed
    ensures of_type { IfOk result (IsOfType depth schema.now.nodes.items place) }
    ensures none { IfOk result (λ v. HasNoFields (node_at schema.now place)) }
    ensures refused { IfWrong result
        (NoneOf (Fits schema.now depth place) (λ v. HasNoFields (node_at schema.now place))) }
{
    if depth == 0 {
        return Err(refusal(TOO_DEEP));
    }
    match node_of(schema, place) {
        Some(Node::Struct(fields)) if fields.is_empty() => Ok(Value::Group(Vec::new(alloc))),
        _ => Err(refusal(NO_TYPE)),
    }
}

/// A variant without fields from a key.
fn variant_key(
    alloc: Global,
    schema: &Schema,
    names: &Names,
    payloads: &[usize],
    depth: u32,
    key: &str,
) -> Parsed
    ensures of_type { IfOk result (IsOfEnum depth schema.now.nodes.items payloads.now) }
    ensures means { IfOk result
        (AtTop (IsNamed schema.now (Some names.now) payloads.now key.now)) }
    ensures refused { IfWrong result
        (NoneOf (InRange (IsOfEnum depth schema.now.nodes.items payloads.now)) (AtTop
        (IsNamed schema.now (Some names.now) payloads.now key.now))) }
{
    let Some(index) = index_of(names, key) else {
        return Err(refusal("the type has no such variant"));
    };
    if index as usize >= payloads.len() {
        return Err(refusal(NO_TYPE));
    }
    let held = no_fields(alloc, schema, payloads[index as usize], depth)?;
    Ok(Value::Variant(index, Box::new(alloc, held)?))
}

/// The key of a map from a member's name.
fn key_of(alloc: Global, schema: &Schema, place: usize, depth: u32, key: &str) -> Parsed
    ensures of_type { IfOk result (IsOfType depth schema.now.nodes.items place) }
    ensures means { IfOk result (KeyMeans schema.now depth place key.now) }
    ensures refused { IfWrong result
        (NoneOf (Fits schema.now depth place) (KeyMeans schema.now depth place key.now)) }
{
    if depth == 0 {
        return Err(refusal(TOO_DEEP));
    }
    if let Some(only) = inside_newtype(schema, place) {
        let held = key_of(alloc, schema, only, depth - 1, key)?;
        return one_part(alloc, held);
    }
    let Some(node) = node_of(schema, place) else {
        return Err(refusal(NO_TYPE));
    };
    let Some(names) = names_of(schema, place) else {
        return Err(refusal(NO_TYPE));
    };
    match node {
        Node::Enum(payloads) => variant_key(alloc, schema, names, payloads, depth - 1, key),
        _ => plain_key(alloc, node, key),
    }
}

/// A struct of one field.
fn one_part(alloc: Global, held: Value) -> Parsed
    ensures group { IfOk result (IsGroupOf (held ∷ [])) }
    ensures never_wrong { IfWrong result ⊥ }
{
    let mut parts = Vec::new(alloc);
    parts.push(held)?;
    Ok(Value::Group(parts))
}

/// A pair.
fn two_parts(alloc: Global, first: Value, second: Value) -> Parsed
    ensures group { IfOk result (IsGroupOf (first ∷ second ∷ [])) }
    ensures never_wrong { IfWrong result ⊥ }
{
    let mut parts = Vec::new(alloc);
    parts.push(first)?;
    parts.push(second)?;
    Ok(Value::Group(parts))
}

/// A pair of the type at index `place` from a member: its name and its value.
#[cycle(parse)]
fn member(
    alloc: Global,
    schema: &Schema,
    place: usize,
    depth: u32,
    key: &str,
    json: &Json<'_>,
) -> Parsed
    ensures of_type { IfOk result (IsOfType depth schema.now.nodes.items place) }
    ensures means { IfOk result (MeansMember schema.now depth place key.now (value_view json.now)) }
    ensures refused { IfWrong result
        (NoneOf (Fits schema.now depth place) (MeansMember schema.now depth place key.now
        (value_view json.now))) }
{
    if depth == 0 {
        return Err(refusal(TOO_DEEP));
    }
    let Some((first, second)) = pair_of(schema, place) else {
        return Err(refusal(NO_TYPE));
    };
    let key = key_of(alloc, schema, first, depth - 1, key)?;
    let held = value(alloc, schema, second, depth - 1, json)?;
    two_parts(alloc, key, held)
}

/// The pairs of a map from an object.
#[cycle(parse)]
fn pairs(
    alloc: Global,
    schema: &Schema,
    place: usize,
    depth: u32,
    members: &[(&str, Json<'_>)],
) -> Result<Vec<Value>, ParseError>
    ensures of_type { IfOk result (λ v. AreOfType depth schema.now.nodes.items place v.items) }
    ensures means { IfOk result
        (λ v. MeansMembers (MeansMember schema.now depth place) (members_view members.now)
        v.items) }
    ensures refused { IfWrong result
        (NoneOf (EachHas (Fits schema.now depth place)) (MeansMembers (MeansMember schema.now depth
        place) (members_view members.now))) }
{
    let mut items = Vec::new(alloc);
    for (key, json) in members {
        match member(alloc, schema, place, depth, key, json) {
            Ok(item) => items.push(item)?,
            Err(error) => return Err(inside(alloc, key, error)),
        }
    }
    Ok(items)
}

/// Values of one type: from an object if they are the pairs of a map whose keys can be texts, else as `elements` does.
#[cycle(parse)]
fn list(
    alloc: Global,
    schema: &Schema,
    names: &Names,
    place: usize,
    depth: u32,
    json: &Json<'_>,
) -> Result<Vec<Value>, ParseError>
    ensures of_type { IfOk result (λ v. AreOfType depth schema.now.nodes.items place v.items) }
    ensures means { IfOk result (λ v. MeansList (is_map_named (Some names.now)
        && first_is_key schema.now (pair_node (node_at schema.now place)))
        (node_at schema.now place) (MeansValue schema.now depth place) (MeansMember schema.now depth
        place) (value_view json.now) v.items) }
    ensures refused { IfWrong result (NoneOf (EachHas (Fits schema.now depth place))
        (MeansList (is_map_named (Some names.now)
        && first_is_key schema.now (pair_node (node_at schema.now place)))
        (node_at schema.now place) (MeansValue schema.now depth place) (MeansMember schema.now depth
        place) (value_view json.now))) }
{
    match (names, json) {
        (Names::Map, Json::Object(members)) if has_text_keys(schema, place) => {
            pairs(alloc, schema, place, depth, members)
        }
        _ => elements(alloc, schema, names, place, depth, json),
    }
}

/// A list of at most `most` elements.
fn list_up_to(most: u64, items: Vec<Value>) -> Parsed
    ensures short { IfOk result (λ v. (v ≡ Listed items) × (length items.items ≤ most)) }
    ensures refused { IfWrong result (most < length items.items) }
{
    if items.len() as u64 > most {
        return Err(refusal("the list has more elements than the type allows"));
    }
    Ok(Value::List(items))
}

/// An array of `count` elements.
fn array(count: u64, items: Vec<Value>) -> Parsed
    ensures counted { IfOk result (λ v. (v ≡ Group items) × (length items.items ≡ count)) }
    ensures refused { IfWrong result (length items.items ≢ count) }
{
    if items.len() as u64 != count {
        return Err(refusal("the array has another length than the type's"));
    }
    Ok(Value::Group(items))
}

/// The JSON of field `i`.
fn part<'a, 'b>(names: &Names, i: usize, json: &'b Json<'a>) -> Result<&'b Json<'a>, &'static str>
    ensures held { IfOk result
        (λ held. field_json names.now i (value_view json.now) ≡ Some (value_view held.now)) }
    ensures refused { IfErr result (λ why. field_json names.now i (value_view json.now) ≡ None) }
{
    match names {
        Names::Newtype => Ok(json),
        Names::Tuple => json.at(i).ok_or(NO_TYPE),
        Names::Fields(names) => match names.get(i) {
            Some(name) => json.get(name.as_str()).ok_or("a field is missing"),
            None => Err(NO_TYPE),
        },
        _ => Err(NO_TYPE),
    }
}

/// Why this isn't the JSON of a struct of `count` fields, whatever these are.
fn misfit(names: &Names, count: usize, json: &Json<'_>) -> Option<&'static str>
    ensures fits { IfNone result (HasShape names.now count (value_view json.now)) }
    ensures misfits { IfSome result
        (λ why. HasShape names.now count (value_view json.now) → ⊥) }
{
    match (names, json) {
        (Names::Newtype, _) => None,
        (Names::Unit | Names::Empty, Json::Null) => None,
        (Names::Tuple, Json::Array(elements)) if elements.len() == count => None,
        (Names::Fields(_), Json::Object(members)) if count > 0 || members.is_empty() => None,
        _ if count == 0 => Some("expected a struct without fields"),
        (Names::Tuple, _) => Some("expected an array with as many elements as the tuple has"),
        (Names::Fields(_), _) => Some("expected an object with the fields"),
        _ => Some(NO_TYPE),
    }
}

/// The name of a field; empty if it has none.
fn field_name(names: &Names, i: usize) -> &str {
    match names {
        Names::Fields(names) => match names.get(i) {
            Some(name) => name.as_str(),
            None => "",
        },
        _ => "",
    }
}

/// An error with the field where it is.
fn inside_field(alloc: Global, names: &Names, i: usize, error: ParseError) -> ParseError
    ensures { IsWrong result → IsWrong error }
{
    match names {
        Names::Newtype => error,
        Names::Tuple => inside_element(alloc, i, error),
        _ => inside(alloc, field_name(names, i), error),
    }
}

/// Whether `wanted` is one of these names.
fn has_name(names: &[String], wanted: &str) -> bool
    ensures found { result ≡ true → IsOneOf wanted.now names.now }
    ensures absent { result ≡ false → IsOneOf wanted.now names.now → ⊥ }
{
    for name in names {
        if name.as_str() == wanted {
            return true;
        }
    }
    false
}

/// Whether a member has this name.
fn has_member(members: &[(&str, Json<'_>)], wanted: &str) -> bool
    ensures found { result ≡ true → HasMember wanted.now (members_view members.now) }
    ensures absent { result ≡ false → HasMember wanted.now (members_view members.now) → ⊥ }
{
    for (name, _) in members {
        if *name == wanted {
            return true;
        }
    }
    false
}

/// The first name that appears twice.
fn doubled<'a>(members: &[(&'a str, Json<'a>)]) -> Option<&'a str>
    ensures some { IfSome result (λ s. AreNamedOnce (members_view members.now) → ⊥) }
    ensures none { IfNone result (AreNamedOnce (members_view members.now)) }
{
    let mut rest = members;
    for _ in 0..members.len() {
        let [(name, _), behind @ ..] = rest else {
            return None;
        };
        if has_member(behind, name) {
            return Some(name);
        }
        rest = behind;
    }
    None
}

/// Refuses a member that is none of the fields, or that appears twice.
fn check_members(alloc: Global, names: &Names, json: &Json<'_>) -> Result<(), ParseError>
    ensures known { OnOk result (HasOnlyFields names.now (value_view json.now)) }
    ensures refused { IfWrong result (HasOnlyFields names.now (value_view json.now) → ⊥) }
{
    let (Names::Fields(names), Json::Object(members)) = (names, json) else {
        return Ok(());
    };
    if members.len() == names.len() {
        return Ok(());
    }
    for (key, _) in members {
        if !has_name(names, key) {
            return Err(inside(alloc, key, refusal("the type has no such field")));
        }
    }
    match doubled(members) {
        Some(name) => Err(inside(alloc, name, refusal("the field appears twice"))),
        None => Ok(()),
    }
}

/// A struct or a tuple.
#[cycle(parse)]
fn group(
    alloc: Global,
    schema: &Schema,
    names: &Names,
    fields: &[usize],
    depth: u32,
    json: &Json<'_>,
) -> Parsed
    ensures of_type { IfOk result (IsOfStruct depth schema.now.nodes.items fields.now) }
    ensures means { IfOk result
        (AtTop (OfGroup (MeansStruct (Some names.now) fields.now (MeansValue schema.now depth)
        (value_view json.now)))) }
    ensures refused { IfWrong result
        (NoneOf (InRange (IsOfStruct depth schema.now.nodes.items fields.now)) (AtTop (OfGroup
        (MeansStruct (Some names.now) fields.now (MeansValue schema.now depth) (value_view
        json.now))))) }
{
    if let Some(why) = misfit(names, fields.len(), json) {
        return Err(refusal(why));
    }
    let mut items = Vec::new(alloc);
    for place in fields {
        match field(alloc, schema, names, items.len(), *place, depth, json) {
            Ok(item) => items.push(item)?,
            Err(error) => return Err(inside_field(alloc, names, items.len(), error)),
        }
    }
    check_members(alloc, names, json)?;
    Ok(Value::Group(items))
}

/// The value of field `i`.
#[cycle(parse)]
fn field(
    alloc: Global,
    schema: &Schema,
    names: &Names,
    i: usize,
    place: usize,
    depth: u32,
    json: &Json<'_>,
) -> Parsed
    ensures of_type { IfOk result (IsOfType depth schema.now.nodes.items place) }
    ensures means { IfOk result
        (MeansField names.now (value_view json.now) (MeansValue schema.now depth place) i) }
    ensures refused { IfWrong result
        (NoneOf (Fits schema.now depth place) (MeansField names.now (value_view json.now)
        (MeansValue schema.now depth place) i)) }
{
    match part(names, i, json) {
        Ok(held) => value(alloc, schema, place, depth, held),
        Err(why) => Err(refusal(why)),
    }
}

/// The name of a variant, and the JSON of its payload, if there is any.
fn choice<'a, 'b>(json: &'b Json<'a>) -> Option<(&'a str, Option<&'b Json<'a>>)>
    ensures some { IfSome result
        (λ c. chosen (value_view json.now) ≡ Some (c.0.now, held_json c.1)) }
    ensures none { IfNone result (chosen (value_view json.now) ≡ None) }
{
    if let Json::String(name) = json {
        return Some((name, None));
    }
    match only_member(json) {
        Some((name, held)) => Some((name, Some(held))),
        None => None,
    }
}

/// The index of the variant with this name.
fn index_of(names: &Names, wanted: &str) -> Option<u32>
    ensures some { IfSome result (IsIndexOf (Some names.now) wanted.now) }
    ensures none { IfNone result
        ((n : ℕ) → n < 2 ^ 32 → variant_named (Some names.now) n ≢ Some wanted.now) }
{
    let Names::Variants(names) = names else {
        return None;
    };
    let mut index: u32 = 0;
    for name in names {
        if name.as_str() == wanted {
            return Some(index);
        }
        index = index.checked_add(1)?;
    }
    None
}

#[cycle(parse)]
fn variant(
    alloc: Global,
    schema: &Schema,
    names: &Names,
    payloads: &[usize],
    depth: u32,
    json: &Json<'_>,
) -> Parsed
    ensures of_type { IfOk result (IsOfEnum depth schema.now.nodes.items payloads.now) }
    ensures means { IfOk result
        (AtTop (MeansEnum schema.now (Some names.now) payloads.now (MeansValue schema.now depth)
        (chosen (value_view json.now)))) }
    ensures refused { IfWrong result
        (NoneOf (InRange (IsOfEnum depth schema.now.nodes.items payloads.now)) (AtTop
        (MeansEnum schema.now (Some names.now) payloads.now (MeansValue schema.now depth) (chosen
        (value_view json.now))))) }
{
    let Some((name, held)) = choice(json) else {
        return Err(refusal("expected a variant"));
    };
    let Some(index) = index_of(names, name) else {
        return Err(inside(alloc, name, refusal("the type has no such variant")));
    };
    if index as usize >= payloads.len() {
        return Err(refusal(NO_TYPE));
    }
    match payload(alloc, schema, payloads[index as usize], depth, held) {
        Ok(held) => Ok(Value::Variant(index, Box::new(alloc, held)?)),
        Err(error) => Err(inside(alloc, name, error)),
    }
}

/// The payload of a variant; without fields it has no JSON, or `null`.
#[cycle(parse)]
fn payload(
    alloc: Global,
    schema: &Schema,
    place: usize,
    depth: u32,
    held: Option<&Json<'_>>,
) -> Parsed
    ensures of_type { IfOk result (IsOfType depth schema.now.nodes.items place) }
    ensures means { IfOk result
        (MeansHolding schema.now (MeansValue schema.now depth) place (held_json held.entry)) }
    ensures refused { IfWrong result
        (NoneOf (Fits schema.now depth place) (MeansHolding schema.now (MeansValue schema.now depth)
        place (held_json held.entry))) }
{
    let is_empty = is_empty(schema, place);
    match held {
        None if is_empty => value(alloc, schema, place, depth, &Json::Null),
        None => Err(refusal("the variant has fields: expected an object with its name as the key")),
        Some(json) if is_empty && !json.is_null() => {
            Err(refusal("the variant has no fields: expected its name alone"))
        }
        Some(json) => value(alloc, schema, place, depth, json),
    }
}

/// A value of a node, with the names of its parts.
#[cycle(parse)]
fn of_node(
    alloc: Global,
    schema: &Schema,
    names: &Names,
    node: &Node,
    depth: u32,
    json: &Json<'_>,
) -> Parsed
    ensures of_type { IfOk result (IsOfNode depth schema.now.nodes.items node.now) }
    ensures means { IfOk result
        (AtTop (MeansNode schema.now (Some names.now) (Means schema.now depth) (Some node.now)
        (value_view json.now))) }
    ensures refused { IfWrong result
        (NoneOf (InRange (IsOfNode depth schema.now.nodes.items node.now)) (AtTop
        (MeansNode schema.now (Some names.now) (Means schema.now depth) (Some node.now) (value_view
        json.now)))) }
{
    match node {
        Node::Bool => boolean(json),
        Node::Char => character(json),
        Node::Text => text(alloc, json),
        Node::TextUpTo(most) => short_text(alloc, *most, json),
        Node::Bytes => bytes(alloc, json),
        Node::Option(inner) => option(alloc, schema, *inner, depth, json),
        Node::List(inner) => Ok(Value::List(list(alloc, schema, names, *inner, depth, json)?)),
        Node::ListUpTo(most, inner) => {
            list_up_to(*most, list(alloc, schema, names, *inner, depth, json)?)
        }
        Node::Array(count, inner) => {
            array(*count, elements(alloc, schema, names, *inner, depth, json)?)
        }
        Node::Struct(fields) => group(alloc, schema, names, fields, depth, json),
        Node::Enum(payloads) => variant(alloc, schema, names, payloads, depth, json),
        Node::LE(of) if matches!(names, Names::Float) => float(*of, json),
        _ => number(node, json),
    }
}

/// The value of the type at index `place`, with at most `depth` nested nodes.
#[cycle(parse)]
fn value(alloc: Global, schema: &Schema, place: usize, depth: u32, json: &Json<'_>) -> Parsed
    ensures of_type { IfOk result (IsOfType depth schema.now.nodes.items place) }
    ensures means { IfOk result (MeansValue schema.now depth place (value_view json.now)) }
    ensures refused { IfWrong result
        (NoneOf (Fits schema.now depth place) (MeansValue schema.now depth place (value_view
        json.now))) }
{
    if depth == 0 {
        return Err(refusal(TOO_DEEP));
    }
    let Some(node) = node_of(schema, place) else {
        return Err(refusal(NO_TYPE));
    };
    let Some(names) = names_of(schema, place) else {
        return Err(refusal(NO_TYPE));
    };
    of_node(alloc, schema, names, node, depth - 1, json)
}

/// The value of an object whose only member is `value`.
fn value_in<'a, 'b>(json: &'b Json<'a>) -> Option<&'b Json<'a>>
    ensures some { IfSome result
        (λ held. value_view json.now ≡ object (member (codes "value") (value_view held.now)
        no_members)) }
    ensures none { IfNone result
        ((j : Tree) → value_view json.now ≢ object (member (codes "value") j no_members)) }
{
    match only_member(json) {
        Some((name, held)) if name == "value" => Some(held),
        _ => None,
    }
}

/// A value by itself, or as `{"value": ..}`; if the line could be both it is the latter.
fn value_of_line(
    alloc: Global,
    schema: &Schema,
    place: usize,
    depth: u32,
    json: &Json<'_>,
) -> Parsed
    ensures of_type { IfOk result (IsOfType depth schema.now.nodes.items place) }
    ensures means { IfOk result (MeansLine schema.now depth place (value_view json.now)) }
    ensures refused { IfWrong result
        (NoneOf (Fits schema.now depth place) (MeansLine schema.now depth place (value_view
        json.now))) }
{
    let Some(held) = value_in(json) else {
        return value(alloc, schema, place, depth, json);
    };
    match value(alloc, schema, place, depth, held) {
        Err(ParseError::Wrong(why)) => match value(alloc, schema, place, depth, json) {
            Err(ParseError::Wrong(_)) => Err(ParseError::Wrong(why)),
            whole => whole,
        },
        read => read,
    }
}

/// How deep the JSON of a value with at most `depth` nested nodes can nest: each node has up to two brackets, and the line one.
fn json_depth(depth: u32) -> usize
    ensures { result ≡ 2 * depth + 2 }
{
    (depth as usize).saturating_mul(2).saturating_add(2)
}

/// The JSON of a text, or `None` if it isn't JSON, or nests too deeply.
fn json_of<'a>(
    alloc: Global,
    depth: u32,
    reader: &mut Reader<'a>,
) -> Result<Option<Json<'a>>, ParseError>
    ensures some { IfOk result
        (λ o. IfSome o
        (λ json. json_value (2 * depth + 2) reader.old ≡ Some (value_view json, []))) }
    ensures none { IfOk result
        (λ o. IfNone o
        ((j : Tree) → json_value (2 * depth + 2) reader.old ≢ Some (j, []))) }
    ensures never_wrong { IfWrong result ⊥ }
{
    match Json::read(alloc, reader, json_depth(depth)) {
        Ok(json) if reader.next().is_none() => Ok(Some(json)),
        Err(Error::OutOfMemory) => Err(ParseError::OutOfMemory),
        _ => Ok(None),
    }
}

/// The value that a text contains, as the text says it.
fn value_of_text(alloc: Global, schema: &Schema, place: usize, depth: u32, text: &str) -> Parsed
    ensures of_type { IfOk result (IsOfType depth schema.now.nodes.items place) }
    ensures means { IfOk result (MeansText schema.now depth place text.now) }
    ensures refused { IfWrong result
        (NoneOf (Fits schema.now depth place) (MeansText schema.now depth place text.now)) }
{
    let mut scratch = Scratch::new(alloc);
    let mut reader = Reader::new(text, &mut scratch)?;
    match json_of(alloc, depth, &mut reader) {
        Ok(Some(json)) => value_of_line(alloc, schema, place, depth, &json),
        Ok(None) => Err(no_json(alloc, json_depth(depth), text)),
        Err(error) => Err(error),
    }
}

/// Returns the value of the type at index `place` that a line of JSON contains, with at most `depth` nested nodes.
///
/// The line is a value as `print` of `wire_print` writes it, or `{"value": ..}`. The fields of a struct can have any order.
/// Bytes can be an array or a string of hexadecimal digits, a map whose keys can be texts an object or an array of pairs, and a
/// variant without fields its name or an object with `null`.
///
/// # Errors
/// - `Wrong`: the line isn't UTF-8 or JSON, or isn't of the type, such as a number out of range, an unknown, repeated or missing
///   field, or another number of elements; no value of the type is meant then (`refused`). It has the path to the fault.
/// - `OutOfMemory`.
///
/// # Allocates
/// The line's JSON, which is freed, and the value; of a fault its path.
pub fn parse(alloc: Global, schema: &Schema, place: usize, depth: u32, line: &[u8]) -> Parsed
    ensures of_type { IfOk result (IsOfType depth schema.now.nodes.items place) }
    ensures means { IfOk result (MeansText schema.now depth place line.now) }
    ensures refused { IfWrong result
        (NoneOf (Fits schema.now depth place) (MeansText schema.now depth place line.now)) }
{
    let Ok(text) = from_utf8(line) else {
        return Err(refusal("the line isn't UTF-8"));
    };
    value_of_text(alloc, schema, place, depth, text)
}
