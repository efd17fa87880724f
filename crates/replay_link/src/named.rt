//! The types of a link's values, by their names.
use arrayvec::{ArrayString, ArrayVec};
use example_by_hand::DataEnum;
use postcard::de_flavors::Bytes;
use postcard::fixint::LE;
use postcard::{Deserialize, DeserializeOwned, Exact, Serialize};
use replay::Shown;
use std::collections::BTreeMap;

/// What is asked of a type, once its name was read. Values are read from bytes of the kind `B`, which may lie in the room
/// that is reported.
pub(crate) trait Asks<B: Bytes, R>: Drop {
    /// What is answered.
    type Answer;

    /// Asks a type.
    fn ask<T: Serialize + Deserialize<B> + DeserializeOwned + Shown>(self, room: R) -> Self::Answer;

    /// Asks a type whose values write the tree that they were read from.
    fn ask_exact<T: Exact + Deserialize<B> + DeserializeOwned + Shown>(
        self,
        room: R,
    ) -> Self::Answer;

    /// Asks a type that isn't one of these.
    fn ask_other(self, name: &str, room: R) -> Self::Answer;
}

/// Asks the type of a name.
pub(crate) fn ask_named<B: Bytes, R, A: Asks<B, R>>(name: &str, asks: A, room: R) -> A::Answer {
    match name {
        "bool" => asks.ask_exact::<bool>(room),
        "u8" => asks.ask_exact::<u8>(room),
        "u16" => asks.ask_exact::<u16>(room),
        "u32" => asks.ask_exact::<u32>(room),
        "u64" => asks.ask_exact::<u64>(room),
        "i16" => asks.ask_exact::<i16>(room),
        "i64" => asks.ask_exact::<i64>(room),
        "char" => asks.ask_exact::<char>(room),
        "()" => asks.ask_exact::<()>(room),
        "LE<u16>" => asks.ask_exact::<LE<u16>>(room),
        _ => ask_composed(name, asks, room),
    }
}

/// Asks a type that has parts.
fn ask_composed<B: Bytes, R, A: Asks<B, R>>(name: &str, asks: A, room: R) -> A::Answer {
    match name {
        "String" => asks.ask_exact::<String>(room),
        "ArrayString<4>" => asks.ask_exact::<ArrayString<4>>(room),
        "Vec<u8>" => asks.ask_exact::<Vec<u8>>(room),
        "Vec<u16>" => asks.ask_exact::<Vec<u16>>(room),
        "ArrayVec<u8,2>" => asks.ask_exact::<ArrayVec<u8, 2>>(room),
        "[u8;3]" => asks.ask_exact::<[u8; 3]>(room),
        "(u8,u8)" => asks.ask_exact::<(u8, u8)>(room),
        "(u8,u32,String)" => asks.ask_exact::<(u8, u32, String)>(room),
        "Option<u16>" => asks.ask_exact::<Option<u16>>(room),
        "Result<u8,u16>" => asks.ask_exact::<Result<u8, u16>>(room),
        "DataEnum" => asks.ask_exact::<DataEnum>(room),
        "BTreeMap<u8,u8>" => asks.ask::<BTreeMap<u8, u8>>(room),
        _ => asks.ask_other(name, room),
    }
}
