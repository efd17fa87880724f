//! The maximum sizes of types.
use arrayvec::{ArrayString, ArrayVec};
use postcard::experimental::max_size::MaxSize;
use replay::{Findings, Trouble, Words};
use std::alloc::Global;
use std::marker::PhantomData;
use std::num::{
    NonZeroI8, NonZeroI16, NonZeroI32, NonZeroI64, NonZeroI128, NonZeroIsize, NonZeroU8,
    NonZeroU16, NonZeroU32, NonZeroU64, NonZeroU128, NonZeroUsize, Wrapping,
};
use std::ops::{Range, RangeFrom, RangeInclusive, RangeTo};
use std::rc::Rc;
use std::time::Duration;

/// `TYPE SIZE`: the maximum size of a type.
pub(crate) fn replay_size(
    alloc: Global,
    words: &mut Words<'_>,
    findings: &mut Findings,
) -> Result<(), Trouble> {
    let size = greatest(words.next()?).ok_or(Trouble::Unreadable)?;
    let wanted = words.next()?;
    words.end()?;
    findings.check("postcard_max_size", size_text(alloc, size), wanted)
}

/// A size, if there is one, in the words of a line.
fn size_text(alloc: Global, size: Option<usize>) -> Result<String, Trouble> {
    let text = match size {
        Some(size) => format!(in alloc; "{size}"),
        None => String::from_str(alloc, "none"),
    };
    Ok(text?)
}

/// A type's name, and its maximum size.
type Row = (&'static str, Option<usize>);

/// The row of a type.
fn row<T: MaxSize>(name: &'static str) -> Row {
    (name, T::postcard_max_size())
}

/// The maximum size of the type of a name, if there is such a type.
fn greatest(name: &str) -> Option<Option<usize>> {
    size_in(name, &numbers())
        .or(size_in(name, &parts()))
        .or(size_in(name, &others()))
        .or(size_in(name, &nonzero()))
        .or(size_in(name, &fixed()))
}

/// The size in the row of a name.
fn size_in(name: &str, rows: &[Row]) -> Option<Option<usize>> {
    for (known, size) in rows {
        if *known == name {
            return Some(*size);
        }
    }
    None
}

/// The rows of numbers, a character and nothing.
fn numbers() -> [Row; 15] {
    [
        row::<bool>("bool"),
        row::<u8>("u8"),
        row::<i8>("i8"),
        row::<u16>("u16"),
        row::<i16>("i16"),
        row::<u32>("u32"),
        row::<i32>("i32"),
        row::<u64>("u64"),
        row::<i64>("i64"),
        row::<usize>("usize"),
        row::<isize>("isize"),
        row::<u128>("u128"),
        row::<i128>("i128"),
        row::<char>("char"),
        row::<()>("()"),
    ]
}

/// The rows of types that have parts.
fn parts() -> [Row; 13] {
    [
        row::<Option<u8>>("Option<u8>"),
        row::<Option<Option<u64>>>("Option<Option<u64>>"),
        row::<Result<u8, u16>>("Result<u8,u16>"),
        row::<Result<u32, ()>>("Result<u32,()>"),
        row::<[u16; 3]>("[u16;3]"),
        row::<[u8; 0]>("[u8;0]"),
        row::<(u8,)>("(u8,)"),
        row::<(u8, u16)>("(u8,u16)"),
        row::<(u128, [u8; 8])>("(u128,[u8;8])"),
        row::<(u8, u16, u32)>("(u8,u16,u32)"),
        row::<(i8, u16, i32, u64)>("(i8,u16,i32,u64)"),
        row::<(u16, u8, u128, u64, u32)>("(u16,u8,u128,u64,u32)"),
        row::<(i8, u16, i32, u64, i128, bool)>("(i8,u16,i32,u64,i128,bool)"),
    ]
}

/// The rows of types that hold or mark another one, and of spans.
fn others() -> [Row; 10] {
    [
        row::<Box<(u128, [u8; 8])>>("Box<(u128,[u8;8])>"),
        row::<Rc<u32>>("Rc<u32>"),
        row::<&u32>("&u32"),
        row::<PhantomData<u64>>("PhantomData<u64>"),
        row::<Wrapping<u16>>("Wrapping<u16>"),
        row::<Range<u32>>("Range<u32>"),
        row::<RangeInclusive<u32>>("RangeInclusive<u32>"),
        row::<RangeFrom<u32>>("RangeFrom<u32>"),
        row::<RangeTo<u32>>("RangeTo<u32>"),
        row::<Duration>("Duration"),
    ]
}

/// The rows of numbers that aren't zero.
fn nonzero() -> [Row; 12] {
    [
        row::<NonZeroU8>("NonZeroU8"),
        row::<NonZeroI16>("NonZeroI16"),
        row::<NonZeroU32>("NonZeroU32"),
        row::<NonZeroU64>("NonZeroU64"),
        row::<NonZeroUsize>("NonZeroUsize"),
        row::<NonZeroI128>("NonZeroI128"),
        row::<NonZeroI8>("NonZeroI8"),
        row::<NonZeroU16>("NonZeroU16"),
        row::<NonZeroI32>("NonZeroI32"),
        row::<NonZeroI64>("NonZeroI64"),
        row::<NonZeroIsize>("NonZeroIsize"),
        row::<NonZeroU128>("NonZeroU128"),
    ]
}

/// The rows of vectors and texts of a fixed capacity.
fn fixed() -> [Row; 9] {
    [
        row::<ArrayVec<u8, 0>>("ArrayVec<u8,0>"),
        row::<ArrayVec<u8, 1>>("ArrayVec<u8,1>"),
        row::<ArrayVec<u8, 127>>("ArrayVec<u8,127>"),
        row::<ArrayVec<u8, 128>>("ArrayVec<u8,128>"),
        row::<ArrayVec<u8, 16383>>("ArrayVec<u8,16383>"),
        row::<ArrayVec<u8, 16384>>("ArrayVec<u8,16384>"),
        row::<ArrayVec<u16, 300>>("ArrayVec<u16,300>"),
        row::<ArrayString<127>>("ArrayString<127>"),
        row::<ArrayString<128>>("ArrayString<128>"),
    ]
}
