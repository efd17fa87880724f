//! The types of messages, by their names.
use crate::containers::{
    perform_box, perform_map, perform_option, perform_pair, perform_result, perform_results,
    perform_triple, perform_vec,
};
use crate::reading::{read, read_frame, read_owned};
use crate::writing::write;
use arrayvec::{ArrayString, ArrayVec};
use example_by_hand::DataEnum;
use postcard::fixint::{BE, FixInt, LE};
use postcard::{Deserialize, DeserializeOwned, Serialize};
use replay::{Findings, Shown, Trouble, Words};
use std::alloc::Global;
use std::collections::BTreeMap;
use std::mem;

/// What a line asks of a type.
#[derive(Clone, Copy, Drop)]
enum Task {
    Write,
    Read,
    ReadFrame,
}

/// A line that speaks of a type.
#[derive(Drop)]
pub(crate) struct Line<'a> {
    alloc: Global,
    task: Task,
    /// The type's name.
    name: &'a str,
    /// The value, or what the bytes are read as.
    wanted: &'a str,
    bytes: &'a [u8],
    /// The frame of the bytes, if they are to be written.
    frame: &'a [u8],
    /// Bytes that are decoded over themselves; else a reader's buffer.
    room: &'a mut [u8],
    /// The bytes that are decoded over themselves, again.
    copy: &'a mut [u8],
}

/// `TYPE VALUE BYTES FRAME`: what a value is written as.
pub(crate) fn replay_write(
    alloc: Global,
    words: &mut Words<'_>,
    findings: &mut Findings,
) -> Result<(), Trouble> {
    let name = words.next()?;
    let wanted = words.next()?;
    let bytes = words.bytes(alloc)?;
    let frame = words.bytes(alloc)?;
    words.end()?;
    ask_written(alloc, name, wanted, &bytes, &frame, findings)
}

/// Asks what a value is written as.
fn ask_written(
    alloc: Global,
    name: &str,
    wanted: &str,
    bytes: &[u8],
    frame: &[u8],
    findings: &mut Findings,
) -> Result<(), Trouble> {
    let mut line = Line {
        alloc,
        task: Task::Write,
        name,
        wanted,
        bytes,
        frame,
        room: &mut [],
        copy: &mut [],
    };
    ask_number(&mut line, findings)
}

/// `TYPE BYTES -> VALUE +REST` or `TYPE BYTES -> !ERROR`: what bytes are read as.
pub(crate) fn replay_read(
    alloc: Global,
    words: &mut Words<'_>,
    findings: &mut Findings,
) -> Result<(), Trouble> {
    let name = words.next()?;
    let bytes = words.bytes(alloc)?;
    let wanted = words.answer()?;
    let mut room = vec![in alloc; 0; bytes.len()]?;
    let mut line = Line {
        alloc,
        task: Task::Read,
        name,
        wanted,
        bytes: &bytes,
        frame: &[],
        room: room.as_mut_slice(),
        copy: &mut [],
    };
    ask_number(&mut line, findings)
}

/// `TYPE BYTES -> VALUE +REST` or `TYPE BYTES -> !ERROR`: what a frame is read as.
pub(crate) fn replay_read_frame(
    alloc: Global,
    words: &mut Words<'_>,
    findings: &mut Findings,
) -> Result<(), Trouble> {
    let name = words.next()?;
    let mut frame = words.bytes(alloc)?;
    let wanted = words.answer()?;
    let mut copy = frame.clone()?;
    let mut line = Line {
        alloc,
        task: Task::ReadFrame,
        name,
        wanted,
        bytes: &[],
        frame: &[],
        room: frame.as_mut_slice(),
        copy: copy.as_mut_slice(),
    };
    ask_number(&mut line, findings)
}

/// Does what a line asks of a type that keeps none of the bytes that it is read from.
pub(crate) fn perform<'a, T: Serialize + Deserialize<&'a [u8]> + DeserializeOwned + Shown>(
    line: &mut Line<'a>,
    findings: &mut Findings,
) -> Result<(), Trouble> {
    match line.task {
        Task::Write | Task::Read => {
            read_owned::<T>(line.alloc, line.bytes, line.wanted, findings)?;
        }
        Task::ReadFrame => {}
    }
    perform_borrowing::<T>(line, findings)
}

/// Does what a line asks of a type that may keep bytes.
fn perform_borrowing<'a, T: Serialize + Deserialize<&'a [u8]> + Shown>(
    line: &mut Line<'a>,
    findings: &mut Findings,
) -> Result<(), Trouble> {
    match line.task {
        Task::Write => write::<T>(line.alloc, line.wanted, line.bytes, line.frame, findings),
        Task::Read | Task::ReadFrame => read_by_task::<T>(line, findings),
    }
}

/// Reads what a line gives, which is a frame if its task says so.
// The bytes and the buffers that values borrow from are arguments of their own: two references at one lifetime inside a struct
// aren't covered.
fn read_by_task<'a, T: Deserialize<&'a [u8]> + Shown>(
    line: &mut Line<'a>,
    findings: &mut Findings,
) -> Result<(), Trouble> {
    let alloc = line.alloc;
    let room = mem::take(&mut line.room);
    if let Task::ReadFrame = line.task {
        let copy = mem::take(&mut line.copy);
        return read_frame::<T>(alloc, room, copy, line.wanted, findings);
    }
    read::<T>(alloc, line.bytes, room, line.wanted, findings)
}

/// Asks a number, a character or nothing.
fn ask_number(line: &mut Line<'_>, findings: &mut Findings) -> Result<(), Trouble> {
    match line.name {
        "bool" => perform::<bool>(line, findings),
        "u8" => perform::<u8>(line, findings),
        "u16" => perform::<u16>(line, findings),
        "u32" => perform::<u32>(line, findings),
        "u64" => perform::<u64>(line, findings),
        "u128" => perform::<u128>(line, findings),
        "usize" => perform::<usize>(line, findings),
        "i8" => perform::<i8>(line, findings),
        "i16" => perform::<i16>(line, findings),
        "i32" => perform::<i32>(line, findings),
        "i64" => perform::<i64>(line, findings),
        "i128" => perform::<i128>(line, findings),
        "isize" => perform::<isize>(line, findings),
        "char" => perform::<char>(line, findings),
        "()" => perform::<()>(line, findings),
        _ => ask_fixed(line, findings),
    }
}

/// Asks a number of a fixed width.
fn ask_fixed(line: &mut Line<'_>, findings: &mut Findings) -> Result<(), Trouble> {
    match line.name {
        "LE<u16>" | "BE<u16>" => ask_either_end::<u16>(line, findings),
        "LE<u32>" | "BE<u32>" => ask_either_end::<u32>(line, findings),
        "LE<u64>" | "BE<u64>" => ask_either_end::<u64>(line, findings),
        "LE<u128>" | "BE<u128>" => ask_either_end::<u128>(line, findings),
        "LE<i16>" | "BE<i16>" => ask_either_end::<i16>(line, findings),
        "LE<i32>" | "BE<i32>" => ask_either_end::<i32>(line, findings),
        "LE<i64>" | "BE<i64>" => ask_either_end::<i64>(line, findings),
        "LE<i128>" | "BE<i128>" => ask_either_end::<i128>(line, findings),
        _ => ask_text(line, findings),
    }
}

/// Asks a number of a fixed width, by its last byte first or by its first.
fn ask_either_end<T: FixInt + Shown>(
    line: &mut Line<'_>,
    findings: &mut Findings,
) -> Result<(), Trouble> {
    if line.name.starts_with("LE") {
        perform::<LE<T>>(line, findings)
    } else {
        perform::<BE<T>>(line, findings)
    }
}

/// Asks a text, or bytes.
fn ask_text<'a>(line: &mut Line<'a>, findings: &mut Findings) -> Result<(), Trouble> {
    match line.name {
        "&[u8]" => perform_borrowing::<&'a [u8]>(line, findings),
        "&str" => perform_borrowing::<&'a str>(line, findings),
        "ArrayString<0>" => perform::<ArrayString<0>>(line, findings),
        "ArrayString<4>" => perform::<ArrayString<4>>(line, findings),
        "ArrayString<8>" => perform::<ArrayString<8>>(line, findings),
        "String" => perform::<String>(line, findings),
        _ => ask_vector(line, findings),
    }
}

/// Asks a vector.
fn ask_vector(line: &mut Line<'_>, findings: &mut Findings) -> Result<(), Trouble> {
    match line.name {
        "Vec<u8>" => perform_vec::<u8>(line, findings),
        "Vec<i64>" => perform_vec::<i64>(line, findings),
        "Vec<u16>" => perform_vec::<u16>(line, findings),
        "Vec<bool>" => perform_vec::<bool>(line, findings),
        "Vec<char>" => perform_vec::<char>(line, findings),
        "Vec<String>" => perform_vec::<String>(line, findings),
        "Vec<[u8;3]>" => perform_vec::<[u8; 3]>(line, findings),
        "Vec<LE<u16>>" => perform_vec::<LE<u16>>(line, findings),
        "Vec<Vec<u8>>" => perform_vec::<Vec<u8>>(line, findings),
        "Vec<(u8,u16)>" => perform_vec::<(u8, u16)>(line, findings),
        "Vec<DataEnum>" => perform_vec::<DataEnum>(line, findings),
        "Vec<Option<i32>>" => perform_vec::<Option<i32>>(line, findings),
        "Vec<Result<u8,()>>" => perform_vec::<Result<u8, ()>>(line, findings),
        _ => ask_array(line, findings),
    }
}

/// Asks an array, or a vector within one.
fn ask_array(line: &mut Line<'_>, findings: &mut Findings) -> Result<(), Trouble> {
    match line.name {
        "ArrayVec<(),3>" => perform::<ArrayVec<(), 3>>(line, findings),
        "ArrayVec<u8,0>" => perform::<ArrayVec<u8, 0>>(line, findings),
        "ArrayVec<u8,2>" => perform::<ArrayVec<u8, 2>>(line, findings),
        "ArrayVec<u8,4>" => perform::<ArrayVec<u8, 4>>(line, findings),
        "ArrayVec<u16,2>" => perform::<ArrayVec<u16, 2>>(line, findings),
        "ArrayVec<ArrayString<4>,2>" => perform::<ArrayVec<ArrayString<4>, 2>>(line, findings),
        "[(bool,i16);2]" => perform::<[(bool, i16); 2]>(line, findings),
        "[Option<u8>;2]" => perform::<[Option<u8>; 2]>(line, findings),
        "[u16;3]" => perform::<[u16; 3]>(line, findings),
        "[u8;0]" => perform::<[u8; 0]>(line, findings),
        "[u8;1]" => perform::<[u8; 1]>(line, findings),
        "[u8;3]" => perform::<[u8; 3]>(line, findings),
        "[u8;32]" => perform::<[u8; 32]>(line, findings),
        "[u8;4]" => perform::<[u8; 4]>(line, findings),
        _ => ask_tuple(line, findings),
    }
}

/// Asks a tuple.
fn ask_tuple(line: &mut Line<'_>, findings: &mut Findings) -> Result<(), Trouble> {
    match line.name {
        "(BE<u32>,u8)" => perform_pair::<BE<u32>, u8>(line, findings),
        "(bool,i16,char,u64)" => perform::<(bool, i16, char, u64)>(line, findings),
        "(i32,u8,u64)" => perform_triple::<i32, u8, u64>(line, findings),
        "(i8,u16,i32,u64,i128,bool)" => perform::<(i8, u16, i32, u64, i128, bool)>(line, findings),
        "(u16,u8,u128,u64,u32)" => perform::<(u16, u8, u128, u64, u32)>(line, findings),
        "(u8,)" => perform::<(u8,)>(line, findings),
        "(u8,u16)" => perform_pair::<u8, u16>(line, findings),
        "(u8,u32,String)" => perform_triple::<u8, u32, String>(line, findings),
        "(u8,u8)" => perform_pair::<u8, u8>(line, findings),
        _ => ask_choice(line, findings),
    }
}

/// Asks an option, a result or a box.
fn ask_choice(line: &mut Line<'_>, findings: &mut Findings) -> Result<(), Trouble> {
    match line.name {
        "Box<u32>" => perform_box::<u32>(line, findings),
        "Box<Option<Box<u8>>>" => perform_box::<Option<Box<u8>>>(line, findings),
        "Option<()>" => perform_option::<()>(line, findings),
        "Option<u8>" => perform_option::<u8>(line, findings),
        "Option<u16>" => perform_option::<u16>(line, findings),
        "Option<String>" => perform_option::<String>(line, findings),
        "Option<Option<bool>>" => perform_option::<Option<bool>>(line, findings),
        "Option<Vec<Result<(u8,String),[u16;2]>>>" => perform_results::<(u8, String), [u16; 2]>(
            line, findings,
        ),
        "Result<u8,u8>" => perform_result::<u8, u8>(line, findings),
        "Result<u8,u16>" => perform_result::<u8, u16>(line, findings),
        "Result<(),String>" => perform_result::<(), String>(line, findings),
        "Result<Vec<u8>,bool>" => perform_result::<Vec<u8>, bool>(line, findings),
        _ => ask_other(line, findings),
    }
}

/// Asks a map or an enum.
fn ask_other(line: &mut Line<'_>, findings: &mut Findings) -> Result<(), Trouble> {
    match line.name {
        "BTreeMap<u8,u8>" => perform_map::<u8, u8>(line, findings),
        "BTreeMap<u16,String>" => perform_map::<u16, String>(line, findings),
        "BTreeMap<String,Vec<u8>>" => perform_map::<String, Vec<u8>>(line, findings),
        "BTreeMap<i8,BTreeMap<bool,u16>>" => perform_map::<i8, BTreeMap<bool, u16>>(line, findings),
        "DataEnum" => perform::<DataEnum>(line, findings),
        _ => ask_nothings(line, findings),
    }
}

/// Asks a container of nothings that the lines of other families don't name.
fn ask_nothings(line: &mut Line<'_>, findings: &mut Findings) -> Result<(), Trouble> {
    match line.name {
        "Vec<()>" => perform_vec::<()>(line, findings),
        "[();3]" => perform::<[(); 3]>(line, findings),
        "Box<()>" => perform_box::<()>(line, findings),
        "((),)" => perform::<((),)>(line, findings),
        "Result<(),()>" => perform_result::<(), ()>(line, findings),
        "BTreeMap<u8,()>" => perform_map::<u8, ()>(line, findings),
        _ => Err(Trouble::Unreadable),
    }
}
