//! `postcard_de`: published bytes by each call, readers that fail, and errors.
use crate::checks::{
    all_true, are_equal, check, check_all, check_at, fails, gives, gives_bytes, is_string, is_text,
    is_vector,
};
use arrayvec::{ArrayString, ArrayVec};
use postcard_de::de_flavors::io::IOReader;
use postcard_de::de_flavors::{Flavor, Slice};
use postcard_de::{Deserialize, DeserializeOwned, Deserializer, SeqAccess};
use postcard_tree::{Error, Result};
use std::alloc::Global;
use std::collections::BTreeMap;
use std::io::{ErrorKind, Read};

// A value from a whole slice.
fn read<'a, T: Deserialize<&'a [u8]>>(alloc: Global, bytes: &'a [u8]) -> Result<T> {
    let mut d = Deserializer::from_bytes(alloc, bytes);
    T::deserialize(&mut d)
}

// A value that borrows nothing, if this count of bytes is left after it.
fn read_owned<T: DeserializeOwned>(alloc: Global, bytes: &[u8], left: usize) -> Option<T> {
    let mut d = Deserializer::from_bytes(alloc, bytes);
    let value = T::deserialize_owned(&mut d).ok();
    match d.finalize() {
        Ok(rest) if rest.len() == left => value,
        _ => None,
    }
}

// Gives these bytes one at a time, and is then interrupted once or fails from then on.
#[derive(Drop)]
struct Broken<'a> {
    bytes: &'a [u8],
    interrupted: bool,
    rest: &'a [u8],
}

impl Read for Broken<'_> {
    fn read(&mut self, buf: &mut [u8]) -> std::io::Result<usize> {
        if buf.is_empty() {
            return Ok(0);
        }
        let bytes = self.bytes;
        match bytes {
            [first, rest @ ..] => {
                buf[0] = *first;
                self.bytes = rest;
                Ok(1)
            }
            [] => {
                if self.interrupted {
                    self.interrupted = false;
                    self.bytes = self.rest;
                    return Err(ErrorKind::Interrupted.into());
                }
                Err(ErrorKind::BrokenPipe.into())
            }
        }
    }
}

#[test]
fn a_slice_gives_its_bytes_and_the_rest(rt: HostRuntime) {
    let mut slice = Slice::new(&[1, 2, 3, 4]);
    check_all(
        &rt,
        [
            gives(slice.pop(), 1),
            slice.size_hint() == Some(3),
            fails(slice.try_take_n(4), Error::DeserializeUnexpectedEnd),
            gives_bytes(slice.try_take_n_temp(1), &[2]),
            gives_bytes(slice.try_take_n(1), &[3]),
            gives_bytes(slice.finalize(), &[4]),
        ],
    );
    let source = Slice::new(&[4, 0, 4, 1, 2, 3]);
    let mut d = Deserializer::from_flavor(rt.alloc(), source);
    check(
        &rt,
        gives(<(u8, u8, u8)>::deserialize(&mut d), (4, 0, 4))
            && gives_bytes(d.finalize(), &[1, 2, 3]),
    );
}

// Whether three bytes are given one after another, and no more, by a source that foretells none.
fn gives_three_bytes<F: Flavor>(source: &mut F) -> bool {
    all_true([
        source.size_hint() == None,
        gives(source.pop(), 0xAA),
        gives(source.pop(), 0xBB),
        gives(source.pop(), 0xCC),
        fails(source.pop(), Error::DeserializeUnexpectedEnd),
    ])
}

#[test]
fn a_reader_needs_no_buffer_for_a_byte(rt: HostRuntime) {
    let bytes = [0xAA, 0xBB, 0xCC];
    let mut none = [0u8; 0];
    let mut reader = IOReader::new(&bytes[..], &mut none);
    check(&rt, gives_three_bytes(&mut reader));
}

// Whether two pairs of bytes are taken, and no third.
fn takes_two_pairs<'a, F: Flavor<Taken = &'a [u8]>>(source: &mut F) -> bool {
    all_true([
        gives_bytes(source.try_take_n(2), &[0xAA, 0xBB]),
        gives_bytes(source.try_take_n(2), &[0xCC, 0xDD]),
        fails(source.try_take_n(2), Error::DeserializeUnexpectedEnd),
    ])
}

#[test]
fn bytes_by_a_reader_use_the_buffer(rt: HostRuntime) {
    let bytes = [0xAA, 0xBB, 0xCC, 0xDD, 0xEE];
    let mut buffer = [0u8; 8];
    let mut reader = IOReader::new(&bytes[..], &mut buffer);
    let are_taken = takes_two_pairs(&mut reader);
    let is_shared = match reader.finalize() {
        Ok((_, rest)) => rest.len() == 2,
        Err(_) => false,
    };
    check(&rt, are_taken && is_shared);
}

// Whether three bytes are refused by each call, and given by two others.
fn refuses_three_bytes<F: Flavor>(source: &mut F) -> bool {
    all_true([
        fails(source.try_take_n(3), Error::DeserializeUnexpectedEnd),
        fails(source.try_take_n_temp(3), Error::DeserializeUnexpectedEnd),
        gives_bytes(source.try_take_n_temp(2), &[1, 2]),
        gives(source.pop(), 3),
    ])
}

#[test]
fn a_buffer_that_is_too_small_stays_whole(rt: HostRuntime) {
    let bytes = [1, 2, 3];
    let mut buffer = [0u8; 2];
    let mut reader = IOReader::new(&bytes[..], &mut buffer);
    let are_refused = refuses_three_bytes(&mut reader);
    let is_whole = match reader.finalize() {
        Ok((left, rest)) => left.is_empty() && rest.len() == 2,
        Err(_) => false,
    };
    check(&rt, are_refused && is_whole);
}

// The tuple (1, 10, "Hello!").
const HELLO: [u8; 9] = [0x01, 0x0A, 0x06, 0x48, 0x65, 0x6C, 0x6C, 0x6F, 0x21];

// Whether a tuple is that one.
fn is_hello(value: (u8, u32, &str)) -> bool {
    value.0 == 1 && value.1 == 10 && is_text(value.2, "Hello!")
}

// Whether that tuple is read whole, into a buffer that just holds it, by a reader that is in trouble once, after
// so many of its bytes.
fn read_broken(alloc: Global, count: usize, interrupted: bool) -> Result<bool> {
    let (bytes, rest) = HELLO.split_at(count.min(9));
    let mut buffer = [0u8; 6];
    let broken = Broken {
        bytes,
        interrupted,
        rest,
    };
    let mut d = Deserializer::from_flavor(alloc, IOReader::new(broken, &mut buffer));
    match <(u8, u32, &str)>::deserialize(&mut d) {
        Ok(value) if is_hello(value) => match d.finalize() {
            Ok((_, room)) => Ok(room.is_empty()),
            Err(cause) => Err(cause),
        },
        Ok(_) => Ok(false),
        Err(cause) => Err(cause),
    }
}

#[test]
fn a_reader_that_fails_or_is_interrupted_after_each_byte(rt: HostRuntime) {
    for count in 0..10 {
        let failed = read_broken(rt.alloc(), count, false);
        let interrupted = read_broken(rt.alloc(), count, true);
        let is_right = match count {
            9 => gives(failed, true),
            _ => fails(failed, Error::DeserializeUnexpectedEnd),
        };
        check_at(&rt, count, is_right && gives(interrupted, true));
    }
}

// Whether each call for a number reads the next of these, also in an option and inside others.
fn reads_numbers<F: Flavor>(d: &mut Deserializer<F>) -> bool {
    all_true([
        gives(d.deserialize_bool(), true),
        gives(d.deserialize_u8(), 7),
        gives(d.deserialize_u16(), 42439),
        gives(d.deserialize_u32(), 3450549266),
        gives(d.deserialize_u64(), 128),
        gives(d.deserialize_u128(), 129),
        gives(d.deserialize_enum(), 5),
        gives(d.deserialize_i8(), -1),
        gives(d.deserialize_i16(), 32767),
        gives(d.deserialize_i32(), -2),
        gives(d.deserialize_i64(), -1),
        gives(d.deserialize_i128(), 1),
        gives(d.deserialize_option(), true),
        gives(d.deserialize_newtype_struct::<u8>(), 6),
        gives(d.newtype_variant::<u8>(), 5),
    ])
}

// Whether each call for a text or bytes reads the next of these, borrowed or owned.
fn reads_texts_and_bytes<'a, F: Flavor<Taken = &'a [u8]>>(d: &mut Deserializer<F>) -> bool {
    all_true([
        gives(d.deserialize_char(), 'z'),
        is_string(d.deserialize_string(), "c"),
        gives_bytes(d.deserialize_str(), &[0x61, 0x62]),
        is_vector(d.deserialize_byte_buf(), &[7]),
        gives_bytes(d.deserialize_bytes(), &[9, 8]),
    ])
}

// 5000 elements after their count.
fn long_vector() -> [u8; 5002] {
    let mut bytes = [0u8; 5002];
    for i in 0..5000 {
        bytes[i + 2] = (i % 251) as u8;
    }
    bytes[0] = 0x88;
    bytes[1] = 0x27;
    bytes
}

// More elements than get space before they are read, all of them and all but the last; and a count of elements that don't
// follow.
#[test]
fn a_long_vector(rt: HostRuntime) {
    let bytes = long_vector();
    let is_refused = match bytes.split_last() {
        Some((_, less)) => read::<Vec<u8>>(rt.alloc(), less).is_err(),
        None => false,
    };
    let is_whole = is_vector(read::<Vec<u8>>(rt.alloc(), &bytes), &bytes[2..]);
    let few = read::<Vec<u32>>(rt.alloc(), &[0xFF, 0x7F, 1, 2, 3, 4, 5, 6]);
    check(
        &rt,
        is_whole && is_refused && fails(few, Error::DeserializeUnexpectedEnd),
    );
}

// Whether the calls that always fail leave the next byte to be read, and those that read nothing succeed after it, where
// there is nothing to read.
fn reads_nothing<F: Flavor>(d: &mut Deserializer<F>) -> bool {
    all_true([
        fails(d.deserialize_any(), Error::WontImplement),
        fails(d.deserialize_identifier(), Error::WontImplement),
        fails(d.deserialize_ignored_any(), Error::WontImplement),
        gives(d.deserialize_u8(), 3),
        !d.is_human_readable(),
        d.unit_variant().is_ok(),
        d.deserialize_unit().is_ok(),
        d.deserialize_unit_struct().is_ok(),
        fails(d.deserialize_u16(), Error::DeserializeUnexpectedEnd),
    ])
}

// Whether three parts are announced, of which the last one is refused, and nothing is returned after them.
fn reads_parts<F: Flavor>(d: &mut Deserializer<F>) -> bool {
    match d.deserialize_seq() {
        Ok(mut parts) => all_true([
            parts.size_hint() == Some(3),
            gives(parts.next_element::<u8>(), Some(1)),
            gives(parts.next_element_owned::<u8>(), Some(2)),
            fails(parts.next_element::<bool>(), Error::DeserializeBadBool),
            gives(parts.next_element::<u8>(), None),
        ]),
        Err(_) => false,
    }
}

// Whether parts are returned, and so many announced.
fn foretells<F: Flavor>(parts: Result<SeqAccess<'_, F>>, count: Option<usize>) -> bool {
    match parts {
        Ok(parts) => parts.size_hint() == count,
        Err(_) => false,
    }
}

// Whether counts are announced for which there are bytes, and no others.
fn foretells_counts<F: Flavor>(d: &mut Deserializer<F>) -> bool {
    all_true([
        foretells(d.deserialize_tuple(1), Some(1)),
        foretells(d.deserialize_tuple_struct(48), None),
        foretells(d.deserialize_struct(1), Some(1)),
        foretells(d.tuple_variant(1), Some(1)),
        foretells(d.struct_variant(1), Some(1)),
    ])
}

// Whether two entries are announced and read, by both kinds of calls, and nothing is returned after them.
fn reads_entries<F: Flavor>(d: &mut Deserializer<F>) -> bool {
    match d.deserialize_map() {
        Ok(mut map) => all_true([
            map.size_hint() == Some(2),
            gives(map.next_key::<u8>(), Some(5)),
            gives(map.next_value::<u8>(), 6),
            gives(map.next_key_owned::<u8>(), Some(1)),
            gives(map.next_value_owned::<u8>(), 7),
            gives(map.next_key::<u8>(), None),
        ]),
        Err(_) => false,
    }
}

// What each call reads, one after another.
const SENT: [u8; 47] = [
    // numbers
    1, 7, 0xC7, 0xCB, 0x02, 0x92, 0xE8, 0xAC, 0xED, 0x0C, 0x80, 0x01, 0x81, 0x01, 5, 0xFF, 0xFE,
    0xFF, 0x03, 0x03, 0x01, 0x02, 1, 6, 5,
    // texts and bytes
    1, 0x7A, 1, 0x63, 2, 0x61, 0x62, 1, 7, 2, 9, 8,
    // parts
    3, 1, 2, 2,
    // entries
    2, 5, 6, 1, 7,
    // what follows the calls that always fail
    3,
];

// Whether each call reads what it is to.
fn reads_all<'a, F: Flavor<Taken = &'a [u8]>>(d: &mut Deserializer<F>) -> bool {
    all_true([
        foretells_counts(d),
        reads_numbers(d),
        reads_texts_and_bytes(d),
        reads_parts(d),
        reads_entries(d),
        reads_nothing(d),
    ])
}

#[test]
fn each_call(rt: HostRuntime) {
    let mut d = Deserializer::from_bytes(rt.alloc(), &SENT);
    check(&rt, reads_all(&mut d));
}

type Whole = (Option<u8>, Vec<u8>, String, BTreeMap<u8, u8>, [u8; 1], ());

// Whether each part is the one that was sent.
fn is_whole(value: &Whole) -> bool {
    all_true([
        value.0 == Some(9),
        are_equal(&value.1, &[3]),
        is_text(&value.2, "a"),
        matches!(value.3.get(&4), Some(5)),
        are_equal(&value.4, &[6]),
    ])
}

type InFixedRoom = (
    std::result::Result<bool, u8>,
    ArrayVec<u8, 1>,
    ArrayString<1>,
    Box<u8>,
);

// Whether each part is the one that was sent.
fn is_in_fixed_room(value: &InFixedRoom) -> bool {
    all_true([
        matches!(value.0, Ok(true)),
        are_equal(&value.1, &[7]),
        is_text(&value.2, "b"),
        *value.3 == 8,
    ])
}

#[test]
fn what_borrows_nothing(rt: HostRuntime) {
    let bytes = [1, 9, 1, 3, 1, 0x61, 1, 4, 5, 6, 0];
    let read = read_owned::<Whole>(rt.alloc(), &bytes, 1);
    check(&rt, matches!(&read, Some(value) if is_whole(value)));
    let read = read_owned::<InFixedRoom>(rt.alloc(), &[0, 1, 1, 7, 1, 0x62, 8], 0);
    check(&rt, matches!(&read, Some(value) if is_in_fixed_room(value)));
}
