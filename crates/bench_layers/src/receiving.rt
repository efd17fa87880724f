//! Receivers that are pushed, and what is received or read at once, as C functions.

use crate::answers::{Found, NONE_FOUND};
use crate::messages::{Owned, count_record};
use crate::records::{Lent, OTHER, count_answer, parts_of};
use line_io::memory::In;
use link::{
    Answer, Decoding, NoMemory, OwnedReceiver, Pushed, Receiver, Reception, read_in_place, receive,
    receive_by_accumulator, receive_owned, receive_owned_strict, receive_strict,
};
use std::alloc::Global;
use std::slice;

/// How many bytes a stretch has at most.
const LIMIT: usize = 512;

/// Counts what a push gives.
fn count_pushed(answer: Result<Option<Answer<Owned>>, NoMemory>, found: &mut Found) {
    match answer {
        Ok(Some(answer)) => count_answer(answer, found),
        Ok(None) => {}
        Err(_) => found.refused = found.refused.wrapping_add(1),
    }
}

/// Pushes a chunk until it is used up.
#[inline(always)]
fn push_piece<D: Decoding>(
    alloc: Global,
    receiver: &mut Reception<D>,
    piece: &[u8],
    found: &mut Found,
) {
    let mut rest = piece;
    while !rest.is_empty() {
        let Pushed { used, answer, .. } = receiver.push::<Owned>(alloc, rest);
        rest = &rest[used..];
        count_pushed(answer, found);
    }
}

/// The same strictly.
#[inline(always)]
fn push_piece_strict<D: Decoding>(
    alloc: Global,
    receiver: &mut Reception<D>,
    piece: &[u8],
    found: &mut Found,
) {
    let mut rest = piece;
    while !rest.is_empty() {
        let Pushed { used, answer, .. } = receiver.push_strict::<Owned>(alloc, rest);
        rest = &rest[used..];
        count_pushed(answer, found);
    }
}

/// Pushes a stream in chunks of `piece` bytes into a receiver, and counts the answers. Nothing is found where `piece` is 0. Chunks of one
/// byte are compiled by themselves, as in the peers.
#[unsafe(no_mangle)]
pub extern "C" fn link_c_push(alloc: Global, stream: &[u8], piece: usize, found: &mut Found) {
    let mut receiver = Receiver::<LIMIT>::new();
    let mut counts = NONE_FOUND;
    if piece == 1 {
        for byte in stream {
            let Pushed { answer, .. } = receiver.push::<Owned>(alloc, slice::from_ref(byte));
            count_pushed(answer, &mut counts);
        }
    } else if piece > 0 {
        for bytes in stream.chunks(piece) {
            push_piece(alloc, &mut receiver, bytes, &mut counts);
        }
    }
    *found = counts;
}

/// The same strictly.
#[unsafe(no_mangle)]
pub extern "C" fn link_c_push_strict(
    alloc: Global,
    stream: &[u8],
    piece: usize,
    found: &mut Found,
) {
    let mut receiver = Receiver::<LIMIT>::new();
    let mut counts = NONE_FOUND;
    if piece > 0 {
        for bytes in stream.chunks(piece) {
            push_piece_strict(alloc, &mut receiver, bytes, &mut counts);
        }
    }
    *found = counts;
}

/// The same by a receiver whose limit is set at run time. Nothing is found where there is no memory for it.
#[unsafe(no_mangle)]
pub extern "C" fn link_c_push_owned(alloc: Global, stream: &[u8], piece: usize, found: &mut Found) {
    *found = NONE_FOUND;
    let Ok(mut receiver) = OwnedReceiver::new(alloc, LIMIT, 0) else {
        return;
    };
    let mut counts = NONE_FOUND;
    if piece > 0 {
        for bytes in stream.chunks(piece) {
            push_piece(alloc, &mut receiver, bytes, &mut counts);
        }
    }
    *found = counts;
}

/// The same by a receiver for another sentinel.
#[unsafe(no_mangle)]
pub extern "C" fn link_c_push_for(alloc: Global, stream: &[u8], piece: usize, found: &mut Found) {
    let mut receiver = Receiver::<LIMIT>::new_with_sentinel(OTHER);
    let mut counts = NONE_FOUND;
    if piece > 0 {
        for bytes in stream.chunks(piece) {
            push_piece(alloc, &mut receiver, bytes, &mut counts);
        }
    }
    *found = counts;
}

/// Pushes a chunk until it is used up, of records whose texts are read where they lie.
#[inline(always)]
fn push_piece_ref(alloc: Global, receiver: &mut Receiver<LIMIT>, piece: &[u8], found: &mut Found) {
    let mut rest = piece;
    while !rest.is_empty() {
        let Pushed { used, answer, .. } = receiver.push_ref::<Lent<'_>>(alloc, rest);
        match answer {
            Ok(Some(answer)) => count_lent(Ok(answer), found),
            Ok(None) => {}
            Err(e) => count_lent(Err(e), found),
        }
        rest = &rest[used..];
    }
}

/// Pushes a stream in chunks of `piece` bytes into a receiver by `push_ref`, and counts the
/// answers. Nothing is found where `piece` is 0.
#[unsafe(no_mangle)]
pub extern "C" fn link_c_push_ref(alloc: Global, stream: &[u8], piece: usize, found: &mut Found) {
    let mut receiver = Receiver::<LIMIT>::new();
    let mut counts = NONE_FOUND;
    if piece > 0 {
        for bytes in stream.chunks(piece) {
            push_piece_ref(alloc, &mut receiver, bytes, &mut counts);
        }
    }
    *found = counts;
}

/// Counts the answers of a list.
fn count_answers(answers: Vec<Answer<Owned>>) -> Found {
    let mut counts = NONE_FOUND;
    for answer in answers {
        count_answer(answer, &mut counts);
    }
    counts
}

/// Receives all that a line gives into a list by `receive`, of which each read gives `each` bytes, and counts it. Nothing is found where
/// `each` is 0.
#[unsafe(no_mangle)]
pub extern "C" fn link_c_receive(alloc: Global, stream: &[u8], each: usize, found: &mut Found) {
    *found = NONE_FOUND;
    if each == 0 {
        return;
    }
    let received = receive::<Owned, In<'_>, LIMIT>(alloc, In::new(stream, each, None));
    *found = count_answers(received.answers);
}

/// The same by `receive_strict`.
#[unsafe(no_mangle)]
pub extern "C" fn link_c_receive_strict(
    alloc: Global,
    stream: &[u8],
    each: usize,
    found: &mut Found,
) {
    *found = NONE_FOUND;
    if each == 0 {
        return;
    }
    let received = receive_strict::<Owned, In<'_>, LIMIT>(alloc, In::new(stream, each, None));
    *found = count_answers(received.answers);
}

/// The same by `receive_owned`.
#[unsafe(no_mangle)]
pub extern "C" fn link_c_receive_owned(
    alloc: Global,
    stream: &[u8],
    each: usize,
    found: &mut Found,
) {
    *found = NONE_FOUND;
    if each == 0 {
        return;
    }
    let reader = In::new(stream, each, None);
    *found = count_answers(receive_owned::<Owned, In<'_>>(alloc, reader, LIMIT, 0).answers);
}

/// The same by `receive_owned_strict`.
#[unsafe(no_mangle)]
pub extern "C" fn link_c_receive_owned_strict(
    alloc: Global,
    stream: &[u8],
    each: usize,
    found: &mut Found,
) {
    *found = NONE_FOUND;
    if each == 0 {
        return;
    }
    let reader = In::new(stream, each, None);
    *found = count_answers(receive_owned_strict::<Owned, In<'_>>(alloc, reader, LIMIT, 0).answers);
}

/// The same by `receive_by_accumulator`, which keeps values alone.
#[unsafe(no_mangle)]
pub extern "C" fn link_c_gather(alloc: Global, stream: &[u8], each: usize, found: &mut Found) {
    *found = NONE_FOUND;
    if each == 0 {
        return;
    }
    let reader = In::new(stream, each, None);
    let gathered = receive_by_accumulator::<Owned, In<'_>, LIMIT>(alloc, reader);
    let mut counts = NONE_FOUND;
    for record in gathered.values {
        count_record(record, &mut counts);
    }
    *found = counts;
}

/// Counts what is read where it lies.
fn count_lent(answer: Result<Answer<Lent<'_>>, NoMemory>, found: &mut Found) {
    match answer {
        Ok(Answer::Value(record)) => {
            let parts = parts_of(record);
            found.values = found.values.wrapping_add(1);
            found.sum = found.sum.wrapping_add(u64::from(parts.number));
            found.sum = found.sum.wrapping_add(parts.text_len as u64);
            found.sum = found.sum.wrapping_add(parts.sum);
        }
        Ok(_) | Err(_) => found.refused = found.refused.wrapping_add(1),
    }
}

/// Reads all stretches of a buffer where they lie by `read_in_place`, and counts them.
#[unsafe(no_mangle)]
pub extern "C" fn link_c_read_in_place(alloc: Global, stream: &mut [u8], found: &mut Found) {
    let mut counts = NONE_FOUND;
    let most = stream.len();
    let mut rest = &mut *stream;
    for _ in 0..most {
        match read_in_place::<Lent<'_>>(alloc, rest) {
            None => break,
            Some((answer, after)) => {
                count_lent(answer, &mut counts);
                rest = after;
            }
        }
    }
    *found = counts;
}
