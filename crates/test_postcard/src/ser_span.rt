//! `postcard_ser`: a buffer and a cursor in it, written and read, and parts of it that are taken for good.
use crate::checks::{all_true, are_equal, check, check_all};
use postcard_ser::memory::{Access, Memory, ReadOnly, Span, Start, Writable};
use std::mem::size_of;

// Whether bytes are put before the cursor, and one of them is changed.
fn are_written() -> bool {
    let mut buffer = [0u8; 4];
    let mut span = Span::new(&mut buffer);
    span.push(7);
    span.push_slice(&[1, 2]);
    span.set_byte(0, 9);
    all_true([
        span.byte(0) == 9,
        span.count() == 3,
        span.remaining() == 1,
        are_equal(span.front(1), &[0]),
        are_equal(span.into_behind(), &[9, 1, 2]),
    ])
}

// Whether a front stays while the rest is written.
fn is_front_kept() -> bool {
    let mut buffer = [1u8, 2, 3, 4];
    let (front, mut rest) = Span::new(&mut buffer).split_front(2);
    rest.push(8);
    front[0] = 9;
    rest.push(7);
    let are_right = are_equal(front, &[9, 2]) && are_equal(rest.into_behind(), &[8, 7]);
    are_right && are_equal(&buffer, &[9, 2, 8, 7])
}

#[test]
fn bytes_are_written(rt: HostRuntime) {
    check(&rt, are_written() && is_front_kept());
}

#[test]
fn bytes_are_read(rt: HostRuntime) {
    let buffer = [1u8, 2, 3, 4];
    let mut span = Span::over(&buffer);
    let is_first = span.next() == 1;
    let (taken, mut left) = span.split_front(2);
    let (none, nothing) = Span::new(&mut []).split_front(0);
    check_all(
        &rt,
        [
            is_first,
            left.next() == 4,
            left.remaining() == 0,
            are_equal(taken, &[2, 3]),
            left.into_ahead().is_empty(),
            none.is_empty(),
            nothing.into_ahead().is_empty(),
        ],
    );
}

/// How many bytes a span has, before its cursor and ahead of it.
fn size<K: Access>(span: &Span<'_, K>) -> usize {
    span.count().saturating_add(span.remaining())
}

#[test]
fn kinds_of_access(rt: HostRuntime) {
    let mut buffer = [0u8; 4];
    let writable: Span<'_, Writable> = Span::new(&mut buffer);
    check(&rt, size(&writable) == 4);
    let readable: Span<'_, ReadOnly> = Span::over(&[1, 2]);
    check(&rt, size(&readable) == 2);
    // The right to bytes takes no space beside the pointer to them.
    check(&rt, size_of::<Memory<'static, Writable>>() == 0);
    check(&rt, size_of::<Start>() == 8);
}
