//! Types of std that have a maximum size, and are neither written nor read.
ghost use Rattle.postcard_tree.specs.ReadingLaws.{only_sized};

use super::{Own, Readable};
use std::marker::PhantomData;
use std::num::{
    NonZeroI8, NonZeroI16, NonZeroI32, NonZeroI64, NonZeroI128, NonZeroIsize, NonZeroU8,
    NonZeroU16, NonZeroU32, NonZeroU64, NonZeroU128, NonZeroUsize, Wrapping,
};
use std::ops::{Range, RangeFrom, RangeInclusive, RangeTo};
use std::rc::Rc;
use std::time::Duration;

impl Readable for Duration {
    type Form = Own;

    ghost form = { only_sized };
}

impl Readable for NonZeroI8 {
    type Form = Own;

    ghost form = { only_sized };
}

impl Readable for NonZeroI16 {
    type Form = Own;

    ghost form = { only_sized };
}

impl Readable for NonZeroI32 {
    type Form = Own;

    ghost form = { only_sized };
}

impl Readable for NonZeroI64 {
    type Form = Own;

    ghost form = { only_sized };
}

impl Readable for NonZeroI128 {
    type Form = Own;

    ghost form = { only_sized };
}

impl Readable for NonZeroIsize {
    type Form = Own;

    ghost form = { only_sized };
}

impl Readable for NonZeroU8 {
    type Form = Own;

    ghost form = { only_sized };
}

impl Readable for NonZeroU16 {
    type Form = Own;

    ghost form = { only_sized };
}

impl Readable for NonZeroU32 {
    type Form = Own;

    ghost form = { only_sized };
}

impl Readable for NonZeroU64 {
    type Form = Own;

    ghost form = { only_sized };
}

impl Readable for NonZeroU128 {
    type Form = Own;

    ghost form = { only_sized };
}

impl Readable for NonZeroUsize {
    type Form = Own;

    ghost form = { only_sized };
}

impl<T> Readable for Rc<T> {
    type Form = Own;

    ghost form = { only_sized };
}

impl<T> Readable for Wrapping<T> {
    type Form = Own;

    ghost form = { only_sized };
}

impl<T> Readable for PhantomData<T> {
    type Form = Own;

    ghost form = { only_sized };
}

impl<T> Readable for Range<T> {
    type Form = Own;

    ghost form = { only_sized };
}

impl<T> Readable for RangeInclusive<T> {
    type Form = Own;

    ghost form = { only_sized };
}

impl<T> Readable for RangeFrom<T> {
    type Form = Own;

    ghost form = { only_sized };
}

impl<T> Readable for RangeTo<T> {
    type Form = Own;

    ghost form = { only_sized };
}
