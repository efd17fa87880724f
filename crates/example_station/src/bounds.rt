//! What generic code may ask of a type, and of the variants of an enum.
//!
//! A type has most of its traits by its form: `type Form` of `Readable`. The shape of an enum has them by its variants.
use postcard::experimental::max_size::{
    MaxSizeForm, MaxSizeVariants, MaxWrittenForm, MaxWrittenVariants,
};
use postcard::laws::round_trip;
use postcard::ser_flavors::ExtendBytes;
use postcard::{
    Deserialize, Deserializer, ExactForm, ExactVariants, Lawful, Readable, Result, Serialize,
    VariantsGrow, de_flavors, to_extend,
};
use postcard_de::{DeserializeVariants, DeserializeVariantsOwned};
use postcard_ser::{LawfulVariants, SerializeVariants};
use postcard_tree::ReadableVariants;
use std::alloc::Global;

/// Writes a value and reads it again. What is read is alike the value, as the contract of `round_trip` says.
pub fn there_and_back<'a, T: Lawful + Deserialize<&'a [u8]>>(
    alloc: Global,
    value: &T,
    room: &'a mut [u8],
) -> Result<(T, &'a [u8])> {
    round_trip(alloc, value, &[], room)
}

/// Appends a value twice, to a vector that grows or one of a fixed capacity.
pub fn append_twice<T: Serialize, W: ExtendBytes>(value: &T, vector: W) -> Result<W> {
    let vector = to_extend(value, vector)?;
    to_extend(value, vector)
}

/// The maximum size of a type that has one by its form.
pub fn size_by_form<M: Readable>() -> Option<usize>
where
    M::Form: MaxSizeForm<M>,
{
    <M::Form as MaxSizeForm<M>>::form_max_size()
}

/// Compiles only for a type that is exact and has a maximum size, by its form.
pub fn is_bounded_and_exact<M: Serialize>()
where
    M::Form: ExactForm<M> + MaxWrittenForm<M>,
{}

/// Compiles only for variants of which each is written in a maximum size, and read as it was written, without a map in any.
pub fn are_bounded_and_exact<
    V: ReadableVariants + LawfulVariants + MaxWrittenVariants + ExactVariants,
>() {}

/// The index of a value's variant, the maximum size of all, and whether reading one can allocate.
pub fn seen_of<V: SerializeVariants + MaxSizeVariants + VariantsGrow>(
    variants: &V,
) -> (Option<u32>, Option<usize>, bool) {
    (variants.index(), V::greatest_from(0), V::variants_grow())
}

/// Reads the payload of a variant whose index is known, borrowing or not.
pub fn payload<B: de_flavors::Bytes, F: de_flavors::Flavor<Taken = B>, V: DeserializeVariants<B>>(
    d: &mut Deserializer<F>,
    index: u32,
) -> Result<V> {
    V::deserialize_at(d, index)
}

/// The same without borrowing.
pub fn payload_owned<F: de_flavors::Flavor, V: DeserializeVariantsOwned>(
    d: &mut Deserializer<F>,
    index: u32,
) -> Result<V> {
    V::deserialize_owned_at(d, index)
}
