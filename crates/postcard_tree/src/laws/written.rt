//! Which tree the values of each type are written as.
ghost use Rattle.std.specs.Prelude.{◌≡◌, [], ◌∷◌, Some, map, string_bytes, if◌then◌else◌};
ghost use Rattle.std.specs.Int.{w8, cast_unsigned};
ghost use Rattle.postcard_tree.specs.Tree.{byte, number, character, group, end, parts, group_of, sequence_of, option_writes, result_writes, pair_writes, bytes_of, text_of, zigzag};
ghost use Rattle.postcard_tree.specs.Fixed.{little_endian, big_endian};

use crate::fixint::{BE, FixInt, LE};
use crate::readable::Readable;
use arrayvec::{ArrayString, ArrayVec};
use std::collections::BTreeMap;

/// States that no `bool` or integer refuses itself. Eight bits are a byte; sixteen and more are a number of that width, `usize`
/// and `isize` of 64; the signed ones by zigzag.
pub fn trees_of_numbers()
    ensures truth { (v : _) → ⟦<bool as Readable>⟧.form.writes v ≡ Some
        (byte (if v then 1 else 0)) }
    ensures of_u8 { (v : _) → ⟦<u8 as Readable>⟧.form.writes v ≡ Some (byte v) }
    ensures of_u16 { (v : _) → ⟦<u16 as Readable>⟧.form.writes v ≡ Some (number 16 v) }
    ensures of_u32 { (v : _) → ⟦<u32 as Readable>⟧.form.writes v ≡ Some (number 32 v) }
    ensures of_u64 { (v : _) → ⟦<u64 as Readable>⟧.form.writes v ≡ Some (number 64 v) }
    ensures of_u128 { (v : _) → ⟦<u128 as Readable>⟧.form.writes v ≡ Some (number 128 v) }
    ensures of_usize { (v : _) → ⟦<usize as Readable>⟧.form.writes v ≡ Some (number 64 v) }
    ensures of_i8 { (v : _) → ⟦<i8 as Readable>⟧.form.writes v ≡ Some (byte (cast_unsigned w8 v)) }
    ensures of_i16 { (v : _) → ⟦<i16 as Readable>⟧.form.writes v ≡ Some (number 16 (zigzag v)) }
    ensures of_i32 { (v : _) → ⟦<i32 as Readable>⟧.form.writes v ≡ Some (number 32 (zigzag v)) }
    ensures of_i64 { (v : _) → ⟦<i64 as Readable>⟧.form.writes v ≡ Some (number 64 (zigzag v)) }
    ensures of_i128 { (v : _) → ⟦<i128 as Readable>⟧.form.writes v ≡ Some (number 128 (zigzag v)) }
    ensures of_isize { (v : _) → ⟦<isize as Readable>⟧.form.writes v ≡ Some (number 64 (zigzag v)) }
{}

/// States that a number of a fixed width is the group of its bytes.
#[tactic(auto, unfolding(crate::specs::FixedTree::little_tree, crate::specs::FixedTree::big_tree))]
pub fn trees_of_fixed_numbers<T: FixInt>()
    ensures little { (v : _) → ⟦<LE<T> as Readable>⟧.form.writes v
        ≡ Some (group (bytes_of (little_endian T.size (T.bits v.0)))) }
    ensures big { (v : _) → ⟦<BE<T> as Readable>⟧.form.writes v
        ≡ Some (group (bytes_of (big_endian T.size (T.bits v.0)))) }
{}

/// States that a character is its own kind of tree, and a text the sequence of its bytes.
pub fn trees_of_texts<'a, const N: usize>()
    ensures of_char { (v : _) → ⟦<char as Readable>⟧.form.writes v ≡ Some (character v) }
    ensures of_str { (v : _) → ⟦<&'a str as Readable>⟧.form.writes v ≡ Some (text_of v.now) }
    ensures of_string { (v : _)
        → ⟦<String as Readable>⟧.form.writes v ≡ Some (text_of (string_bytes v)) }
    ensures of_array_string { (v : _)
        → ⟦<ArrayString<N> as Readable>⟧.form.writes v ≡ Some (text_of v.bytes) }
{}

/// States that `()` is an empty group, an array the group of its elements, and what has a length the sequence of its elements.
/// A reference and a box are what they hold; a map is the sequence of its pairs in ascending order of keys. A value refuses
/// itself if a part does.
pub fn trees_of_containers<'a, T: Readable + 'a, E: Readable, K: Readable + Ord, const N: usize>()
    ensures nothing { (v : _) → ⟦<() as Readable>⟧.form.writes v ≡ Some (group end) }
    ensures option { (v : _) → ⟦<Option<T> as Readable>⟧.form.writes v ≡ option_writes
        T.form.writes v }
    ensures of_result { (v : _) → ⟦<Result<T, E> as Readable>⟧.form.writes v
        ≡ result_writes T.form.writes E.form.writes v }
    ensures of_slice { (v : _) → ⟦<&'a [T] as Readable>⟧.form.writes v
        ≡ sequence_of (parts (map T.form.writes v.now)) }
    ensures of_vec { (v : _) → ⟦<Vec<T> as Readable>⟧.form.writes v
        ≡ sequence_of (parts (map T.form.writes v.items)) }
    ensures of_array_vec { (v : _) → ⟦<ArrayVec<T, N> as Readable>⟧.form.writes v
        ≡ sequence_of (parts (map T.form.writes v.items)) }
    ensures of_array { (v : _) → ⟦<[T; N] as Readable>⟧.form.writes v
        ≡ group_of (parts (map T.form.writes v)) }
    ensures of_reference { (v : _) → ⟦<&'a T as Readable>⟧.form.writes v ≡ T.form.writes v.now }
    ensures of_box { (v : _) → ⟦<Box<T> as Readable>⟧.form.writes v ≡ T.form.writes v.value }
    ensures of_map { (v : _) → ⟦<BTreeMap<K, T> as Readable>⟧.form.writes v ≡ sequence_of
        (parts (map (pair_writes K.form.writes T.form.writes) v.entries)) }
{}

/// States that a tuple is the group of its parts.
pub fn trees_of_tuples<
    A: Readable,
    B: Readable,
    C: Readable,
    D: Readable,
    E: Readable,
    F: Readable,
>()
    ensures one { (v : _) → ⟦<(A,) as Readable>⟧.form.writes v ≡ group_of
        (parts (A.form.writes v.0 ∷ [])) }
    ensures two { (v : _) → ⟦<(A, B) as Readable>⟧.form.writes v
        ≡ group_of (parts (A.form.writes v.0 ∷ B.form.writes v.1 ∷ [])) }
    ensures three { (v : _) → ⟦<(A, B, C) as Readable>⟧.form.writes v
        ≡ group_of (parts (A.form.writes v.0 ∷ B.form.writes v.1 ∷ C.form.writes v.2 ∷ [])) }
    ensures four { (v : _) → ⟦<(A, B, C, D) as Readable>⟧.form.writes v ≡ group_of
        (parts (A.form.writes v.0 ∷ B.form.writes v.1 ∷ C.form.writes v.2 ∷ D.form.writes v.3
        ∷ [])) }
    ensures five { (v : _) → ⟦<(A, B, C, D, E) as Readable>⟧.form.writes v ≡ group_of
        (parts (A.form.writes v.0 ∷ B.form.writes v.1 ∷ C.form.writes v.2 ∷ D.form.writes v.3
        ∷ E.form.writes v.4 ∷ [])) }
    ensures six { (v : _) → ⟦<(A, B, C, D, E, F) as Readable>⟧.form.writes v
        ≡ group_of (parts (A.form.writes v.0 ∷ B.form.writes v.1 ∷ C.form.writes v.2
        ∷ D.form.writes v.3
        ∷ E.form.writes v.4 ∷ F.form.writes v.5 ∷ [])) }
{}
