//! Integers that are sent as their bytes, two to sixteen of them.
ghost use Rattle.std.specs.Prelude.{◌≡◌, refl};
ghost use Rattle.schema_table.specs.declared.integer.IntegerType.{IntegerType as Types};
ghost use Rattle.schema_table.specs.declared.integer.IntegerType.TheVariants as types;
ghost use Rattle.schema_table.specs.Integers.{width_of, type_of, bits_in};

use postcard_tree::fixint::FixInt;

/// An integer type of 16 to 128 bits.
///
/// # Example
/// ```rust
/// self.add(Node::LE(IntegerType::U16));
/// self.add(Node::BE(IntegerType::U16));
/// ```
#[derive(Clone, Copy, Debug, PartialEq, Eq, Drop)]
pub enum IntegerType {
    /// `u16`.
    U16,
    /// `u32`.
    U32,
    /// `u64`.
    U64,
    /// `u128`.
    U128,
    /// `i16`.
    I16,
    /// `i32`.
    I32,
    /// `i64`.
    I64,
    /// `i128`.
    I128,
}

/// An integer with its type.
///
/// Example: see [`HasIntegerType`].
#[derive(Clone, Copy, Debug, PartialEq, Eq, Drop)]
pub enum Integer {
    /// A number of 16 bits.
    U16(u16),
    /// A number of 32 bits.
    U32(u32),
    /// A number of 64 bits.
    U64(u64),
    /// A number of 128 bits.
    U128(u128),
    /// A signed number of 16 bits.
    I16(i16),
    /// A signed number of 32 bits.
    I32(i32),
    /// A signed number of 64 bits.
    I64(i64),
    /// A signed number of 128 bits.
    I128(i128),
}

/// A Rust type that is one of the integer types.
///
/// # Example
/// ```rust
/// check(
///     &rt,
///     <u16 as HasIntegerType>::integer_type() == IntegerType::U16,
/// );
/// check(&rt, 5u16.integer() == Integer::U16(5));
/// ```
pub trait HasIntegerType: FixInt {
    /// Which one.
    ghost which: { Types };

    /// Returns which one.
    fn integer_type() -> IntegerType
        ensures { result ≡ which };

    /// Returns the number with its type.
    fn integer(self) -> Integer
        ensures of_type { type_of result ≡ which }
        ensures bits { bits_in result ≡ Self.bits self };

    /// The type has so many bytes.
    ghost wide: { width_of which ≡ Self.size };
}

impl HasIntegerType for u16 {
    ghost which = { types.U16 };

    fn integer_type() -> IntegerType {
        IntegerType::U16
    }

    fn integer(self) -> Integer {
        Integer::U16(self)
    }

    ghost wide = { refl };
}

impl HasIntegerType for u32 {
    ghost which = { types.U32 };

    fn integer_type() -> IntegerType {
        IntegerType::U32
    }

    fn integer(self) -> Integer {
        Integer::U32(self)
    }

    ghost wide = { refl };
}

impl HasIntegerType for u64 {
    ghost which = { types.U64 };

    fn integer_type() -> IntegerType {
        IntegerType::U64
    }

    fn integer(self) -> Integer {
        Integer::U64(self)
    }

    ghost wide = { refl };
}

impl HasIntegerType for u128 {
    ghost which = { types.U128 };

    fn integer_type() -> IntegerType {
        IntegerType::U128
    }

    fn integer(self) -> Integer {
        Integer::U128(self)
    }

    ghost wide = { refl };
}

impl HasIntegerType for i16 {
    ghost which = { types.I16 };

    fn integer_type() -> IntegerType {
        IntegerType::I16
    }

    fn integer(self) -> Integer {
        Integer::I16(self)
    }

    ghost wide = { refl };
}

impl HasIntegerType for i32 {
    ghost which = { types.I32 };

    fn integer_type() -> IntegerType {
        IntegerType::I32
    }

    fn integer(self) -> Integer {
        Integer::I32(self)
    }

    ghost wide = { refl };
}

impl HasIntegerType for i64 {
    ghost which = { types.I64 };

    fn integer_type() -> IntegerType {
        IntegerType::I64
    }

    fn integer(self) -> Integer {
        Integer::I64(self)
    }

    ghost wide = { refl };
}

impl HasIntegerType for i128 {
    ghost which = { types.I128 };

    fn integer_type() -> IntegerType {
        IntegerType::I128
    }

    fn integer(self) -> Integer {
        Integer::I128(self)
    }

    ghost wide = { refl };
}
