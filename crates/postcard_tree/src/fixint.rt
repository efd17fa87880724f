//! Numbers of a fixed width: two, four, eight or sixteen bytes, whatever the number.
ghost use Rattle.std.specs.Prelude.{◌≡◌, ◌<◌, ◌≤◌, ◌^◌, ℕ, length, refl};
ghost use Rattle.std.specs.Int.{w16, w32, w64, w128, cast_unsigned, cast_signed};
ghost use Rattle.std.specs.Int.RustNames.{FitsSigned};
ghost use Rattle.postcard_tree.specs.Fixed.{little_endian, big_endian, FixedLaws};
ghost use Rattle.postcard_tree.specs.FixedOnce.{unsigned_laws, signed_fixed_laws};

/// An integer type of 16 to 128 bits, signed or not, that can be written as its bytes.
///
/// # Example
/// ```rust
/// fn is_put<T: FixInt>(value: T, little: &[u8], big: &[u8]) -> bool {
///     are_equal(LE(value).put(&mut [0; 16]), little) && are_equal(BE(value).put(&mut [0; 16]), big)
/// }
/// ```
pub trait FixInt: Copy {
    /// How many bytes it has.
    ghost size: { ℕ };

    /// Being a value of the type: within its range.
    ghost in_range: { Self → Type 0 };

    /// A value's bits as a number: of a negative value its two's complement.
    ghost bits: { Self → ℕ };

    /// The value that has these bits.
    ghost of_bits: { ℕ → Self };

    /// The values in range and the numbers below `256 ^ size` correspond one to one.
    ghost laws: { FixedLaws size in_range bits of_bits };

    /// Returns how many bytes the type has.
    fn size() -> usize
        ensures is { result ≡ size }
        ensures small { result ≤ 16 };

    /// Returns the bits as a number: of a negative value its two's complement.
    fn to_bits(self) -> u128
        ensures is { result ≡ bits self }
        ensures in_range { in_range self };

    /// Returns the value that has these bits.
    ///
    /// # Requires
    /// `n` is below `256 ^ size`.
    fn from_bits(n: u128) -> Self
        requires { n < 256 ^ size }
        ensures { result ≡ of_bits n };
}

/// A number that is written as its bytes, lowest first: `LE(0xABCDu16)` is `CD AB`.
///
/// Example: see [`FixInt`].
#[derive(Clone, Copy, Debug, Default, PartialEq, Eq, PartialOrd, Ord, Drop)]
pub struct LE<T: FixInt>(pub T);

/// A number that is written as its bytes, highest first: `BE(0xABCDu16)` is `AB CD`.
///
/// Example: see [`FixInt`].
#[derive(Clone, Copy, Debug, Default, PartialEq, Eq, PartialOrd, Ord, Drop)]
pub struct BE<T: FixInt>(pub T);

// Writes the lowest bytes of a number, lowest first.
fn put_bytes(n: u128, out: &mut [u8])
    ensures { out.new ≡ little_endian (length out.old) n }
{
    let mut rest = n;
    for i in 0..out.len() {
        out[i] = (rest % 256) as u8;
        rest /= 256;
    }
}

// Returns the number of these bytes, lowest first.
fn little_number(bytes: &[u8]) -> u128
    requires { length bytes.now ≤ 16 }
    ensures bytes { little_endian (length bytes.now) result ≡ bytes.now }
    ensures fits { result < 256 ^ length bytes.now }
{
    let mut n: u128 = 0;
    let mut i = bytes.len();
    while 0 < i {
        i -= 1;
        n = n * 256 + u128::from(bytes[i]);
    }
    n
}

// Returns the number of these bytes, highest first.
fn big_number(bytes: &[u8]) -> u128
    requires { length bytes.now ≤ 16 }
    ensures bytes { big_endian (length bytes.now) result ≡ bytes.now }
    ensures fits { result < 256 ^ length bytes.now }
{
    let mut n: u128 = 0;
    for i in 0..bytes.len() {
        n = n * 256 + u128::from(bytes[i]);
    }
    n
}

impl<T: FixInt> LE<T> {
    /// Writes the bytes of the number to the start of a buffer, lowest first, and returns them. The bytes after them aren't
    /// specified.
    ///
    /// # Example
    /// ```rust
    /// is_put(0xABCDu16, &[0xCD, 0xAB], &[0xAB, 0xCD]),
    /// is_put(-2i16, &[0xFE, 0xFF], &[0xFF, 0xFE]),
    /// LE::<i16>::from_bytes(&[0xFE, 0xFF]).0 == -2,
    /// ```
    pub fn put<'a>(&self, buffer: &'a mut [u8; 16]) -> &'a mut [u8]
        ensures bytes { result.now ≡ little_endian T.size (T.bits self.now.0) }
        ensures sized { length result.now ≡ T.size }
        ensures in_range { T.in_range self.now.0 }
    {
        let front = &mut buffer[..T::size()];
        put_bytes(self.0.to_bits(), front);
        front
    }

    /// Returns the number that has these bytes, lowest first.
    ///
    /// # Requires
    /// `bytes` has exactly as many bytes as the type (`FixInt::size`).
    pub fn from_bytes(bytes: &[u8]) -> LE<T>
        requires { length bytes.now ≡ T.size }
        ensures bytes { little_endian T.size (T.bits result.0) ≡ bytes.now }
        ensures in_range { T.in_range result.0 }
    {
        LE(T::from_bits(little_number(bytes)))
    }
}

impl<T: FixInt> BE<T> {
    /// Writes the bytes of the number to the start of a buffer, highest first, and returns them. The bytes after them aren't
    /// specified.
    ///
    /// # Example
    /// ```rust
    /// BE::<u16>::from_bytes(&[0xAB, 0xCD]).0 == 0xABCD,
    /// BE(0xABCDu16).put(&mut fixed).len() == 2,
    /// begin_with(&fixed, &[0xAB, 0xCD]),
    /// ```
    pub fn put<'a>(&self, buffer: &'a mut [u8; 16]) -> &'a mut [u8]
        ensures bytes { result.now ≡ big_endian T.size (T.bits self.now.0) }
        ensures sized { length result.now ≡ T.size }
        ensures in_range { T.in_range self.now.0 }
    {
        let front = LE(self.0).put(buffer);
        front.reverse();
        front
    }

    /// Returns the number that has these bytes, highest first.
    ///
    /// # Requires
    /// `bytes` has exactly as many bytes as the type (`FixInt::size`).
    pub fn from_bytes(bytes: &[u8]) -> BE<T>
        requires { length bytes.now ≡ T.size }
        ensures bytes { big_endian T.size (T.bits result.0) ≡ bytes.now }
        ensures in_range { T.in_range result.0 }
    {
        BE(T::from_bits(big_number(bytes)))
    }
}

impl FixInt for u16 {
    ghost size = { 2 };

    ghost in_range = { λ v. v < 2 ^ 16 };

    ghost bits = { λ v. v };

    ghost of_bits = { λ n. n };

    fn size() -> usize {
        size_of::<u16>()
    }

    fn to_bits(self) -> u128 {
        u128::from(self)
    }

    fn from_bits(n: u128) -> u16 {
        n as u16
    }

    ghost laws = { unsigned_laws 2 refl };
}

impl FixInt for u32 {
    ghost size = { 4 };

    ghost in_range = { λ v. v < 2 ^ 32 };

    ghost bits = { λ v. v };

    ghost of_bits = { λ n. n };

    fn size() -> usize {
        size_of::<u32>()
    }

    fn to_bits(self) -> u128 {
        u128::from(self)
    }

    fn from_bits(n: u128) -> u32 {
        n as u32
    }

    ghost laws = { unsigned_laws 4 refl };
}

impl FixInt for u64 {
    ghost size = { 8 };

    ghost in_range = { λ v. v < 2 ^ 64 };

    ghost bits = { λ v. v };

    ghost of_bits = { λ n. n };

    fn size() -> usize {
        size_of::<u64>()
    }

    fn to_bits(self) -> u128 {
        u128::from(self)
    }

    fn from_bits(n: u128) -> u64 {
        n as u64
    }

    ghost laws = { unsigned_laws 8 refl };
}

impl FixInt for u128 {
    ghost size = { 16 };

    ghost in_range = { λ v. v < 2 ^ 128 };

    ghost bits = { λ v. v };

    ghost of_bits = { λ n. n };

    fn size() -> usize {
        size_of::<u128>()
    }

    fn to_bits(self) -> u128 {
        self
    }

    fn from_bits(n: u128) -> u128 {
        n
    }

    ghost laws = { unsigned_laws 16 refl };
}

impl FixInt for i16 {
    ghost size = { 2 };

    ghost in_range = { FitsSigned w16 };

    ghost bits = { cast_unsigned w16 };

    ghost of_bits = { cast_signed w16 };

    fn size() -> usize {
        size_of::<i16>()
    }

    fn to_bits(self) -> u128 {
        u128::from(self.cast_unsigned())
    }

    fn from_bits(n: u128) -> i16 {
        (n as u16).cast_signed()
    }

    ghost laws = { signed_fixed_laws w16 2 refl refl };
}

impl FixInt for i32 {
    ghost size = { 4 };

    ghost in_range = { FitsSigned w32 };

    ghost bits = { cast_unsigned w32 };

    ghost of_bits = { cast_signed w32 };

    fn size() -> usize {
        size_of::<i32>()
    }

    fn to_bits(self) -> u128 {
        u128::from(self.cast_unsigned())
    }

    fn from_bits(n: u128) -> i32 {
        (n as u32).cast_signed()
    }

    ghost laws = { signed_fixed_laws w32 4 refl refl };
}

impl FixInt for i64 {
    ghost size = { 8 };

    ghost in_range = { FitsSigned w64 };

    ghost bits = { cast_unsigned w64 };

    ghost of_bits = { cast_signed w64 };

    fn size() -> usize {
        size_of::<i64>()
    }

    fn to_bits(self) -> u128 {
        u128::from(self.cast_unsigned())
    }

    fn from_bits(n: u128) -> i64 {
        (n as u64).cast_signed()
    }

    ghost laws = { signed_fixed_laws w64 8 refl refl };
}

impl FixInt for i128 {
    ghost size = { 16 };

    ghost in_range = { FitsSigned w128 };

    ghost bits = { cast_unsigned w128 };

    ghost of_bits = { cast_signed w128 };

    fn size() -> usize {
        size_of::<i128>()
    }

    fn to_bits(self) -> u128 {
        self.cast_unsigned()
    }

    fn from_bits(n: u128) -> i128 {
        n.cast_signed()
    }

    ghost laws = { signed_fixed_laws w128 16 refl refl };
}
