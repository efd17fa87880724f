//! Types of the language, and those that aren't read, with what they are sent as.
use crate::texts::{is_listed, row_of};

/// Types of the language.
const PRIMITIVE: &str = "bool char f32 f64 i8 i16 i32 i64 i128 isize str u8 u16 u32 u64 u128 usize";

/// Those that have a type in `std::sync::atomic` or `std::num` of their own.
const WHOLE: &str = "bool i8 i16 i32 i64 i128 isize u8 u16 u32 u64 u128 usize";

/// The names of those that aren't read, and the type to write.
const SENT_AS: &[&str] = &[
    "Bound: enum Bound<T> { Unbounded, Included(T), Excluded(T) }",
    "CStr: &'a [u8]",
    "CString: Vec<u8>",
    "Duration SystemTime: (u64, u32)",
    "IpAddr: enum IpAddr { V4([u8; 4]), V6([u8; 16]) }",
    "Ipv4Addr: [u8; 4]",
    "Ipv6Addr: [u8; 16]",
    "NonZero: T",
    "OsString: enum OsString { Unix(Vec<u8>), Windows(Vec<u16>) }",
    "Path: &'a str",
    "PathBuf: String",
    "Range RangeInclusive: (T, T)",
    "RangeFrom RangeTo: (T,)",
    "SocketAddr: enum SocketAddr { V4(([u8; 4], u16)), V6(([u8; 16], u16)) }",
    "SocketAddrV4: ([u8; 4], u16)",
    "SocketAddrV6: ([u8; 16], u16)",
];

/// As what a type is sent that isn't read, if that is known. `AtomicU8` and `NonZeroU8` are sent as `u8`, others of these names likewise.
pub fn sent_as(word: &str) -> Option<&'static str> {
    let number = word.strip_prefix("Atomic").or(word.strip_prefix("NonZero"));
    for known in WHOLE.split_whitespace() {
        if known.eq_ignore_ascii_case(number.unwrap_or("")) {
            return Some(known);
        }
    }
    row_of(SENT_AS, word)
}

/// Whether a word is a type of the language.
pub fn is_primitive(word: &str) -> bool {
    is_listed(word, PRIMITIVE)
}
