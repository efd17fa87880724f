ghost use Rattle.std.specs.Prelude.{◌≡◌, ◌*◌, ◌<◌, ◌≤◌, length, take};
ghost use Rattle.hex.specs.Hex.{encode_lower};
ghost use Rattle.framed_lib.specs.Program.{shown_end};

/// Writes the hexadecimal digits of the bytes, in lower case, to the front of the buffer, and returns how many they are.
pub fn put_digits(bytes: &[u8], room: &mut [u8]) -> usize
    requires { 2 * length bytes.now ≤ length room.old }
    ensures digits { take result room.new ≡ encode_lower bytes.now }
    ensures count { result ≡ 2 * length bytes.now }
    ensures long { length room.new ≡ length room.old }
{
    let count = 2 * bytes.len();
    let encoded = hex::encode_to_slice(bytes, &mut room[..count]);
    prove!(encoded.is_ok());
    count
}

/// Writes what follows all framed bytes to the front of the buffer, the line feed after hexadecimal digits, and returns its length.
pub fn put_end(hex: bool, room: &mut [u8]) -> usize
    requires { 0 < length room.old }
    ensures end { take result room.new ≡ shown_end hex }
    ensures within { result ≤ length room.new }
    ensures long { length room.new ≡ length room.old }
{
    if !hex {
        return 0;
    }
    room[0] = b'\n';
    1
}
