//! Bytes as hexadecimal text.
ghost use Rattle.std.specs.Prelude.{◌≡◌, ◌*◌, Some, length};
ghost use Rattle.std.specs.Fmt.{DisplaysOnOk};
ghost use Rattle.hex.specs.Hex.{encode_lower};

use std::fmt;

/// Writes the bytes as lower-case hexadecimal digits. `room` is twice as long as the bytes, and
/// what it holds afterwards is left open.
pub fn write_hex<W: fmt::Write>(
    f: &mut fmt::Formatter<W>,
    bytes: &[u8],
    room: &mut [u8],
) -> fmt::Result
    requires { length room.old ≡ 2 * length bytes.now }
    ensures { DisplaysOnOk W.write_str_gives f.old result (Some (encode_lower bytes.now)) f.new }
{
    if hex::encode_to_slice(bytes, room).is_err() {
        return Err(fmt::Error);
    }
    match str::from_utf8(room) {
        Ok(text) => f.write_str(text),
        Err(_) => Err(fmt::Error),
    }
}
