// Numbers in hexadecimal, behind all that a page has room for.
ghost use Rattle.std.specs.Prelude.{◌≡◌, ◌+◌, ◌*◌, ◌<◌, ◌≤◌, ◌++◌, length};
ghost use Rattle.filter_report.specs.Hex.{hex_digit, hex_of};

use text::Page;

pub(crate) fn hex_digit(digit: u8) -> u8
    requires { digit < 16 }
    ensures { result ≡ hex_digit digit }
{
    match digit {
        0..=9 => b'0' + digit,
        _ => b'A' - 10 + digit,
    }
}

// Bytes in hexadecimal.
pub(crate) fn put_hex(bytes: &[u8], page: &mut Page<512>)
    requires { length page.old + 2 * length bytes.now ≤ 512 }
    ensures { page.new ≡ page.old ++ hex_of bytes.now }
{
    for byte in bytes {
        page.add(&[hex_digit(*byte / 16), hex_digit(*byte % 16)]);
    }
}
