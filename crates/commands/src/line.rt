// A group as a line of text.
ghost use Rattle.std.specs.Prelude.{◌≡◌, ◌<◌};
ghost use Rattle.commands.specs.Lines.{digit, line_of};

// The bytes of a line.
pub(crate) const LINE: usize = 67;

fn digit(n: u8) -> u8
    requires { n < 16 }
    ensures { result ≡ digit n }
{
    if n < 10 { b'0' + n } else { b'a' - 10 + n }
}

// Bit 0, a space, the 32 octets in hexadecimal and a line feed. By index, since with `hex` a group took twice as long.
pub(crate) fn line(group: &[u8; 33]) -> [u8; LINE]
    ensures { result ≡ line_of group.now }
{
    let mut text = [b'\n'; LINE];
    text[0] = digit(group[0] % 16);
    text[1] = b' ';
    for i in 0..32usize {
        text[2 + 2 * i] = digit(group[1 + i] / 16);
        text[3 + 2 * i] = digit(group[1 + i] % 16);
    }
    text
}
