//! Which lines divide items.
ghost use Rattle.def_format.specs.Lines.{has_line_feed};
ghost use Rattle.read_items.specs.Items.{is_divider, with_line_feed};
ghost use Rattle.std.specs.Prelude.{◌≡◌, false};

/// Whether a line, which is without its LF, divides items.
pub(crate) fn is_divider(line: &[u8]) -> bool
    ensures ended { result ≡ is_divider (with_line_feed line.now) }
    ensures unended { has_line_feed line.now ≡ false → result ≡ is_divider line.now }
{
    line == b"===".as_slice() || line == b"===\r".as_slice()
}
