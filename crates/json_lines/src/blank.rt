//! Blank lines.

ghost use Rattle.std.specs.Prelude.{◌≡◌};
ghost use Rattle.json_lines.specs.Lines.{is_blank as is_blank_line};

/// Whether a line has nothing but spaces, tabs and carriage returns. The test stops at the first other byte.
pub fn is_blank(line: &[u8]) -> bool
    ensures { result ≡ is_blank_line line.now }
{
    line.iter()
        .all(|byte| *byte == b' ' || *byte == b'\t' || *byte == b'\r')
}
