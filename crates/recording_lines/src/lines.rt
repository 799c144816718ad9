//! Lines, and the limits of a recording.
ghost use Rattle.std.specs.Prelude.{◌≡◌, ◌==◌, position};
ghost use Rattle.recording_lines.specs.Lines.{newline, is_blank, IsFirstPiece};

/// The byte that ends a line.
pub const NEWLINE: u8 = b'\n';

/// How many bytes of a recording are looked at.
pub const MOST_BYTES: usize = 1 << 30;

/// How many bytes a line may have without its newline, where its reader has no other limit.
pub const LONGEST_LINE: usize = 1 << 20;

/// Whether the line has spaces, tabs and returns alone.
pub fn is_blank(line: &[u8]) -> bool
    ensures { result ≡ is_blank line.now }
{
    line.iter()
        .all(|byte| *byte == b' ' || *byte == b'\t' || *byte == b'\r')
}

// The bytes before the first newline, or all, and whether there is a newline.
pub(crate) fn first_piece(bytes: &[u8]) -> (&[u8], bool)
    ensures { IsFirstPiece bytes.now result.0.now result.1 }
{
    match newline_at(bytes) {
        Some(end) => (&bytes[..end], true),
        None => (bytes, false),
    }
}

// Where the first newline stands.
fn newline_at(bytes: &[u8]) -> Option<usize>
    ensures { result ≡ position (λ c. c == newline) bytes.now }
{
    bytes.iter().position(|byte| *byte == NEWLINE)
}
