// The lines of a source.
ghost use Rattle.std.specs.Prelude.{◌≡◌, ◌<◌};
ghost use Rattle.sy_base.specs.SourceLine.{source_line, without_last};

use bstr::ByteSlice;

// Bytes without this one at their end, where it stands there.
fn without_last<'a>(bytes: &'a [u8], last: u8) -> &'a [u8]
    requires { 0 < last }
    ensures { result.now ≡ without_last bytes.now last }
{
    if !bytes.is_empty() && bytes[bytes.len() - 1] == last {
        &bytes[..bytes.len() - 1]
    } else {
        bytes
    }
}

/// The line of a source with this number, counted from 1, without its line feed and the carriage return before it.
///
/// It is empty for the number 0 and past the last line.
pub fn source_line<'a>(source: &'a [u8], line: u32) -> &'a [u8]
    ensures { result.now ≡ source_line source.now line }
{
    if line == 0 {
        return &[];
    }
    match source.lines_with_terminator().nth(line as usize - 1) {
        Some(found) => without_last(without_last(found, b'\n'), b'\r'),
        None => &[],
    }
}
