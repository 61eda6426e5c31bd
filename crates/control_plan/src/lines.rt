//! The lines of a control file, and what stands in one.
ghost use Rattle.std.specs.Prelude.{◌≡◌, ◌<◌, ◌≤◌, length};
ghost use Rattle.std.specs.Char.{is_ascii as ascii};
ghost use Rattle.std.specs.List.{list_all, position_or_len, prefix_len};
ghost use Rattle.std.specs.Str.Lines.{strip_carriage_return};
ghost use Rattle.control_plan.specs.Lines as spec;
ghost use Rattle.control_plan.specs.Lines.{IsFirstLine, is_blank, is_feed, value_in, word_in};

/// How many bytes stand before the first line feed.
fn line_len(bytes: &[u8]) -> usize
    ensures value { result ≡ position_or_len is_feed bytes.now }
    ensures within { result ≤ length bytes.now }
{
    bytes.iter().take_while(|byte| **byte != b'\n').count()
}

/// The first line, and what stands behind it. Behind the last line stands an empty one.
pub(crate) fn cut(bytes: &[u8]) -> (&[u8], &[u8])
    requires { 0 < length bytes.now }
    ensures lines { IsFirstLine bytes.now result.0.now result.1.now }
    ensures shorter { length result.1.now < length bytes.now }
{
    let len = line_len(bytes);
    let line = &bytes[..len];
    if len < bytes.len() {
        (line, &bytes[len + 1..])
    } else {
        (line, b"")
    }
}

/// A line without one carriage return at its end, and then without blanks at its ends.
pub(crate) fn trimmed(line: &[u8]) -> &[u8]
    ensures { result.now ≡ spec.trimmed line.now }
{
    before_blanks(behind_blanks(without_return(line)))
}

/// Whether a line is empty or a comment.
pub(crate) fn says_nothing(line: &[u8]) -> bool
    ensures { result ≡ spec.says_nothing line.now }
{
    match line {
        [] => true,
        [first, ..] => *first == b'#',
    }
}

/// Whether each byte of a line is ASCII.
pub(crate) fn is_ascii(line: &[u8]) -> bool
    ensures { result ≡ list_all ascii line.now }
{
    line.iter().all(|byte| *byte < 128)
}

/// The word of a line, and its value.
pub(crate) fn parted(line: &[u8]) -> (&[u8], &[u8])
    ensures word { result.0.now ≡ word_in line.now }
    ensures value { result.1.now ≡ value_in line.now }
{
    let len = word_len(line);
    (&line[..len], behind_blanks(&line[len..]))
}

/// How many bytes stand before the first blank.
fn word_len(line: &[u8]) -> usize
    ensures value { result ≡ position_or_len is_blank line.now }
    ensures within { result ≤ length line.now }
{
    line.iter()
        .take_while(|byte| **byte != b' ' && **byte != b'\t')
        .count()
}

/// How many blanks stand at the front.
fn blanks_len(line: &[u8]) -> usize
    ensures value { result ≡ prefix_len is_blank line.now }
    ensures within { result ≤ length line.now }
{
    line.iter()
        .take_while(|byte| **byte == b' ' || **byte == b'\t')
        .count()
}

fn without_return(line: &[u8]) -> &[u8]
    ensures { result.now ≡ strip_carriage_return line.now }
{
    match line {
        [front @ .., b'\r'] => front,
        _ => line,
    }
}

fn behind_blanks(line: &[u8]) -> &[u8]
    ensures { result.now ≡ spec.behind_blanks line.now }
{
    &line[blanks_len(line)..]
}

fn before_blanks(line: &[u8]) -> &[u8]
    ensures { result.now ≡ spec.before_blanks line.now }
{
    let mut end = line.len();
    while end > 0 && is_blank_byte(line[end - 1]) {
        end -= 1;
    }
    &line[..end]
}

fn is_blank_byte(byte: u8) -> bool
    ensures { result ≡ is_blank byte }
{
    byte == b' ' || byte == b'\t'
}
