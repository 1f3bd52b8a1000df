//! Lines.
ghost use Rattle.std.specs.Prelude.{◌≡◌, ◌^◌, ◌<◌, ◌≤◌, drop, length};
ghost use Rattle.vb_value.specs.Lines as spec;

/// Whether a line ends with the character at the place `at`: LF, or CR with no LF behind it.
pub fn ends_line(text: &[char], at: usize) -> bool
    requires { at < length text.now }
    ensures { result ≡ spec.ends_line (drop at text.now) }
{
    match text[at] {
        '\n' => true,
        '\r' => text.get(at + 1) != Some(&'\n'),
        _ => false,
    }
}

/// How many of the first `count` characters of a text end a line. Of CR LF the LF does.
pub fn line_ends(count: usize, text: &[char]) -> u32
    requires within { count ≤ length text.now }
    requires small { count < 2 ^ 32 }
    ensures value { result ≡ spec.line_ends count text.now }
    ensures small { result ≤ count }
{
    let mut found = 0;
    for at in 0..count {
        if ends_line(text, at) {
            found += 1;
        }
    }
    found
}
