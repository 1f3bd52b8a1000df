//! What the ending of a file's path says of the file.
ghost use Rattle.std.specs.Prelude.{◌≡◌};
ghost use Rattle.asp_site.specs.Endings as spec;

use vb_value::is_word;

/// Whether the path ends in these characters, without regard to ASCII case.
pub fn has_ending(path: &[char], ending: &[u8]) -> bool
    ensures { result ≡ spec.has_ending ending.now path.now }
{
    let (_, end) = path.split_at(path.len().saturating_sub(ending.len()));
    is_word(ending, end)
}

/// Whether the file at this path is a page.
pub fn is_page(path: &[char]) -> bool
    ensures { result ≡ spec.is_page path.now }
{
    has_ending(path, b".asp")
}

/// Whether the file at this path is served as it is.
pub fn is_static(path: &[char]) -> bool
    ensures { result ≡ spec.is_static path.now }
{
    !(is_page(path) || has_ending(path, b".asa") || has_ending(path, b".inc"))
}

/// Whether the file at this path is that of the site's events.
pub fn is_global(path: &[char]) -> bool
    ensures { result ≡ spec.is_global path.now }
{
    is_word(b"/global.asa", path)
}

/// The media type of the static file at this path (RFC 9110, section 8.3.1).
pub fn media_type(path: &[char]) -> &'static str
    ensures { result.now ≡ spec.media_type_of path.now }
{
    if has_ending(path, b".htm") || has_ending(path, b".html") {
        return "text/html";
    }
    if has_ending(path, b".txt") {
        return "text/plain";
    }
    if has_ending(path, b".css") {
        return "text/css";
    }
    if has_ending(path, b".js") {
        return "text/javascript";
    }
    if has_ending(path, b".xml") {
        return "text/xml";
    }
    if has_ending(path, b".gif") {
        return "image/gif";
    }
    if has_ending(path, b".png") {
        return "image/png";
    }
    if has_ending(path, b".jpg") {
        return "image/jpeg";
    }
    if has_ending(path, b".ico") {
        return "image/x-icon";
    }
    "application/octet-stream"
}
