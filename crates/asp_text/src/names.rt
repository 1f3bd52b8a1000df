//! Paths of files without regard to ASCII case.
ghost use Rattle.std.specs.Prelude.{◌≡◌};
ghost use Rattle.vb_value.specs.Folding.{same_name};

/// Whether two paths name the same file of a site.
pub fn same_path(one: &[char], other: &[char]) -> bool
    ensures { result ≡ same_name one.now other.now }
{
    if one.len() != other.len() {
        return false;
    }
    for i in 0..one.len() {
        if one[i].to_ascii_lowercase() != other[i].to_ascii_lowercase() {
            return false;
        }
    }
    true
}
