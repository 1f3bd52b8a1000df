//! Names without regard to ASCII case.
ghost use Rattle.std.specs.Prelude.{◌≡◌, map};
ghost use Rattle.vb_value.specs.Folding.{same_name, beside};

/// Whether a name is the word, in any ASCII case.
pub fn is_word(word: &[u8], name: &[char]) -> bool
    ensures { result ≡ same_name word.now name.now }
{
    if word.len() != name.len() {
        return false;
    }
    for i in 0..word.len() {
        if word[i].to_ascii_lowercase() as u32 != name[i].to_ascii_lowercase() as u32 {
            return false;
        }
    }
    true
}

/// What stands beside a name in a table of words. It takes time in the length of the table.
pub fn among<T: Copy>(mut table: &[(&[u8], T)], name: &[char]) -> Option<T>
    ensures { result ≡ beside (map (λ entry. (entry.0.now, entry.1)) table.entry.now) name.now }
{
    while let [entry, rest @ ..] = table {
        if is_word(entry.0, name) {
            return Some(entry.1);
        }
        table = rest;
    }
    None
}
