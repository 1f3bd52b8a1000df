//! What holds of the definitions, whoever writes the texts.
ghost use Rattle.std.specs.Prelude.{◌≡◌, ℕ, List};
ghost use Rattle.asp_text.specs.Html.{html_encoded};
ghost use Rattle.asp_text.specs.Laws.{IsHtmlOf, IsNormal, IsText, IsUrlOf};
ghost use Rattle.asp_text.specs.Path.{normal_path_of, resolved};
ghost use Rattle.asp_text.specs.Url.{url_encoded};

/// The HTML of a text has no mark of its own, and is read as the text.
pub fn html_reads_back()
    ensures { (text : List ℕ) → IsText text → IsHtmlOf text (html_encoded text) }
{}

/// A text in a URL has letters, digits, `+` and escapes alone, and is read as the text's UTF-8.
pub fn urls_read_back()
    ensures { (text : List ℕ) → IsText text → IsUrlOf text (url_encoded text) }
{}

/// A normal path has names alone between its slashes: no `.`, no `..`, and nothing empty but at its end.
pub fn normal_paths_are_normal()
    ensures { (raw path : List ℕ) → normal_path_of raw ≡ Ok path → IsNormal path }
{}

/// A normal path stays as it is when its segments are followed again.
pub fn normal_paths_stay()
    ensures { (path : List ℕ) → IsNormal path → resolved path ≡ Ok path }
{}
