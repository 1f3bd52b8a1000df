//! Script elements, which hold declarations alone.
ghost use Rattle.std.specs.Prelude.{◌≡◌};
ghost use Rattle.page_build.specs.Declaring as spec;

use vb_value::{Keyword, Symbol, Token, TokenKind};

/// What has a body of its own.
#[derive(Clone, Copy)]
pub enum Body {
    /// From `Sub` to `End Sub`.
    Sub,
    /// From `Function` to `End Function`.
    Function,
    /// From `Class` to `End Class`.
    Class,
}

/// What a word is to declarations.
#[derive(Clone, Copy)]
pub enum Mark {
    /// A line end or a colon.
    Separates,
    /// `Public` or `Private`.
    Access,
    /// `Dim` or `Const`.
    Declares,
    /// The word with which a body begins.
    Opens(Body),
    /// `End`.
    End,
    /// Any other word.
    Other,
}

/// Where a word of an element stands.
#[derive(Clone, Copy)]
pub enum Standing {
    /// At the beginning of a declaration.
    First,
    /// Behind `Public` or `Private`.
    Access,
    /// Further on in a declaration, or behind a body.
    Rest,
    /// In a body.
    Inside(Body),
    /// In a body, behind `End`.
    Ending(Body),
}

fn keyword_mark(keyword: Keyword) -> Mark
    ensures { result ≡ spec.keyword_mark keyword }
{
    match keyword {
        Keyword::Public => Mark::Access,
        Keyword::Private => Mark::Access,
        Keyword::Dim => Mark::Declares,
        Keyword::Const => Mark::Declares,
        Keyword::Sub => Mark::Opens(Body::Sub),
        Keyword::Function => Mark::Opens(Body::Function),
        Keyword::Class => Mark::Opens(Body::Class),
        Keyword::End => Mark::End,
        _ => Mark::Other,
    }
}

fn mark_of(kind: &TokenKind) -> Mark
    ensures { result ≡ spec.mark_of kind.now }
{
    match kind {
        TokenKind::LineEnd => Mark::Separates,
        TokenKind::Symbol(Symbol::Colon) => Mark::Separates,
        TokenKind::Keyword(keyword) => keyword_mark(*keyword),
        _ => Mark::Other,
    }
}

fn is_same(body: Body, other: Body) -> bool
    ensures { result ≡ spec.is_same body other }
{
    match (body, other) {
        (Body::Sub, Body::Sub) => true,
        (Body::Function, Body::Function) => true,
        (Body::Class, Body::Class) => true,
        _ => false,
    }
}

/// Where the next word stands, behind the word that stands behind `End` in a body.
fn behind_end(body: Body, mark: Mark) -> Standing
    ensures { result ≡ spec.behind_end body mark }
{
    match mark {
        Mark::Opens(other) => {
            if is_same(body, other) {
                Standing::Rest
            } else {
                Standing::Inside(body)
            }
        }
        Mark::End => Standing::Ending(body),
        _ => Standing::Inside(body),
    }
}

/// Where the next word stands, where this one is of a declaration.
fn next_standing(standing: Standing, mark: Mark) -> Option<Standing>
    ensures { result ≡ spec.next_standing standing mark }
{
    match (standing, mark) {
        (Standing::First, Mark::Separates) => Some(Standing::First),
        (Standing::First, Mark::Access) => Some(Standing::Access),
        (Standing::First, Mark::Declares) => Some(Standing::Rest),
        (Standing::First, Mark::Opens(body)) => Some(Standing::Inside(body)),
        (Standing::First, _) => None,
        (Standing::Access, Mark::Separates) => Some(Standing::First),
        (Standing::Access, Mark::Opens(body)) => Some(Standing::Inside(body)),
        (Standing::Access, _) => Some(Standing::Rest),
        (Standing::Rest, Mark::Separates) => Some(Standing::First),
        (Standing::Rest, _) => Some(Standing::Rest),
        (Standing::Inside(body), Mark::End) => Some(Standing::Ending(body)),
        (Standing::Inside(body), _) => Some(Standing::Inside(body)),
        (Standing::Ending(body), mark) => Some(behind_end(body, mark)),
    }
}

fn is_open(standing: Standing) -> bool
    ensures { result ≡ spec.is_open standing }
{
    match standing {
        Standing::Inside(_) => true,
        Standing::Ending(_) => true,
        _ => false,
    }
}

/// The place of the first word of an element that is none of a declaration. Where a body has no end, that is its last.
pub fn stray_in(tokens: &[Token]) -> Option<usize>
    ensures { result ≡ spec.stray_in tokens.now }
{
    let mut standing = Standing::First;
    let mut at: usize = 0;
    let mut rest = tokens;
    while let [token, later @ ..] = rest {
        match next_standing(standing, mark_of(&token.kind)) {
            Some(next) => standing = next,
            None => return Some(at),
        }
        at += 1;
        rest = later;
    }
    if is_open(standing) {
        Some(at.saturating_sub(1))
    } else {
        None
    }
}
