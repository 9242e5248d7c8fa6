// The front of a text, character by character.
ghost use Rattle.std.specs.Prelude.{◌≡◌, ◌≢◌, ℕ, ◌<◌, ◌∷◌, ◌++◌, [], List, length, IfNone, IfSome, encode_utf8};
ghost use Rattle.std.specs.Str.{chars};
ghost use Rattle.scan_fmt.specs.Grammar.{is_blank, after_blanks, first};

/// The first character, and what follows it.
pub(crate) fn split_first(text: &str) -> Option<(char, &str)>
    ensures none { IfNone result (chars text.now ≡ []) }
    ensures some { IfSome result (λ p. chars text.now ≡ p.0 ∷ chars p.1.now) }
    ensures bytes { IfSome result (λ p. text.now ≡ encode_utf8 p.0 ++ p.1.now) }
    ensures shorter { IfSome result (λ p. length p.1.now < length text.now) }
{
    let mut characters = text.chars();
    let first = characters.next()?;
    Some((first, characters.as_str()))
}

/// What follows the character, where it stands in front.
pub(crate) fn strip(text: &str, expected: char) -> Option<&str>
    ensures none { IfNone result ((rest : List ℕ) → chars text.now ≢ expected ∷ rest) }
    ensures some { IfSome result (λ rest. chars text.now ≡ expected ∷ chars rest.now) }
    ensures shorter { IfSome result (λ rest. length rest.now < length text.now) }
{
    let (first, rest) = split_first(text)?;
    if first == expected { Some(rest) } else { None }
}

pub(crate) fn is_blank(c: char) -> bool
    ensures { result ≡ is_blank c }
{
    c == ' ' || c == '\t' || c == '\n' || c == '\r'
}

/// What follows the white space in front.
pub(crate) fn skip_blanks(text: &str) -> &str
    ensures { chars result.now ≡ after_blanks (chars text.now) }
{
    let mut rest = text;
    'blanks: while let Some((c, more)) = split_first(rest) {
        if !is_blank(c) {
            return rest;
        }
        rest = more;
    }
    rest
}

/// The character in front.
pub(crate) fn first(text: &str) -> Option<char>
    ensures { result ≡ first (chars text.now) }
{
    let (first, _) = split_first(text)?;
    Some(first)
}

/// What stands before the rest of a text.
pub(crate) fn before<'t>(text: &'t str, rest: &str) -> &'t str
    requires { (front : List ℕ) × (text.now ≡ front ++ rest.now) }
    ensures whole { text.now ≡ result.now ++ rest.now }
    ensures characters { chars text.now ≡ chars result.now ++ chars rest.now }
{
    let (front, _) = text.split_at(text.len() - rest.len());
    front
}
