// Texts, character by character.
ghost use Rattle.std.specs.Prelude.{◌≡◌, ◌<◌, ◌∷◌, ◌++◌, [], length, IfNone, IfSome, encode_utf8};
ghost use Rattle.std.specs.Str.{chars};
ghost use Rattle.scan_fmt.specs.Grammar.{first};

/// The first character, and what follows it.
pub fn split_first(text: &str) -> Option<(char, &str)>
    ensures none { IfNone result (chars text.now ≡ []) }
    ensures empty { IfNone result (text.now ≡ []) }
    ensures some { IfSome result (λ p. chars text.now ≡ p.0 ∷ chars p.1.now) }
    ensures bytes { IfSome result (λ p. text.now ≡ encode_utf8 p.0 ++ p.1.now) }
    ensures shorter { IfSome result (λ p. length p.1.now < length text.now) }
{
    let mut characters = text.chars();
    let first = characters.next()?;
    Some((first, characters.as_str()))
}

/// The first character.
pub fn first(text: &str) -> Option<char>
    ensures { result ≡ first (chars text.now) }
{
    let (first, _) = split_first(text)?;
    Some(first)
}
