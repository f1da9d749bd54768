//! Texts as characters, and the classes of characters.

ghost use Rattle.std.specs.Prelude.{◌≡◌, [], ◌∷◌, chars, IfSome, MatchOption};
ghost use Rattle.std.specs.List.{list_all};
ghost use Rattle.std.specs.Str.{IsUtf8};
ghost use Rattle.unicode_ident.specs.Ident.{is_xid_continue};
ghost use Rattle.tp_lex.specs.Characters.{after_run, is_graphic, is_in_class, is_layout};
ghost use Rattle.tp_lex.specs.Characters.{is_letter_digit, is_name_start, is_variable_start};

/// A class of characters that a name goes on with.
#[derive(Clone, Copy, Debug, PartialEq, Eq)]
pub enum Class {
    /// What goes on a letter-digit name or a variable: Unicode's `XID_Continue`, which has letters,
    /// digits, `_` and more.
    Continuing,
    /// Graphic characters, after ISO/IEC 13211-1, 6.5.1.
    Graphic,
}

/// The first character, and what follows it; none where the text is empty. Takes no memory.
#[inline(always)]
pub fn split_first(text: &str) -> Option<(char, &str)>
    ensures split { MatchOption result (chars text.now ≡ [])
        (λ p. chars text.now ≡ p.0 ∷ chars p.1.now) }
    ensures utf8 { IfSome result (λ p. IsUtf8 p.1.now) }
{
    let mut rest = text.chars();
    let first = rest.next()?;
    Some((first, rest.as_str()))
}

/// Whether the character is layout: space, tab, newline, vertical tab, form feed or carriage
/// return.
pub fn is_layout(c: char) -> bool
    ensures { result ≡ is_layout c }
{
    matches!(c, '\t'..='\r' | ' ')
}

/// Whether a letter-digit name begins with the character: Unicode's `XID_Start` has it, and it is
/// no ASCII capital.
#[inline(always)]
pub fn is_name_start(c: char) -> bool
    ensures { result ≡ is_name_start c }
{
    if c.is_ascii() {
        c.is_ascii_lowercase()
    } else {
        unicode_ident::is_xid_start(c) && !c.is_ascii_uppercase()
    }
}

/// Whether a variable begins with the character: it is `_` or an ASCII capital.
pub fn is_variable_start(c: char) -> bool
    ensures { result ≡ is_variable_start c }
{
    c == '_' || c.is_ascii_uppercase()
}

/// Whether the character is graphic: one of `+ - * / \ ^ < > = ~ : . ? @ # & $`.
pub fn is_graphic(c: char) -> bool
    ensures { result ≡ is_graphic c }
{
    matches!(
        c,
        '#'..='$' | '&' | '*'..='+' | '-'..='/' | ':' | '<'..='@' | '\\' | '^' | '~'
    )
}

/// Whether a name goes on with the character. In ASCII these are letters, digits and `_`; small
/// letters, which most are, are told first.
#[inline(always)]
fn is_continuing(c: char) -> bool
    ensures { result ≡ is_xid_continue c }
{
    if c.is_ascii_lowercase() {
        return true;
    }
    if c.is_ascii() {
        c.is_ascii_alphanumeric() || c == '_'
    } else {
        unicode_ident::is_xid_continue(c)
    }
}

/// Whether the character is in the class.
#[inline(always)]
pub fn is_in_class(class: Class, c: char) -> bool
    ensures { result ≡ is_in_class class c }
{
    match class {
        Class::Continuing => is_continuing(c),
        Class::Graphic => is_graphic(c),
    }
}

/// Whether all characters of the text are in the class.
pub fn are_in_class(class: Class, text: &str) -> bool
    ensures { result ≡ list_all (is_in_class class) (chars text.now) }
{
    text.chars().all(|c| is_in_class(class, c))
}

/// Whether the text is a letter-digit name: a character that begins one, and only characters that
/// go on with it.
pub fn is_letter_digit(name: &str) -> bool
    ensures { result ≡ is_letter_digit (chars name.now) }
{
    match split_first(name) {
        Some((c, rest)) => is_name_start(c) && are_in_class(Class::Continuing, rest),
        None => false,
    }
}

/// What follows as many characters of the class as follow each other.
#[inline(always)]
pub fn after_run(text: &str, class: Class) -> &str
    ensures { chars result.now ≡ after_run class (chars text.now) }
{
    let mut rest = text;
    while let Some((c, after)) = split_first(rest) {
        if !is_in_class(class, c) {
            break;
        }
        rest = after;
    }
    rest
}
