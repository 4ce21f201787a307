//! The links of a text: pairs of brackets.

ghost use Rattle.std.specs.Prelude.{◌≡◌, ◌==◌, ◌<◌, ◌||◌, length, take, codes, IfSome};
ghost use Rattle.std.specs.Option.{option_map};
ghost use Rattle.std.specs.List.{position_from};
ghost use Rattle.std.specs.Str.{bytes_eq, str_eq_ignore_ascii_case};
ghost use Rattle.ad_policies.specs.Policies.{cut, scheme, after_scheme, link_in, next_link};
ghost use Rattle.ad_policies.specs.Seen.{link_seen};

/// A link: the name of a policy, and two marks; and the text after its brackets.
#[derive(Clone, Copy)]
pub(crate) struct LinkIn<'a> {
    pub name: &'a [u8],
    pub disabled: bool,
    pub enforced: bool,
    pub rest: &'a [u8],
}

// ---- parts of a text

fn place_of(text: &[u8], byte: u8) -> Option<usize>
    ensures place { result ≡ position_from (λ b. b == byte) 0 text.now }
    ensures within { IfSome result (λ at. at < length text.now) }
{
    text.iter().position(|b| *b == byte)
}

// The bytes before the first of this kind, and those after it; none where there is none.
fn cut(text: &[u8], byte: u8) -> Option<(&[u8], &[u8])>
    ensures { option_map (λ parts. (parts.0.now, parts.1.now)) result ≡ cut byte text.now }
{
    match place_of(text, byte) {
        Some(at) => Some((&text[..at], &text[at + 1..])),
        None => None,
    }
}

fn is_scheme(text: &[u8]) -> bool
    ensures { result ≡ str_eq_ignore_ascii_case text.now scheme }
{
    text.eq_ignore_ascii_case(b"LDAP://")
}

// What stands after `LDAP://`, in whatever case.
#[tactic(auto, unfolding(crate::specs::Policies::after_scheme))]
fn after_scheme(text: &[u8]) -> Option<&[u8]>
    ensures { option_map (λ name. name.now) result ≡ after_scheme text.entry.now }
{
    if text.len() < 7 {
        return None;
    }
    if is_scheme(&text[..7]) {
        Some(&text[7..])
    } else {
        None
    }
}

// ---- one link

// Whether it is one of the two.
fn is_one_of(marks: &[u8], one: &[u8], other: &[u8]) -> bool
    ensures { result ≡ bytes_eq marks.now one.now || bytes_eq marks.now other.now }
{
    marks == one || marks == other
}

// The link that stands in a pair of brackets, with the text after them.
#[tactic(auto, unfolding(crate::specs::Policies::link_in, crate::specs::Policies::with_marks))]
fn link_in<'a>(inner: &'a [u8], rest: &'a [u8]) -> Option<LinkIn<'a>>
    ensures { option_map link_seen result
        ≡ option_map (λ link. (link, rest.entry.now)) (link_in inner.entry.now) }
{
    let (front, marks) = cut(inner, b';')?;
    let name = after_scheme(front)?;
    Some(LinkIn {
        name,
        disabled: is_one_of(marks, b"1", b"3"),
        enforced: is_one_of(marks, b"2", b"3"),
        rest,
    })
}

/// The link in the first pair of brackets; none where it has another form, and where there is no such pair.
#[tactic(auto, unfolding(crate::specs::Policies::next_link))]
pub(crate) fn next_link(text: &[u8]) -> Option<LinkIn<'_>>
    ensures { option_map link_seen result ≡ next_link text.entry.now }
{
    let (_, begun) = cut(text, b'[')?;
    let (inner, rest) = cut(begun, b']')?;
    link_in(inner, rest)
}
