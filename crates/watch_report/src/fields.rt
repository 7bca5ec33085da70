//! The fields of a line.
ghost use Rattle.std.specs.Prelude.{◌≡◌, [], ◌∷◌, MatchOption, None, Some};
ghost use Rattle.std.specs.List.{position_or_len};
ghost use Rattle.watch_report.specs.NextFields.{next_letter};
ghost use Rattle.watch_report.specs.Fields.{fields_of, four_fields, is_separator, one_field, three_fields, two_fields};

/// A blank stands between two fields.
#[inline(always)]
pub fn is_separator(byte: u8) -> bool
    ensures { result ≡ is_separator byte }
{
    byte == b' '
}

/// How many bytes stand before the first space, or at all.
pub(crate) fn field_len(text: &[u8]) -> usize
    ensures { result ≡ position_or_len is_separator text.now }
{
    text.iter()
        .position(|byte| is_separator(*byte))
        .unwrap_or(text.len())
}

/// The first field of a text, and what stands after its space. `None`: the text is one field.
fn next_field(text: &[u8]) -> Option<(&[u8], &[u8])>
    ensures { MatchOption result (fields_of text.now ≡ text.now ∷ [])
        (λ next. fields_of text.now ≡ next.0.now ∷ fields_of next.1.now) }
{
    let end = field_len(text);
    if end < text.len() {
        Some((&text[..end], &text[end + 1..]))
    } else {
        None
    }
}

/// The field of a text that is just one.
fn one_field(text: &[u8]) -> Option<&[u8]>
    ensures { MatchOption result (one_field (fields_of text.now)
        ≡ None) (λ a. one_field (fields_of text.now) ≡ Some a.now) }
{
    match next_field(text) {
        Some(_) => None,
        None => Some(text),
    }
}

/// The fields of a text that is two.
fn two_fields(text: &[u8]) -> Option<(&[u8], &[u8])>
    ensures { MatchOption result (two_fields (fields_of text.now)
        ≡ None) (λ a. two_fields (fields_of text.now) ≡ Some (a.0.now, a.1.now)) }
{
    let (a, rest) = next_field(text)?;
    let b = one_field(rest)?;
    Some((a, b))
}

/// The fields of a text that is three.
fn three_fields(text: &[u8]) -> Option<(&[u8], &[u8], &[u8])>
    ensures { MatchOption result (three_fields (fields_of text.now)
        ≡ None) (λ a. three_fields (fields_of text.now) ≡ Some (a.0.now, a.1.now, a.2.now)) }
{
    let (a, rest) = next_field(text)?;
    let (b, c) = two_fields(rest)?;
    Some((a, b, c))
}

/// The fields of a text that is four.
pub fn four_fields(text: &[u8]) -> Option<(&[u8], &[u8], &[u8], &[u8])>
    ensures { MatchOption result (four_fields (fields_of text.now)
        ≡ None) (λ a. four_fields (fields_of text.now)
        ≡ Some (a.0.now, a.1.now, a.2.now, a.3.now)) }
{
    let (a, rest) = next_field(text)?;
    let (b, c, d) = three_fields(rest)?;
    Some((a, b, c, d))
}

/// The byte of a first field that is one byte, and what stands after its space.
#[inline(always)]
pub fn next_letter(text: &[u8]) -> Option<(u8, &[u8])>
    ensures { MatchOption result (next_letter (fields_of text.now) ≡ None)
        (λ next. next_letter (fields_of text.now) ≡ Some (next.0, fields_of next.1.now)) }
{
    if text.len() < 2 {
        return None;
    }
    if is_separator(text[0]) {
        return None;
    }
    if is_separator(text[1]) {
        Some((text[0], &text[2..]))
    } else {
        None
    }
}
