//! The columns of a line between the letter of the kind and the name.
ghost use Rattle.std.specs.Prelude.{◌≡◌, ◌==◌, ◌≤◌, not, drop, length, slice_index};
ghost use Rattle.std.specs.List.{after_first, before_first, list_all, position_or_len};
ghost use Rattle.std.specs.Str.{byte};
ghost use Rattle.tar_listing.specs.Columns.{after_spaces, after_word, are_columns};
ghost use Rattle.tar_listing.specs.Columns.{are_later_columns, are_owners, are_permissions};
ghost use Rattle.tar_listing.specs.Columns.{are_two_digits, ends_in_space, first_word, is_blank};
ghost use Rattle.tar_listing.specs.Columns.{is_date, is_day, is_digit, is_integer};
ghost use Rattle.tar_listing.specs.Columns.{is_month_and_day, is_number, is_permission, is_size};
ghost use Rattle.tar_listing.specs.Columns.{is_time};

use unix_bytes::internal::find_byte;

// Returns true if the byte is a letter of permissions.
fn is_permission(byte: u8) -> bool
    ensures { result ≡ is_permission byte }
{
    byte == b'-'
        || byte == b'r'
        || byte == b'w'
        || byte == b'x'
        || byte == b's'
        || byte == b'S'
        || byte == b't'
        || byte == b'T'
}

// Returns true if the byte is a digit.
fn is_digit(byte: u8) -> bool
    ensures { result ≡ is_digit byte }
{
    b'0' <= byte && byte <= b'9'
}

// Returns true if each byte is a letter of permissions.
fn all_permissions(text: &[u8]) -> bool
    ensures { result ≡ list_all is_permission text.now }
{
    text.iter().all(|byte| is_permission(*byte))
}

// Returns true if each byte is a digit.
fn all_digits(text: &[u8]) -> bool
    ensures { result ≡ list_all is_digit text.now }
{
    text.iter().all(|byte| is_digit(*byte))
}

// Returns true if the text is nine letters of permissions.
fn are_permissions(text: &[u8]) -> bool
    ensures { result ≡ are_permissions text.now }
{
    text.len() == 9 && all_permissions(text)
}

// Returns true if the text is one digit or more.
fn is_number(text: &[u8]) -> bool
    ensures { result ≡ is_number text.now }
{
    0 < text.len() && all_digits(text)
}

// Returns true if the text is two digits.
fn are_two_digits(text: &[u8]) -> bool
    ensures { result ≡ are_two_digits text.now }
{
    text.len() == 2 && all_digits(text)
}

// Returns true if the first byte is a `-`.
fn begins_with_dash(text: &[u8]) -> bool
    ensures { result ≡ (slice_index text.now 0 == byte "-") }
{
    0 < text.len() && text[0] == b'-'
}

// Returns the bytes after the first one, if there is one.
fn after_one(text: &[u8]) -> &[u8]
    ensures { result.now ≡ drop 1 text.now }
{
    let at = text.len().min(1);
    &text[at..]
}

// Returns true if the text is a number, or a `-` and a number.
fn is_integer(text: &[u8]) -> bool
    ensures { result ≡ is_integer text.now }
{
    is_number(text) || begins_with_dash(text) && is_number(after_one(text))
}

// Returns the bytes before the first byte `end`, or all bytes if there is none.
fn before(text: &[u8], end: u8) -> &[u8]
    ensures { result.now ≡ before_first (λ b. b == end) text.now }
{
    &text[..find_byte(text, end)]
}

// Returns the bytes after the first byte `end`, or none if there is none.
fn after(text: &[u8], end: u8) -> &[u8]
    ensures { result.now ≡ after_first (λ b. b == end) text.now }
{
    let at = find_byte(text, end);
    if at < text.len() {
        &text[at + 1..]
    } else {
        &text[text.len()..]
    }
}

// Returns true if the text is the numbers of an owner and a group.
#[tactic(auto, unfolding(crate::specs::Columns::are_owners))]
fn are_owners(text: &[u8]) -> bool
    ensures { result ≡ are_owners text.now }
{
    is_number(before(text, b'/')) && is_number(after(text, b'/'))
}

// Returns true if the text is a size, or the numbers of a device.
#[tactic(auto, unfolding(crate::specs::Columns::is_size))]
fn is_size(text: &[u8]) -> bool
    ensures { result ≡ is_size text.now }
{
    is_number(text) || is_number(before(text, b',')) && is_number(after(text, b','))
}

// Returns true if the text is a month and a day, each after a `-`.
#[tactic(auto, unfolding(crate::specs::Columns::is_month_and_day))]
fn is_month_and_day(text: &[u8]) -> bool
    ensures { result ≡ is_month_and_day text.now }
{
    let rest = after_one(text);
    begins_with_dash(text)
        && (are_two_digits(before(rest, b'-')) && are_two_digits(after(rest, b'-')))
}

// Returns true if the text is a year, a month and a day.
#[tactic(auto, unfolding(crate::specs::Columns::is_day))]
fn is_day(text: &[u8]) -> bool
    ensures { result ≡ is_day text.now }
{
    let at = text.len() - text.len().min(6);
    is_integer(&text[..at]) && is_month_and_day(&text[at..])
}

// Returns true if the text is an hour and a minute.
#[tactic(auto, unfolding(crate::specs::Columns::is_time))]
fn is_time(text: &[u8]) -> bool
    ensures { result ≡ is_time text.now }
{
    are_two_digits(before(text, b':')) && are_two_digits(after(text, b':'))
}

// Returns how many spaces come first.
fn spaces(text: &[u8]) -> usize
    ensures value { result ≡ position_or_len (λ b. not (b == byte " ")) text.now }
    ensures in_range { result ≤ length text.now }
{
    for (index, byte) in text.iter().enumerate() {
        if *byte != b' ' {
            return index;
        }
    }
    text.len()
}

// Returns the text without its first spaces.
fn after_spaces(text: &[u8]) -> &[u8]
    ensures { result.now ≡ after_spaces text.now }
{
    &text[spaces(text)..]
}

// Returns the first word.
#[tactic(auto, unfolding(crate::specs::Columns::first_word))]
fn first_word(text: &[u8]) -> &[u8]
    ensures { result.now ≡ first_word text.now }
{
    before(after_spaces(text), b' ')
}

// Returns what follows the first word.
#[tactic(auto, unfolding(crate::specs::Columns::after_word))]
fn after_word(text: &[u8]) -> &[u8]
    ensures { result.now ≡ after_word text.now }
{
    after(after_spaces(text), b' ')
}

// Returns true if there is no word.
#[tactic(auto, unfolding(crate::specs::Columns::is_blank))]
fn is_blank(text: &[u8]) -> bool
    ensures { result ≡ is_blank text.now }
{
    after_spaces(text).len() == 0
}

// Returns true if the text is a day and a time, or seconds.
#[tactic(auto, unfolding(crate::specs::Columns::is_date))]
fn is_date(text: &[u8]) -> bool
    ensures { result ≡ is_date text.now }
{
    let word = first_word(text);
    let rest = after_word(text);
    is_day(word) && is_time(first_word(rest)) && is_blank(after_word(rest))
        || is_integer(word) && is_blank(rest)
}

// Returns true if the last byte is a space.
fn ends_in_space(text: &[u8]) -> bool
    ensures { result ≡ ends_in_space text.now }
{
    0 < text.len() && text[text.len() - 1] == b' '
}

// Returns true if the text is an owner and a group, a size, and a date.
#[tactic(auto, unfolding(crate::specs::Columns::are_later_columns))]
fn are_later_columns(text: &[u8]) -> bool
    ensures { result ≡ are_later_columns text.now }
{
    let rest = after(text, b' ');
    are_owners(before(text, b' ')) && (is_size(first_word(rest)) && is_date(after_word(rest)))
}

// Returns true if the text is what a line has between the kind and the name.
#[tactic(auto, unfolding(crate::specs::Columns::are_columns))]
pub(crate) fn are_columns(text: &[u8]) -> bool
    ensures { result ≡ are_columns text.now }
{
    let rest = after(text, b' ');
    are_permissions(before(text, b' ')) && (are_later_columns(rest) && ends_in_space(text))
}
