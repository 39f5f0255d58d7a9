//! What the fields of a request's head say.

ghost use Rattle.std.specs.Prelude.{◌≡◌, ℕ, List, ◌++◌, ◌≤◌, ◌<◌, ◌^◌, length, map, take, All, codes, ◌∷◌, [], Some, None, true, false, IsTrue, option_map, ◌↔◌};
ghost use Rattle.std.specs.List.{list_any};
ghost use Rattle.httparse.specs.Spans.{header_bytes, IsHeaderWithin};
ghost use Rattle.http_messages.specs.Items.{says_close};
ghost use Rattle.http_messages.specs.Message.{values_of, size_in, size_of_pairs, same_name, only_one, is_get, is_post};
ghost use Rattle.http_messages.specs.Shown.{IsFound};

use crate::lists::lists_close;
use httparse::spans::HeaderSpan;
use shop_types::decimal;

/// The values of the fields of one name.
#[derive(Clone, Copy)]
pub(crate) enum FieldValues<'b> {
    Absent,
    One(&'b [u8]),
    Many,
}

impl<'b> FieldValues<'b> {
    /// Returns what is found with one more value.
    fn and(self, value: &'b [u8]) -> FieldValues<'b>
        ensures { (values : List (List ℕ))
            → IsFound self.entry values → IsFound result (values ++ value.now ∷ []) }
    {
        match self {
            FieldValues::Absent => FieldValues::One(value),
            FieldValues::One(_) | FieldValues::Many => FieldValues::Many,
        }
    }
}

fn is_named(name: &[u8], wanted: &[u8]) -> bool
    ensures { result ≡ same_name name.now wanted.now }
{
    name.eq_ignore_ascii_case(wanted)
}

fn find<'b>(bytes: &'b [u8], headers: &[HeaderSpan], name: &[u8]) -> FieldValues<'b>
    requires { All (IsHeaderWithin (length bytes.now)) headers.now }
    ensures { IsFound result (values_of name.now (map (header_bytes bytes.now) headers.now)) }
{
    let mut found = FieldValues::Absent;
    for header in headers {
        if is_named(header.name.of(bytes), name) {
            found = found.and(header.value.of(bytes));
        }
    }
    found
}

pub(crate) fn is_post_method(method: &[u8]) -> bool
    ensures { result ≡ is_post method.now }
{
    method == b"POST".as_slice()
}

fn is_get_method(method: &[u8]) -> bool
    ensures { result ≡ is_get method.now }
{
    method == b"GET".as_slice()
}

/// Returns the size of the body, if the head isn't refused.
pub(crate) fn size_of_body(bytes: &[u8], method: &[u8], headers: &[HeaderSpan]) -> Option<u64>
    requires { All (IsHeaderWithin (length bytes.now)) headers.now }
    ensures { result ≡ size_of_pairs method.now (map (header_bytes bytes.now) headers.now) }
{
    if !is_get_method(method) && !is_post_method(method) {
        return None;
    }
    let FieldValues::Absent = find(bytes, headers, b"transfer-encoding") else {
        return None;
    };
    match find(bytes, headers, b"content-length") {
        FieldValues::Absent => Some(0),
        FieldValues::One(value) => decimal(value),
        FieldValues::Many => None,
    }
}

pub(crate) fn connection_closes(bytes: &[u8], headers: &[HeaderSpan]) -> bool
    requires { All (IsHeaderWithin (length bytes.now)) headers.now }
    ensures { let pairs = map (header_bytes bytes.now) headers.now in
        result ≡ list_any says_close (values_of (codes "connection") pairs) }
{
    let mut closes = false;
    for header in headers {
        if is_named(header.name.of(bytes), b"connection") {
            closes = closes || lists_close(header.value.of(bytes));
        }
    }
    closes
}

pub(crate) fn token_of<'b>(bytes: &'b [u8], headers: &[HeaderSpan]) -> Option<&'b [u8]>
    requires { All (IsHeaderWithin (length bytes.now)) headers.now }
    ensures { let pairs = map (header_bytes bytes.now) headers.now in
        option_map (λ t. t.now) result ≡ only_one (values_of (codes "counter-token") pairs) }
{
    match find(bytes, headers, b"counter-token") {
        FieldValues::One(value) => Some(value),
        FieldValues::Absent | FieldValues::Many => None,
    }
}
