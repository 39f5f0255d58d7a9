//! Lists in a field's value, and the parts of a path.

ghost use Rattle.std.specs.Prelude.{◌≡◌, ◌==◌, reverse, option_map, slice_get};
ghost use Rattle.std.specs.List.{list_any, slice_split};
ghost use Rattle.httparse.specs.Grammar.{skip_ows, trim_ows};
ghost use Rattle.http_messages.specs.Items.{is_close, says_close, parts};

fn skip_front(bytes: &[u8]) -> &[u8]
    ensures { result.now ≡ skip_ows bytes.now }
{
    let mut rest = bytes;
    while let [first, others @ ..] = rest {
        if *first != b' ' && *first != b'\t' {
            break;
        }
        rest = others;
    }
    rest
}

fn skip_back(bytes: &[u8]) -> &[u8]
    ensures { reverse result.now ≡ skip_ows (reverse bytes.now) }
{
    let mut rest = bytes;
    while let [others @ .., last] = rest {
        if *last != b' ' && *last != b'\t' {
            break;
        }
        rest = others;
    }
    rest
}

#[tactic(auto, unfolding(httparse::specs::Grammar::trim_ows))]
fn trimmed(bytes: &[u8]) -> &[u8]
    ensures { result.now ≡ trim_ows bytes.now }
{
    skip_back(skip_front(bytes))
}

fn closes(item: &[u8]) -> bool
    ensures { result ≡ is_close item.now }
{
    trimmed(item).eq_ignore_ascii_case(b"close")
}

/// Returns whether one of the comma-separated items of a `connection` field's value is `close`, in any case (RFC 9110,
/// section 7.6.1).
pub(crate) fn lists_close(value: &[u8]) -> bool
    ensures { result ≡ says_close value.now }
{
    value.split(|byte| *byte == b',').any(|item| closes(item))
}

/// Returns the part of a path after its first `n` slashes and before the next slash. For `/film/7`
/// part 1 is `film`, and part 0 is empty. If the path has fewer than `n` slashes, returns none.
///
/// Nothing is decoded: a `%` stands for itself, by our own profile.
pub fn part(path: &[u8], n: usize) -> Option<&[u8]>
    ensures { option_map (λ s. s.now) result ≡ slice_get (parts path.now) n }
{
    path.split(|byte| *byte == b'/').nth(n)
}
