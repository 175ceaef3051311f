// Lines of the listing, by places.
ghost use Rattle.std.specs.Prelude.{◌≡◌, ◌≤◌, length, take};
ghost use Rattle.tagged.specs.Lines.{printed, is_name, same as same_bytes, line_of};
ghost use Rattle.terms.specs.Places.{end_of, bytes_of, tag_of};
ghost use Rattle.terms.specs.InCode.{line_by};

use reading::part_of;

// What a line is.
#[derive(Clone, Copy)]
pub enum Form {
    Heading,
    Broader,
    Narrower,
    Other,
}

// The place of the newline that ends the line at `at`; the length of the listing if none does.
pub(crate) fn line_end(s: &[u8], at: usize) -> usize
    requires { at ≤ length s.now }
    ensures { result ≡ end_of s.now at }
{
    for i in at..s.len() {
        if s[i] == b'\n' {
            return i;
        }
    }
    s.len()
}

// Bytes 32 to 126 alone stand from `from` to `to`.
fn is_printed(s: &[u8], from: usize, to: usize) -> bool
    requires { (from ≤ to) × (to ≤ length s.now) }
    ensures { result ≡ printed (bytes_of s.now from to) }
{
    s[from..to].iter().all(|b| (32..=126).contains(b))
}

// "one or more bytes 32 to 126, not opening with a space"
fn is_name(s: &[u8], from: usize, to: usize) -> bool
    requires { to ≤ length s.now }
    ensures { result ≡ is_name (bytes_of s.now from to) }
{
    if to <= from {
        return false;
    }
    if s[from] == 32 {
        return false;
    }
    is_printed(s, from, to)
}

// The same bytes stand from a to end and from b to until. Its callers would each write two `part_of`, which is no plainer.
pub(crate) fn same(s: &[u8], a: usize, end: usize, b: usize, until: usize) -> bool
    requires { (end ≤ length s.now) × (until ≤ length s.now) }
    ensures { result ≡ same_bytes (bytes_of s.now a end) (bytes_of s.now b until) }
{
    part_of(s, a, end) == part_of(s, b, until)
}

// "two spaces, BT or NT, one space", by the first letter
fn is_tag(s: &[u8], at: usize, to: usize, letter: u8) -> bool
    requires { (at ≤ to) × (to ≤ length s.now) }
    ensures { result ≡ same_bytes (take 5 (bytes_of s.now at to)) (tag_of letter) }
{
    if to - at < 5 {
        return false;
    }
    if s[at] != 32 {
        return false;
    }
    if s[at + 1] != 32 {
        return false;
    }
    if s[at + 2] != letter {
        return false;
    }
    if s[at + 3] != 84 {
        return false;
    }
    s[at + 4] == 32
}

// The form of the line from `at` to its newline at `to`.
pub(crate) fn form_of(s: &[u8], at: usize, to: usize) -> Form
    requires { (at ≤ to) × (to ≤ length s.now) }
    ensures { line_by result (bytes_of s.now at to) ≡ line_of (bytes_of s.now at to) }
{
    if is_tag(s, at, to, 66) {
        if is_name(s, at + 5, to) {
            return Form::Broader;
        }
        return Form::Other;
    }
    if is_tag(s, at, to, 78) {
        if is_name(s, at + 5, to) {
            return Form::Narrower;
        }
        return Form::Other;
    }
    if is_name(s, at, to) {
        return Form::Heading;
    }
    Form::Other
}
