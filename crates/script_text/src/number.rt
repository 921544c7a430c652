ghost use Rattle.std.specs.Prelude.{◌≡◌, ◌≤◌, IfSome};
ghost use Rattle.script_text.specs.Numbers.{limit, with_digit, number_of};

/// The greatest number in a script, and the most octets that one text stands for.
pub const LIMIT: usize = 1_048_576;

/// A number with one digit more.
fn add_digit(number: usize, code: u8) -> Option<usize>
    requires { number ≤ limit }
    ensures value { result ≡ with_digit number code }
    ensures bound { IfSome result (λ next. next ≤ limit) }
{
    if code < b'0' || code > b'9' {
        return None;
    }
    let next = 10 * number + (code - b'0') as usize;
    if next > LIMIT { None } else { Some(next) }
}

/// The number that decimal digits stand for: none without digits, and none above the limit.
pub fn read_number(text: &[u8]) -> Option<usize>
    ensures { result ≡ number_of text.now }
{
    if text.is_empty() {
        return None;
    }
    let mut number = 0usize;
    for i in 0..text.len() {
        match add_digit(number, text[i]) {
            Some(next) => number = next,
            None => return None,
        }
    }
    Some(number)
}
