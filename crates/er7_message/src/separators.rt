// The header of a message, and the delimiters that it names.
ghost use Rattle.std.specs.Prelude.{◌≡◌, ◌≤◌, length};
ghost use Rattle.message_model.specs.Message.{may_delimit, may_delimit_all, is_header, separators_of};

use er7::separators::Separators;
use text::bytes::{Class, is_in, same_bytes};

// Whether b may delimit.
#[tactic(auto, unfolding(message_model::specs::Message::may_delimit, text::specs::Text::is_in))]
fn may_delimit(b: u8) -> bool
    ensures { result ≡ may_delimit b }
{
    let alphanumeric = is_in(Class::Alphanumeric, b);
    let blank = is_in(Class::Blank, b);
    !(alphanumeric | blank | (b == b'\r') | (b == b'"'))
}

// Whether bytes that are all different may delimit.
fn may_delimit_all(bytes: &[u8]) -> bool
    ensures { result ≡ may_delimit_all bytes.now }
{
    for (i, &b) in bytes.iter().enumerate() {
        let fine = may_delimit(b) & !bytes[i + 1..].contains(&b);
        if !fine {
            return false;
        }
    }
    true
}

// Whether a message's first line is a header.
#[tactic(auto, unfolding(message_model::specs::Message::is_header, text::specs::Text::bytes))]
pub fn is_header(line: &[u8]) -> bool
    ensures { result ≡ is_header line.now }
{
    line.len() >= 8
        && same_bytes(&line[..3], b"MSH")
        && may_delimit_all(&line[3..8])
        && (line.len() == 8 || line[8] == line[3])
}

// The delimiters that a header names.
#[tactic(auto, unfolding(message_model::specs::Message::separators_of))]
pub fn separators_of(line: &[u8]) -> Separators
    requires { 8 ≤ length line.now }
    ensures { result ≡ separators_of line.now }
{
    Separators {
        field: line[3],
        component: line[4],
        repetition: line[5],
        escape: line[6],
        subcomponent: line[7],
    }
}
