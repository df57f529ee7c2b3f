// The cases of values: escapes read and written, lower case, words.
use super::groups::Group;
use super::parts::{PAGE, Page, put};
use er7::separators::Separators;
use er7_value::escape::{decode, encode, encoded_len};
use er7_value::word::{is_whole_word, lower_value};

// Byte k of s, 0 if it has fewer.
fn byte_of(s: &[u8], k: usize) -> u8 {
    s.get(k).copied().unwrap_or(0)
}

// The delimiters that a lists, in the order of a header.
fn separators(a: &[u8]) -> Separators {
    Separators {
        field: byte_of(a, 0),
        component: byte_of(a, 1),
        repetition: byte_of(a, 2),
        escape: byte_of(a, 3),
        subcomponent: byte_of(a, 4),
    }
}

// Whether a is a whole word of b.
fn word_of(a: &[u8], b: &[u8], got: &mut Page) -> usize {
    if is_whole_word(a, b) {
        return put(b"found", got, 0);
    }
    put(b"absent", got, 0)
}

// The value b, its delimiters escaped.
fn encode_of(b: &[u8], s: Separators, got: &mut Page) -> usize {
    if 8192 < b.len() {
        return 0;
    }
    if PAGE < encoded_len(b, s) {
        return 0;
    }
    encode(b, s, got, 0)
}

// The text b with its escapes read, the value b with its delimiters escaped, the value of the text b in lower case, or whether a is a
// word of b.
pub fn value_answer(group: Group, a: &[u8], b: &[u8], got: &mut Page) -> usize {
    if 8192 < b.len() {
        return 0;
    }
    match group {
        Group::Decode => decode(b, separators(a), got, 0),
        Group::Encode => encode_of(b, separators(a), got),
        Group::Lower => lower_value(b, separators(a), got, 0),
        _ => word_of(a, b, got),
    }
}
