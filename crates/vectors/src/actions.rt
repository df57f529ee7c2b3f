// The cases of actions.
use super::parts::{PAGE, Page, number, put};
use er7_redact::action;

// The action a, read and printed.
pub fn action(a: &[u8], got: &mut Page) -> usize {
    let Ok(p) = action::parse(a, 0) else {
        return put(b"refused", got, 0);
    };
    if PAGE < action::printed_len(p, a) {
        return 0;
    }
    action::print(p, a, got, 0)
}

// What the action a makes of the value c under the key b.
pub fn apply(a: &[u8], b: &[u8], c: &[u8], got: &mut Page) -> usize {
    let Ok(p) = action::parse(a, 0) else {
        return put(b"refused", got, 0);
    };
    let Some(n) = action::applied_len(p, c) else {
        return put(b"nothing", got, 0);
    };
    if PAGE < n {
        return 0;
    }
    action::apply(p, a, number(b), c, got, 0)
}
