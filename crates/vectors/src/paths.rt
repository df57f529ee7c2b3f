// The cases of paths.
use super::parts::{PAGE, Page, put};
use er7::path;

// The path a, read and printed.
pub fn path(a: &[u8], got: &mut Page) -> usize {
    let Some(p) = path::parse(a, 0) else {
        return put(b"refused", got, 0);
    };
    if PAGE < path::printed_len(p, a) {
        return 0;
    }
    path::print(p, a, got, 0)
}
