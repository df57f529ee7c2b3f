// Bytes: classes, words, runs, and copies and zeros in a buffer.
ghost use Rattle.std.specs.Prelude.{◌≡◌, ◌==◌, not, [], ◌∷◌, ℕ, ◌+◌, ◌≤◌, ◌<◌, length, replicate, zip, position};
ghost use Rattle.std.specs.List.{list_all};
ghost use Rattle.text.specs.Text.{is_in, lower_byte, same, is_word, RunEnd, RunTo, Wrote, zeroed};

// Sets of bytes: digits, letters and digits, blanks and tabs, all but these, all but one byte.
#[derive(Clone, Copy)]
pub enum Class {
    Digit,
    Alphanumeric,
    Blank,
    NotBlank,
    AllBut(u8),
}

// Whether the byte b is of the class.
pub fn is_in(class: Class, b: u8) -> bool
    ensures { result ≡ is_in class b }
{
    match class {
        Class::Digit => b.is_ascii_digit(),
        Class::Alphanumeric => b.is_ascii_alphanumeric(),
        Class::Blank => (b == b' ') | (b == b'\t'),
        Class::NotBlank => !((b == b' ') | (b == b'\t')),
        Class::AllBut(x) => b != x,
    }
}

// The lower case of an ASCII capital, and any other byte itself.
pub fn lower_byte(b: u8) -> u8
    ensures { result ≡ lower_byte b }
{
    b.to_ascii_lowercase()
}

// The index of the first byte that is not of the class, if there is one.
fn first_outside(s: &[u8], class: Class) -> Option<usize>
    ensures { result ≡ position (λ b. not (is_in class b)) s.now }
{
    s.iter().position(|b| !is_in(class, *b))
}

// Where the run of bytes of the class, from index i on, ends.
pub fn run_end(s: &[u8], i: usize, class: Class) -> usize
    requires { i ≤ length s.now }
    ensures { RunEnd (is_in class) s.now i result }
{
    match first_outside(&s[i..], class) {
        Some(n) => i + n,
        None => s.len(),
    }
}

// Where the run of bytes of the class, from index i on, ends in the text up to index e.
pub fn run_to(s: &[u8], i: usize, e: usize, class: Class) -> usize
    requires { (i ≤ e) × (e ≤ length s.now) }
    ensures { RunTo (is_in class) s.now i e result }
{
    i + run_end(&s[i..e], 0, class)
}

// Whether two texts are the same.
pub fn same_bytes(s: &[u8], t: &[u8]) -> bool
    ensures { result ≡ same s.now t.now }
{
    s == t
}

// Whether each byte of s, in lower case, is the one of w at its place, as far as both have bytes.
fn are_lower(s: &[u8], w: &[u8]) -> bool
    ensures { result ≡ list_all (λ (p : ℕ × ℕ). lower_byte p.0 == p.1) (zip s.now w.now) }
{
    s.iter().zip(w).all(|(a, b)| lower_byte(*a) == *b)
}

// Whether s is the word w, which is in lower case, whatever the case of s.
pub fn is_word(s: &[u8], w: &[u8]) -> bool
    ensures { result ≡ is_word s.now w.now }
{
    (s.len() == w.len()) && are_lower(s, w)
}

// Copies src into dst from index at on, and returns the index behind it.
pub fn copy_at(dst: &mut [u8], at: usize, src: &[u8]) -> usize
    requires { at + length src.now ≤ length dst.old }
    ensures { Wrote dst.old at src.now dst.new result }
{
    // `copy_from_slice` calls the C library, which takes twice as long for texts of a few bytes
    for (j, b) in src.iter().enumerate() {
        dst[at + j] = *b;
    }
    at + src.len()
}

// Writes n times b to buf from index at on, and returns the index behind them.
pub fn fill_at(buf: &mut [u8], at: usize, n: usize, b: u8) -> usize
    requires { at + n ≤ length buf.old }
    ensures { Wrote buf.old at (replicate n b) buf.new result }
{
    let end = at + n;
    buf[at..end].fill(b);
    end
}

// Writes b to buf at index at, and returns the index behind it.
pub fn byte_at(buf: &mut [u8], at: usize, b: u8) -> usize
    requires { at < length buf.old }
    ensures { Wrote buf.old at (b ∷ []) buf.new result }
{
    buf[at] = b;
    at + 1
}

// Zeros buf from index at on.
pub fn zero_from(buf: &mut [u8], at: usize)
    requires { at ≤ length buf.old }
    ensures { buf.new ≡ zeroed buf.old at }
{
    buf[at..].fill(0);
}
