//! Files that are no texts at all.
ghost use Rattle.std.specs.Prelude.{◌≡◌, drop, option_map};
ghost use Rattle.gs_explain.specs.Odd.{begins_with, odd_text};

/// The bytes from number `from` on, or none.
fn past(bytes: &[u8], from: usize) -> &[u8]
    ensures { result.now ≡ drop from bytes.now }
{
    if from >= bytes.len() {
        return &[];
    }
    let (_, rest) = bytes.split_at(from);
    rest
}

fn begins_with(front: &[u8], bytes: &[u8]) -> bool
    ensures { result ≡ begins_with front.now bytes.now }
{
    if bytes.len() < front.len() {
        return false;
    }
    let (first, _) = bytes.split_at(front.len());
    first == front
}

/// What is said of a file that is empty, compressed or begins with a byte order mark; nothing of any other.
pub(crate) fn odd_text(bytes: &[u8]) -> Option<&'static str>
    ensures { option_map (λ s. s.now) result ≡ odd_text bytes.now }
{
    if bytes.is_empty() {
        Some("the file is empty")
    } else if begins_with(&[239, 187, 191], bytes) {
        Some("the file begins with a byte order mark; save it without one")
    } else if begins_with(&[31, 139], bytes) {
        Some("the file is compressed (gzip); unpack it first")
    } else if begins_with(&[80, 75, 3, 4], bytes) {
        Some("the file is compressed (zip); unpack it first")
    } else if begins_with(&[253, 55, 122, 88, 90, 0], bytes) {
        Some("the file is compressed (xz); unpack it first")
    } else if begins_with(&[40, 181, 47, 253], bytes) {
        Some("the file is compressed (zstd); unpack it first")
    } else if begins_with(b"BZh", bytes) && begins_with(&[49, 65, 89, 38, 83, 89], past(bytes, 4)) {
        Some("the file is compressed (bzip2); unpack it first")
    } else {
        None
    }
}
