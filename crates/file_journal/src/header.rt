//! The header of a file, and what it tells of the file.

ghost use Rattle.std.specs.Prelude.{◌≡◌, ◌≤◌, ◌↔◌, IfOk, IsTrue, drop, length, take};
ghost use Rattle.file_journal.specs.Creating.{header_bytes};
ghost use Rattle.file_journal.specs.Files.{IsBegun, IsFresh};

use std::alloc::{AllocError, Global};

/// How many bytes a header has: the title, the digest and the gate of record 0.
pub const HEADER_LEN: usize = 45;

/// How a file begins: the title of its kind, and the digest of what it belongs to.
#[derive(Clone, Copy, Debug, Drop, PartialEq, Eq)]
pub struct Header {
    pub title: [u8; 12],
    pub digest: [u8; 32],
}

impl Header {
    // How many bytes the title and the digest have.
    pub(crate) fn parts_len(&self) -> usize
        ensures title { length self.now.title ≡ 12 }
        ensures digest { length self.now.digest ≡ 32 }
        ensures both { result ≡ 44 }
    {
        self.title.len() + self.digest.len()
    }

    // The header's bytes, with the closed gate of record 0.
    pub(crate) fn to_bytes(&self, alloc: Global) -> Result<Vec<u8>, AllocError>
        ensures { IfOk result (λ v. v.items ≡ header_bytes self.now) }
    {
        let mut bytes = Vec::new(alloc);
        bytes.extend_from_slice(&self.title)?;
        bytes.extend_from_slice(&self.digest)?;
        bytes.push(0)?;
        Ok(bytes)
    }
}

// The bytes from a place on.
pub(crate) fn after(bytes: &[u8], len: usize) -> &[u8]
    requires { len ≤ length bytes.now }
    ensures { result.now ≡ drop len bytes.now }
{
    &bytes[len..]
}

// Whether the file has all of the title except its first byte.
fn is_begun(title: &[u8; 12], image: &[u8]) -> bool
    requires { 45 ≤ length image.now }
    ensures { IsTrue result ↔ IsBegun title.now image.now }
{
    let others = after(title, 1);
    image[0] != title[0] && &image[1..12] == others
}

/// Whether no file with this title was made yet: it is too short for a header, begins with 0, or has a header
/// that is not finished.
pub fn is_fresh(title: &[u8; 12], image: &[u8]) -> bool
    ensures { IsTrue result ↔ IsFresh title.now image.now }
{
    image.len() < HEADER_LEN || image[0] == 0 || is_begun(title, image)
}

/// Whether a file begins with the title.
pub fn is_titled(title: &[u8; 12], image: &[u8]) -> bool
    requires { 45 ≤ length image.now }
    ensures { IsTrue result ↔ (take 12 image.now ≡ title.now) }
{
    let wanted: &[u8] = title;
    &image[..12] == wanted
}
