//! What a hub's image tells.
use outside::Bytes;

/// The length of an image, and its bytes where it tells them. It is for contracts alone, and no
/// value of it is made.
pub struct Base {
    pub len: u64,
    pub bytes: Option<Bytes>,
}
