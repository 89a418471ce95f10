//! What holds of every completion.

ghost use Rattle.virtio_blk.specs.OneDisk.{ActsOnOneDisk};

/// A completion over the base's bytes is a completion on the one list of the disk's bytes.
pub fn completes_on_one_disk()
    ensures { ActsOnOneDisk }
{}
