//! What holds of every disk.

ghost use Rattle.overlay_disk.specs.OneDisk.{ReadsOneDisk, WritesOneDisk, KeepsLength};

/// What a range of the image gives under the written sectors is that range of the disk.
pub fn reads_one_disk()
    ensures { ReadsOneDisk }
{}

/// A write of whole sectors is a write over the disk's bytes.
pub fn writes_one_disk()
    ensures { WritesOneDisk }
{}

/// A disk has as many bytes as its image.
pub fn keeps_length()
    ensures { KeepsLength }
{}
