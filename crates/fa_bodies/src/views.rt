//! Structs of `fuse.h` where they lie in their messages.

ghost use Rattle.std.specs.Prelude.{◌≤◌, length};

/// An [`EntryOut`](crate::EntryOut) where it lies in its message (`struct fuse_entry_out`): a field is read when it is asked for.
#[derive(Clone, Copy, Debug)]
pub struct EntryBytes<'a> {
    // The message from there on.
    pub(crate) bytes: &'a [u8],
    // They are at least the 128 bytes of the struct.
    pub(crate) ghost room: { 128 ≤ length bytes.now },
}

/// An [`AttrOut`](crate::AttrOut) where it lies in its message (`struct fuse_attr_out`): a field is read when it is asked for.
#[derive(Clone, Copy, Debug)]
pub struct AttrBytes<'a> {
    // The message from there on.
    pub(crate) bytes: &'a [u8],
    // They are at least the 104 bytes of the struct.
    pub(crate) ghost room: { 104 ≤ length bytes.now },
}

/// [`Attributes`](crate::Attributes) where they lie in their message (`struct fuse_attr`): a field is read when it is asked for.
#[derive(Clone, Copy, Debug)]
pub struct AttributesBytes<'a> {
    // The message from there on.
    pub(crate) bytes: &'a [u8],
    // They are at least the 88 bytes of the struct.
    pub(crate) ghost room: { 88 ≤ length bytes.now },
}

/// A [`SetattrIn`](crate::SetattrIn) where it lies in its message (`struct fuse_setattr_in`): a field is read when it is asked for.
#[derive(Clone, Copy, Debug)]
pub struct SetattrBytes<'a> {
    // The message from there on.
    pub(crate) bytes: &'a [u8],
    // They are at least the 88 bytes of the struct.
    pub(crate) ghost room: { 88 ≤ length bytes.now },
}
