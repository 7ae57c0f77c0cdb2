//! What a server keeps of its files, of which the replies are made.

use crate::random::{Random, mixed};
use crate::recording::{Attributes, ENODATA, ENOENT, Entries, Recording};
use fa_bodies::opcodes;
use std::alloc::{AllocError, Global};

/// The modes of files: a regular one, a directory, a symbolic link.
pub const REG: u32 = 0o100644;

pub const DIR: u32 = 0o040755;

pub const LNK: u32 = 0o120777;

/// The node of the root.
pub const ROOT: u64 = 1;

/// The numbers of names are below this, so that the letters of a name tell all of them apart.
const LABELS: u64 = 1 << 56;

/// A file, whose node is its place in the list and one.
#[derive(Clone, Copy)]
pub struct Node {
    pub attributes: Attributes,
    /// How many lookups the kernel has of it.
    pub lookups: u64,
}

/// A name in a directory, told by a number.
#[derive(Clone, Copy)]
pub struct Child {
    pub label: u64,
    pub node: u64,
}

/// A directory: its node, and the names in it.
#[derive(Drop)]
pub struct Directory {
    pub node: u64,
    pub children: Vec<Child>,
}

/// The files of a server, and the capture of what it says of them.
#[derive(Drop)]
pub struct Volume {
    pub alloc: Global,
    pub recording: Recording,
    pub nodes: Vec<Node>,
    pub directories: Vec<Directory>,
    /// The number of the last new name, and what leads from one to the next.
    label: u64,
    stride: u64,
    handle: u64,
    /// Nodes and handles that are free, and are given before others.
    spare_nodes: Vec<u64>,
    spare_handles: Vec<u64>,
    /// The bytes of the name of which a message is made.
    name: Vec<u8>,
    other: Vec<u8>,
    /// The mean length of names.
    name_len: u64,
}

/// Writes the name of this number, whose length is about this.
fn spell(name: &mut Vec<u8>, label: u64, mean: u64) -> Result<(), AllocError> {
    name.clear();
    spell_more(name, label, mean)
}

/// Writes it behind other bytes.
fn spell_more(name: &mut Vec<u8>, label: u64, mean: u64) -> Result<(), AllocError> {
    let before = name.len() as u64;
    let bits = mixed(label);
    let len = (mean / 2).saturating_add(bits % mean.max(1));
    let mut left = label;
    for _ in 0..12 {
        name.push(b'a' + (left % 26) as u8)?;
        left /= 26;
        if left == 0 {
            break;
        }
    }
    name.push(b'-')?;
    let mut more = bits;
    for _ in 0..len.saturating_sub((name.len() as u64).saturating_sub(before)) {
        name.push(b'a' + (more % 26) as u8)?;
        more = mixed(more);
    }
    Ok(())
}

impl Volume {
    /// An empty root, and the capture of a session that begins. Names have about so many bytes.
    pub fn new(alloc: Global, name_len: u64) -> Self {
        let mut volume = Volume {
            alloc,
            recording: Recording::new(alloc),
            nodes: Vec::new(alloc),
            directories: Vec::new(alloc),
            label: 0,
            stride: 1,
            handle: 0,
            spare_nodes: Vec::new(alloc),
            spare_handles: Vec::new(alloc),
            name: Vec::new(alloc),
            other: Vec::new(alloc),
            name_len,
        };
        volume.add_node(DIR, 0);
        volume.add_directory(ROOT);
        volume
    }

    /// The same, with names that come from a number.
    pub fn seeded(alloc: Global, name_len: u64, seed: u64) -> Self {
        let mut random = Random::new(seed);
        let mut volume = Volume::new(alloc, name_len);
        volume.label = random.below(LABELS);
        volume.stride = random.number() | 1;
        volume
    }

    /// The number that the next new name will have. The stride is odd, so it comes to each number once.
    fn next_label(&self) -> u64 {
        self.label.wrapping_add(self.stride) % LABELS
    }

    /// A number that no name had.
    pub fn fresh_label(&mut self) -> u64 {
        self.label = self.next_label();
        self.label
    }

    /// Writes the name of this number behind a path.
    pub fn spell_behind(&self, path: &mut Vec<u8>, label: u64) -> Result<(), AllocError> {
        spell_more(path, label, self.name_len)
    }

    /// Writes the name of this number, of which a message is made.
    fn spell(&mut self, label: u64) {
        let spelled = spell(&mut self.name, label, self.name_len);
        self.recording.note_refusal(spelled);
    }

    /// Writes the other name of a message.
    fn spell_other(&mut self, label: u64) {
        let spelled = spell(&mut self.other, label, self.name_len);
        self.recording.note_refusal(spelled);
    }

    /// Writes the target of a symbolic link in the place of the other name.
    fn spell_target(&mut self, node: u64) {
        let spelled = spell(&mut self.other, mixed(node), 40);
        self.recording.note_refusal(spelled);
    }

    /// A file with one name: its node.
    pub fn add_node(&mut self, mode: u32, size: u64) -> u64 {
        let attributes = Attributes {
            mode,
            size,
            links: 1,
        };
        let node = Node {
            attributes,
            lookups: 1,
        };
        let Some(spare) = self.spare_nodes.pop() else {
            self.recording.note_refusal(self.nodes.push(node));
            return self.nodes.len() as u64;
        };
        if let Some(there) = self.nodes.get_mut(spare.wrapping_sub(1) as usize) {
            *there = node;
        }
        spare
    }

    /// A directory that has this node: its place.
    pub fn add_directory(&mut self, node: u64) -> usize {
        let place = self.directories.len();
        let directory = Directory {
            node,
            children: Vec::new(self.alloc),
        };
        self.recording
            .note_refusal(self.directories.push(directory));
        place
    }

    /// What is said of a node.
    pub fn attributes(&self, node: u64) -> Attributes {
        match self.nodes.get(node.wrapping_sub(1) as usize) {
            Some(there) => there.attributes,
            None => Attributes {
                mode: REG,
                size: 0,
                links: 0,
            },
        }
    }

    pub fn set_size(&mut self, node: u64, size: u64) {
        if let Some(there) = self.nodes.get_mut(node.wrapping_sub(1) as usize) {
            there.attributes.size = size;
        }
    }

    pub fn set_links(&mut self, node: u64, links: u32) {
        if let Some(there) = self.nodes.get_mut(node.wrapping_sub(1) as usize) {
            there.attributes.links = links;
        }
    }

    /// One lookup more.
    pub fn looked_up(&mut self, node: u64) {
        if let Some(there) = self.nodes.get_mut(node.wrapping_sub(1) as usize) {
            there.lookups = there.lookups.wrapping_add(1);
        }
    }

    /// The node of a directory.
    pub fn directory_node(&self, directory: usize) -> u64 {
        match self.directories.get(directory) {
            Some(there) => there.node,
            None => ROOT,
        }
    }

    /// Some name in a directory, if it has one: its place, and the name.
    pub fn some_child(&self, random: &mut Random, directory: usize) -> Option<(usize, Child)> {
        let there = self.directories.get(directory)?;
        let place = random.place(there.children.len());
        let child = there.children.get(place)?;
        Some((place, *child))
    }

    /// The name that came to a directory last: its place, and the name.
    pub fn last_child(&self, directory: usize) -> Option<(usize, Child)> {
        let there = self.directories.get(directory)?;
        let child = there.children.last()?;
        Some((there.children.len().saturating_sub(1), *child))
    }

    /// The name of a node in a directory that came to it last, if it has one: its place, and the name.
    pub fn last_named(&self, directory: usize, node: u64) -> Option<(usize, Child)> {
        let there = self.directories.get(directory)?;
        let place = there.children.iter().rposition(|child| child.node == node)?;
        Some((place, *there.children.get(place)?))
    }

    /// Adds a name to a directory.
    pub fn add_child(&mut self, directory: usize, label: u64, node: u64) {
        if let Some(there) = self.directories.get_mut(directory) {
            let child = Child { label, node };
            self.recording.note_refusal(there.children.push(child));
        }
    }

    /// Gives the name at a place of a directory to another file.
    pub fn give_child(&mut self, directory: usize, place: usize, node: u64) {
        if let Some(there) = self.directories.get_mut(directory) {
            if let Some(child) = there.children.get_mut(place) {
                child.node = node;
            }
        }
    }

    /// Takes the name at a place of a directory away.
    pub fn take_child(&mut self, directory: usize, place: usize) {
        if let Some(there) = self.directories.get_mut(directory) {
            if place < there.children.len() {
                there.children.swap_remove(place);
            }
        }
    }

    // ---- requests whose replies come later: the unique of each

    /// LOOKUP, UNLINK or RMDIR
    pub fn ask_named(&mut self, opcode: u32, directory: usize, label: u64) -> u64 {
        let at = self.directory_node(directory);
        self.spell(label);
        self.recording.named(opcode, at, self.name.as_slice())
    }

    /// CREATE
    pub fn ask_create(&mut self, directory: usize, label: u64) -> u64 {
        let at = self.directory_node(directory);
        self.spell(label);
        self.recording.create(at, self.name.as_slice(), REG)
    }

    /// RENAME2 from one name to another
    pub fn ask_rename2(
        &mut self,
        directory: usize,
        label: u64,
        new_directory: usize,
        new_label: u64,
        flags: u32,
    ) -> u64 {
        let at = self.directory_node(directory);
        let to = self.directory_node(new_directory);
        self.spell(label);
        self.spell_other(new_label);
        self.recording
            .rename2(at, self.name.as_slice(), to, self.other.as_slice(), flags)
    }

    /// LINK to a new name
    pub fn ask_link(&mut self, node: u64, directory: usize, label: u64) -> u64 {
        let at = self.directory_node(directory);
        self.spell(label);
        self.recording.link(node, at, self.name.as_slice())
    }

    // ---- replies, as of now

    /// That of a request that found or made a file
    pub fn entry(&mut self, unique: u64, node: u64) {
        let attributes = self.attributes(node);
        self.recording.entry(unique, node, attributes);
    }

    /// That of GETATTR or SETATTR
    fn tell_attributes(&mut self, unique: u64, node: u64) {
        let attributes = self.attributes(node);
        self.recording.attributes(unique, node, attributes);
    }

    // ---- requests with their replies

    pub fn statfs(&mut self) {
        let unique = self.recording.bare(opcodes::STATFS, ROOT);
        self.recording.done(unique, 80);
    }

    /// LOOKUP of a name that is there
    pub fn lookup(&mut self, directory: usize, child: Child) {
        let unique = self.ask_named(opcodes::LOOKUP, directory, child.label);
        self.looked_up(child.node);
        self.entry(unique, child.node);
    }

    /// LOOKUP or UNLINK of a name that is not there
    pub fn miss(&mut self, opcode: u32, directory: usize) {
        let label = self.fresh_label();
        let unique = self.ask_named(opcode, directory, label);
        self.recording.error(unique, ENOENT);
    }

    /// The same, of the name that the next new file will have
    pub fn miss_next(&mut self, directory: usize) {
        let label = self.next_label();
        let unique = self.ask_named(opcodes::LOOKUP, directory, label);
        self.recording.error(unique, ENOENT);
    }

    pub fn getattr(&mut self, node: u64) {
        let unique = self.recording.getattr(node);
        self.tell_attributes(unique, node);
    }

    /// GETXATTR of a file that has none
    pub fn getxattr(&mut self, node: u64) {
        let unique = self.recording.bare(opcodes::GETXATTR, node);
        self.recording.error(unique, ENODATA);
    }

    /// SETATTR of the size
    pub fn truncate(&mut self, node: u64, size: u64) {
        let unique = self.recording.truncate(node, size);
        self.set_size(node, size);
        self.tell_attributes(unique, node);
    }

    pub fn readlink(&mut self, node: u64) {
        let unique = self.recording.bare(opcodes::READLINK, node);
        self.spell_target(node);
        self.recording.bytes(unique, self.other.as_slice());
    }

    /// SYMLINK: its node
    pub fn symlink(&mut self, directory: usize) -> u64 {
        let at = self.directory_node(directory);
        let label = self.fresh_label();
        let node = self.add_node(LNK, 0);
        self.spell(label);
        self.spell_target(node);
        let size = self.other.len() as u64;
        self.set_size(node, size);
        let unique = self
            .recording
            .symlink(at, self.name.as_slice(), self.other.as_slice());
        self.add_child(directory, label, node);
        self.entry(unique, node);
        node
    }

    /// MKNOD of a regular file: its node
    pub fn mknod(&mut self, directory: usize) -> u64 {
        let at = self.directory_node(directory);
        let label = self.fresh_label();
        let node = self.add_node(REG, 0);
        self.spell(label);
        let unique = self.recording.mknod(at, self.name.as_slice(), REG);
        self.add_child(directory, label, node);
        self.entry(unique, node);
        node
    }

    /// MKDIR: its place
    pub fn mkdir(&mut self, directory: usize) -> usize {
        let at = self.directory_node(directory);
        let label = self.fresh_label();
        let node = self.add_node(DIR, 0);
        let place = self.add_directory(node);
        self.spell(label);
        let unique = self.recording.mkdir(at, self.name.as_slice(), DIR);
        self.add_child(directory, label, node);
        self.entry(unique, node);
        place
    }

    /// CREATE: its node, and its handle
    pub fn create(&mut self, directory: usize) -> (u64, u64) {
        let label = self.fresh_label();
        let unique = self.ask_create(directory, label);
        self.created(unique, directory, label)
    }

    /// The reply to a CREATE: the new node, and its handle
    pub fn created(&mut self, unique: u64, directory: usize, label: u64) -> (u64, u64) {
        let node = self.add_node(REG, 0);
        let handle = self.fresh_handle();
        self.add_child(directory, label, node);
        let attributes = self.attributes(node);
        self.recording.created(unique, node, attributes, handle);
        (node, handle)
    }

    /// A handle that is free.
    pub fn fresh_handle(&mut self) -> u64 {
        match self.spare_handles.pop() {
            Some(spare) => spare,
            None => {
                self.handle = self.handle.wrapping_add(1);
                self.handle
            }
        }
    }

    /// LINK of a file to a new name
    pub fn link(&mut self, node: u64, directory: usize) {
        let label = self.fresh_label();
        let unique = self.ask_link(node, directory, label);
        self.linked(unique, node, directory, label);
    }

    /// The reply to a LINK
    pub fn linked(&mut self, unique: u64, node: u64, directory: usize, label: u64) {
        let links = self.attributes(node).links.wrapping_add(1);
        self.set_links(node, links);
        self.looked_up(node);
        self.add_child(directory, label, node);
        self.entry(unique, node);
    }

    /// LINK of a file to a name that is there
    pub fn link_refused(&mut self, node: u64, directory: usize, child: Child, error: i32) {
        let unique = self.ask_link(node, directory, child.label);
        self.recording.error(unique, error);
    }

    /// UNLINK of the name at a place, and FORGET of its file where that was the last
    pub fn unlink(&mut self, directory: usize, place: usize, child: Child) {
        self.remove(opcodes::UNLINK, directory, place, child);
    }

    /// RMDIR of the name at a place, and FORGET of the directory
    pub fn rmdir(&mut self, directory: usize, place: usize, child: Child) {
        self.remove(opcodes::RMDIR, directory, place, child);
    }

    fn remove(&mut self, opcode: u32, directory: usize, place: usize, child: Child) {
        let unique = self.ask_named(opcode, directory, child.label);
        self.recording.done(unique, 0);
        self.take_child(directory, place);
        self.lose_name(child.node);
    }

    /// A file has a name less, and is forgotten where it has none.
    fn lose_name(&mut self, node: u64) {
        if let Some(there) = self.nodes.get_mut(node.wrapping_sub(1) as usize) {
            there.attributes.links = there.attributes.links.saturating_sub(1);
            if there.attributes.links == 0 {
                self.recording.forget(node, there.lookups);
                there.lookups = 0;
            }
        }
    }

    /// BATCH_FORGET of nodes that no name has, which are free from then on
    pub fn forget_all(&mut self, gone: &[u64]) {
        let mut items: Vec<(u64, u64)> = Vec::new(self.alloc);
        for node in gone {
            if let Some(there) = self.nodes.get_mut(node.wrapping_sub(1) as usize) {
                self.recording
                    .note_refusal(items.push((*node, there.lookups)));
                self.recording.note_refusal(self.spare_nodes.push(*node));
                there.lookups = 0;
            }
        }
        self.recording.batch_forget(items.as_slice());
    }

    /// RENAME of the name at a place to a new one
    pub fn rename(&mut self, directory: usize, place: usize, child: Child, new_directory: usize) {
        let at = self.directory_node(directory);
        let to = self.directory_node(new_directory);
        let label = self.fresh_label();
        self.spell(child.label);
        self.spell_other(label);
        let unique = self
            .recording
            .rename(at, self.name.as_slice(), to, self.other.as_slice());
        self.recording.done(unique, 0);
        self.take_child(directory, place);
        self.add_child(new_directory, label, child.node);
    }

    /// OPEN: its handle
    pub fn open(&mut self, node: u64) -> u64 {
        let unique = self.recording.open(opcodes::OPEN, node);
        let handle = self.fresh_handle();
        self.recording.opened(unique, handle);
        handle
    }

    /// READ of so many bytes, of which these come
    pub fn read(&mut self, node: u64, handle: u64, offset: u64, size: u32, bytes: &[u8]) {
        let unique = self
            .recording
            .read(opcodes::READ, node, handle, offset, size);
        self.recording.bytes(unique, bytes);
    }

    pub fn write(&mut self, node: u64, handle: u64, offset: u64, payload: &[u8]) {
        let unique = self.recording.write(node, handle, offset, payload);
        self.recording.wrote(unique, payload.len());
        let end = offset.wrapping_add(payload.len() as u64);
        let size = self.attributes(node).size;
        self.set_size(node, size.max(end));
    }

    /// FLUSH and RELEASE
    pub fn close(&mut self, node: u64, handle: u64) {
        let unique = self.recording.close(opcodes::FLUSH, node, handle);
        self.recording.done(unique, 0);
        let unique = self.recording.close(opcodes::RELEASE, node, handle);
        self.recording.done(unique, 0);
    }

    /// FLUSH and RELEASE of a handle, which is free from then on
    pub fn close_for_good(&mut self, node: u64, handle: u64) {
        self.close(node, handle);
        self.recording.note_refusal(self.spare_handles.push(handle));
    }

    /// OPENDIR: its handle
    pub fn opendir(&mut self, directory: usize) -> u64 {
        let node = self.directory_node(directory);
        let unique = self.recording.open(opcodes::OPENDIR, node);
        let handle = self.fresh_handle();
        self.recording.opened(unique, handle);
        handle
    }

    pub fn releasedir(&mut self, directory: usize, handle: u64) {
        let node = self.directory_node(directory);
        let unique = self.recording.close(opcodes::RELEASEDIR, node, handle);
        self.recording.done(unique, 0);
    }

    /// READDIR or READDIRPLUS on a handle, in answers of at most so many bytes, up to the empty one
    pub fn list(&mut self, directory: usize, handle: u64, opcode: u32, size: u32) {
        let plus = opcode == opcodes::READDIRPLUS;
        let mut next = 0usize;
        for _ in 0..u32::MAX {
            let entries = Entries::new(self.alloc, plus, size);
            let before = next;
            next = self.list_on(directory, handle, next, entries);
            if next == before {
                break;
            }
        }
    }

    /// One READDIR or READDIRPLUS from this place on, in whose answer some entries may stand before: the place behind it
    pub fn list_on(
        &mut self,
        directory: usize,
        handle: u64,
        from: usize,
        mut entries: Entries,
    ) -> usize {
        let node = self.directory_node(directory);
        let opcode = if entries.gives_nodes() {
            opcodes::READDIRPLUS
        } else {
            opcodes::READDIR
        };
        let size = entries.room();
        let unique = self.recording.read(opcode, node, handle, from as u64, size);
        let next = self.list_some(&mut entries, directory, from);
        self.recording.listed(unique, &entries);
        next
    }

    /// Adds the entries from this place on, as many as there is room for: the place behind them.
    fn list_some(&mut self, entries: &mut Entries, directory: usize, from: usize) -> usize {
        let mut next = from;
        let Some(there) = self.directories.get(directory) else {
            return next;
        };
        for child in there.children.get(from..).unwrap_or(&[]) {
            let spelled = spell(&mut self.name, child.label, self.name_len);
            self.recording.note_refusal(spelled);
            let Some(node) = self.nodes.get_mut(child.node.wrapping_sub(1) as usize) else {
                break;
            };
            let offset = (next as u64).wrapping_add(1);
            let name = self.name.as_slice();
            if !entries.add(name, offset, child.node, node.attributes) {
                break;
            }
            if entries.gives_nodes() {
                node.lookups = node.lookups.wrapping_add(1);
            }
            next = next.wrapping_add(1);
        }
        next
    }

    /// OPENDIR, a whole listing, and RELEASEDIR
    pub fn list_whole(&mut self, directory: usize, opcode: u32, size: u32) {
        let handle = self.opendir(directory);
        self.list(directory, handle, opcode, size);
        self.releasedir(directory, handle);
    }
}
