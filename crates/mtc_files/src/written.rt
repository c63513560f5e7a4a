//! An open journal or tile file that is written, and what is removed of it if a sync fails.

use std::cell::Cell;
use std::fs::{Metadata, OpenFile};
use std::io;
use std::os::unix::fs::FileExt;

/// What a file that is written holds.
#[derive(Clone, Copy, PartialEq)]
pub enum Content {
    /// A journal. A write of more than one byte appends: nothing that stands after it counts.
    Journal,
    /// Tiles, each of which counts.
    Tiles,
}

/// An open journal or tile file that is written.
///
/// After a sync that failed the system may keep bytes in memory that the disk doesn't have, and
/// take them for written. On some file systems, as ext4, bytes that were new to the file then never
/// come to the disk, not even if they are written again. So after a sync that failed the file is
/// cut off behind the bytes that are on the disk, and a byte that was written over has its former
/// value again. What is written there later is new to the file.
///
/// A command that is killed in the meantime leaves bytes after the end of a journal, or tiles that
/// no record covers. The next append, and the next write of tiles that begins after all that was
/// read or written, cuts these off before it writes, and the file is as long as before.
#[derive(Drop)]
pub struct Written<F> {
    file: F,
    content: Content,
    // How many bytes the file has.
    length: Cell<u64>,
    // How many of them are on the disk, but for a byte that was written over.
    synced: Cell<u64>,
    // Where the bytes end that were read or written.
    used: Cell<u64>,
    // The offset of a byte that was written over, and its former value.
    former: Cell<Option<(u64, u8)>>,
}

impl<F: OpenFile + FileExt + Drop> Written<F> {
    /// The open file, all of which is on the disk but for what may stand after a journal's end.
    pub fn new(file: F, content: Content) -> io::Result<Written<F>> {
        let length = file.metadata()?.len();
        Ok(Written {
            file,
            content,
            length: Cell::new(length),
            synced: Cell::new(length),
            used: Cell::new(0),
            former: Cell::new(None),
        })
    }

    // Makes ready a write of so many bytes, if it begins in bytes that are on the disk.
    fn prepare(&self, offset: u64, size: usize) -> io::Result<()> {
        if offset >= self.synced.get() {
            return Ok(());
        }
        match self.content {
            Content::Journal if size == 1 => self.remember(offset),
            Content::Journal => {
                self.synced.set(offset);
                self.cut_off(offset)
            }
            Content::Tiles => {
                self.synced.set(offset);
                if offset >= self.used.get() {
                    self.cut_off(offset)
                } else {
                    Ok(())
                }
            }
        }
    }

    // Notes that bytes up to an offset were read or written.
    fn use_to(&self, end: u64) {
        self.used.set(self.used.get().max(end));
    }

    // Remembers the byte at an offset.
    fn remember(&self, offset: u64) -> io::Result<()> {
        let mut byte = [0];
        self.file.read_exact_at(&mut byte, offset)?;
        self.former.set(Some((offset, byte[0])));
        Ok(())
    }

    // Cuts the file off at an offset, and gives it its length again: what stood there is gone, in
    // memory too.
    fn cut_off(&self, offset: u64) -> io::Result<()> {
        self.file.set_len(offset)?;
        self.file.set_len(self.length.get())
    }

    // Removes what was written since the last sync that answered Ok. The former byte comes first: a
    // journal reads without its last record from then on, whatever becomes of what stands after it.
    // The sync has failed already: that this fails too is nothing new.
    fn undo(&self) {
        if let Some((offset, byte)) = self.former.get() {
            let _ = self.file.write_all_at(&[byte], offset);
        }
        let _ = self.file.set_len(self.synced.get());
    }
}

impl<F: OpenFile + FileExt + Drop> OpenFile for Written<F> {
    fn metadata(&self) -> io::Result<Metadata> {
        self.file.metadata()
    }

    fn set_len(&self, size: u64) -> io::Result<()> {
        self.file.set_len(size)
    }

    fn sync_all(&self) -> io::Result<()> {
        if let Err(why) = self.file.sync_all() {
            self.undo();
            return Err(why);
        }
        self.synced.set(self.length.get());
        self.former.set(None);
        Ok(())
    }

    fn sync_data(&self) -> io::Result<()> {
        self.sync_all()
    }
}

impl<F: OpenFile + FileExt + Drop> FileExt for Written<F> {
    fn read_at(&self, buf: &mut [u8], offset: u64) -> io::Result<usize> {
        let size = self.file.read_at(buf, offset)?;
        self.use_to(offset.saturating_add(size as u64));
        Ok(size)
    }

    fn write_at(&self, buf: &[u8], offset: u64) -> io::Result<usize> {
        self.prepare(offset, buf.len())?;
        let size = self.file.write_at(buf, offset)?;
        let end = offset.saturating_add(size as u64);
        self.use_to(end);
        self.length.set(self.length.get().max(end));
        Ok(size)
    }
}
