// The image file: read at the start, and written back by way of a new file that is renamed over it.
ghost use Rattle.std.specs.Prelude.{◌≡◌, ◌≤◌, [], ◌∷◌, ◌++◌, length};

use crate::image::Image;
use crate::print::{Stopped, fail, say};
use arrayvec::ArrayString;
use std::fs::{File, OpenOptions};
use std::io::{ErrorKind, Read, Write};
use std::{fs, io};

// How many bytes of the image are read at once.
const BLOCK: usize = 65536;

// Reads the file into the image, which is empty, to its end. `None`: it is longer than an image may be. Not inlined: the run that comes after
// it would have the block on its stack too.
#[inline(never)]
fn read_whole(rt: &HostRuntime, path: &str, image: &mut Image) -> io::Result<Option<()>> {
    let mut file = File::open(rt, path)?;
    let mut block = [0; BLOCK];
    // A proved loop has to end, and nothing says that a file does: so its turns are counted.
    for _ in 0..u64::MAX {
        let n = file.read(&mut block)?;
        if n == 0 {
            break;
        }
        if image.try_extend_from_slice(&block[..n]).is_err() {
            return Ok(None);
        }
    }
    Ok(Some(()))
}

/// Reads the file into the image, which is empty. A file that is not there is an empty image; any other that cannot be read, or does
/// not fit, is said.
pub(crate) fn load(rt: &HostRuntime, path: &str, image: &mut Image) -> Result<(), Stopped> {
    match read_whole(rt, path, image) {
        Ok(Some(())) => Ok(()),
        Ok(None) => Err(say(
            rt,
            "twyn: the image is longer than 524,544 bytes: nothing is done",
        )),
        Err(e) if e.kind() == ErrorKind::NotFound => Ok(()),
        Err(e) => Err(fail(rt, path, e)),
    }
}

/// The most bytes of the image's name, and of the new file's.
pub(crate) const PATH_LIMIT: usize = 4096;

pub(crate) const NEW_PATH_LIMIT: usize = 4100;

/// The name of the new file: the image's, with `.new` after it, which is 46, 110, 101, 119 in bytes.
pub(crate) fn new_name(path: &str) -> ArrayString<NEW_PATH_LIMIT>
    ensures { length path.now ≤ 4096 → result.bytes ≡ path.now ++ 46 ∷ 110 ∷ 101 ∷ 119 ∷ [] }
{
    let mut name = ArrayString::new();
    let _path_fits = name.try_push_str(path);
    let _end_fits = name.try_push_str(".new");
    name
}

// Makes the new file, which must not be there.
fn create(rt: &HostRuntime, name: &str) -> io::Result<File> {
    OpenOptions::new()
        .write(true)
        .create_new(true)
        .open(rt, name)
}

/// Sees that the image can be written back: the new file is made and taken away again. Why it cannot be made is said.
pub(crate) fn try_new(rt: &HostRuntime, name: &str) -> Result<(), Stopped> {
    match create(rt, name) {
        Ok(file) => {
            drop(file);
            fs::remove_file(rt, name).map_err(|_| Stopped)
        }
        Err(e) => Err(fail(rt, name, e)),
    }
}

// Writes all of the new file, to the disk, and gives it the old one's name.
fn replace(
    rt: &HostRuntime,
    mut file: File,
    name: &str,
    path: &str,
    image: &[u8],
) -> io::Result<()> {
    file.write_all(image)?;
    file.sync_all()?;
    drop(file);
    fs::rename(rt, name, path)
}

/// Writes the image back. If that fails the file is as it was, and why is said; the new file is taken away.
pub(crate) fn save(rt: &HostRuntime, name: &str, path: &str, image: &[u8]) -> Result<(), Stopped> {
    let file = match create(rt, name) {
        Ok(file) => file,
        Err(e) => return Err(fail(rt, name, e)),
    };
    match replace(rt, file, name, path, image) {
        Ok(()) => Ok(()),
        Err(e) => {
            let stopped = fail(rt, name, e);
            let _ = fs::remove_file(rt, name);
            Err(stopped)
        }
    }
}
