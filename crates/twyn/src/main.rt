// twyn [IMAGE]: runs a script of calls from standard input on a volume, and prints one line for each. The work is that of the crates
// desk and front; this program parses and prints.
#![tactic(auto)]

mod answers;
mod calls;
mod image;
mod input;
mod listing;
mod print;
mod requests;
mod script;
mod session;
mod store;
mod words;

use image::Image;
use print::{Stopped, say};
use session::Session;
use std::env::FillError;
use std::rt::Env;
use std::str;
use store::PATH_LIMIT;

// Runs the script on an empty image, which is kept nowhere.
fn run_unnamed(rt: &HostRuntime, image: &mut Image) -> Result<(), Stopped> {
    let mut s = Session::new(None);
    input::run(rt, image, &mut s)
}

// Reads the image, runs the script, and writes the image back if the script changed it.
fn run_named(rt: &HostRuntime, path: &str, image: &mut Image) -> Result<(), Stopped> {
    store::load(rt, path, image)?;
    let name = store::new_name(path);
    let mut s = Session::new(Some(name.as_str()));
    input::run(rt, image, &mut s)?;
    if s.has_changed() {
        store::save(rt, name.as_str(), path, image)?;
    }
    Ok(())
}

// An empty name names no file. A file's name is text here.
fn run(rt: &HostRuntime, path: &[u8], image: &mut Image) -> Result<(), Stopped> {
    match str::from_utf8(path) {
        Ok("") => run_unnamed(rt, image),
        Ok(path) => run_named(rt, path, image),
        Err(_) => Err(say(rt, "twyn: the image's name is not UTF-8: nothing is done")),
    }
}

fn main(rt: HostRuntime) {
    // The one room for an image, which is lent to all that use it: a second one would be half a mebibyte of the stack more.
    let mut image = Image::new();
    let mut path = [0; PATH_LIMIT];
    let ran = match rt.arg(1, &mut path) {
        Ok(n) => run(&rt, &path[..n], &mut image),
        Err(FillError::NotPresent) => run_unnamed(&rt, &mut image),
        Err(FillError::TooLong) => Err(say(&rt, "image: File name too long")),
    };
    // Why the run was stopped has been said.
    let _ = ran;
}
