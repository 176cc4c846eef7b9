// Handles that can't be taken for a standard stream.
use std::fs::File;
use std::io;
use std::os::fd::AsRawFd;

// The greatest descriptor of a standard stream, that of standard error.
const LAST_STREAM: i32 = 2;

/// The same open file behind the descriptors of the standard streams. A program that is started with one of them closed
/// gets its descriptor for the next file that it opens, and what is meant for the stream would be written into the file.
pub fn behind_streams(file: File) -> io::Result<File> {
    if file.as_raw_fd() <= LAST_STREAM {
        file.try_clone()
    } else {
        Ok(file)
    }
}
