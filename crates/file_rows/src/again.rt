// Files that are read and written again.
use row_files::Lines;
use std::alloc::AllocError;

/// Whether a file is written again as it was.
pub fn tell_again(lines: &mut Lines, written: Result<Vec<u8>, AllocError>, read: &[u8]) {
    match written {
        Ok(written) => {
            let is_same = written.as_slice() == read;
            write!(lines, "written again as it was {is_same}");
        }
        Err(AllocError) => lines.run_short(),
    }
}
