//! The limit of a file's size. A write to a file that has it would end the program by a signal, so no such write is made.

/// The line of the system's list that tells it.
const LINE: &str = "Max file size";

/// How many bytes a file may have by this list of limits; `None` if that is not limited, or not told.
pub fn limit_in(list: &str) -> Option<u64> {
    for line in list.lines() {
        if let Some(limits) = line.strip_prefix(LINE) {
            return limits.split_whitespace().next()?.parse::<u64>().ok();
        }
    }
    None
}
