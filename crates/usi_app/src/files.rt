//! The limit on open files, compared with the number of slots.

ghost use Rattle.std.specs.Prelude.{◌≡◌, ◌-◌, nat_lt};
ghost use Rattle.usi_app.specs.declared.files.TheConstants.{OTHER_FILES};

use libc::types::rlimit;
use libc::{RLIMIT_NOFILE, getrlimit};

/// Files that a host opens beside one for each slot.
const OTHER_FILES: u64 = 10;

/// The most files this process may have open (the soft limit), if the system tells.
fn files_allowed() -> Option<u64> {
    let mut limit = rlimit {
        rlim_cur: 0,
        rlim_max: 0,
    };
    if getrlimit(RLIMIT_NOFILE, &mut limit) == 0 {
        Some(limit.rlim_cur)
    } else {
        None
    }
}

/// Whether `files` are fewer than `slots` connections and `OTHER_FILES` more need.
fn are_few(files: u64, slots: u64) -> bool
    ensures { result ≡ nat_lt (files - slots) OTHER_FILES }
{
    files.saturating_sub(slots) < OTHER_FILES
}

/// Warns on standard error if this process may open fewer files than a host with `slots` slots
/// needs.
pub fn warn_of_files<E: Eprint>(errors: &E, slots: u64) {
    let Some(files) = files_allowed() else {
        return;
    };
    if are_few(files, slots) {
        let wanted = slots.saturating_add(OTHER_FILES);
        let _ = eprintln!(errors;
            "usi_host: {wanted} files are wanted, and {files} may be open (ulimit -n)"
        );
    }
}
