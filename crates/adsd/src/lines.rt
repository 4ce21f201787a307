//! Which word of a line of `grants` names nothing, where the answer says that the line goes wrong. No contract speaks
//! of what is told.

use ad_nearest::unknown_in_lines;
use cmd_store_open::DirStore;
use site_io::FileSite;
use std::io::Stdout;

/// Tells which word of the first line that goes wrong names nothing and what is nearest to it. The site is of the
/// store's files, opened once more to be read; where it represents no directory nothing is told.
pub fn tell_unknown_in_lines(
    rt: &HostRuntime,
    text: &[u8],
    site: &mut FileSite<HostRuntime, Stdout>,
) {
    if let Ok(opened) = DirStore::resume(rt.alloc(), site) {
        if let Ok(Some(hint)) = unknown_in_lines(rt.alloc(), opened.dir(), text) {
            let _ = eprintln!(rt; "adsd: {hint}");
        }
    }
}
