// Whether a name is that of a link.

use system::System;

pub fn is_link(sys: &System, path: &[u8]) -> bool {
    path.len() <= 4000 && sys.is_link(path)
}
