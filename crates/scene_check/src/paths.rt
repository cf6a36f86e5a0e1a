//! The names of a path, and its parent.
ghost use Rattle.std.specs.Prelude.{◌≡◌, [], ◌∷◌, MatchOption};
ghost use Rattle.std.specs.Option.{option_copied};
ghost use Rattle.std.specs.List.{list_all};
ghost use Rattle.scene_model.specs.Paths.{is_name as is_name_of, names_of, parent_of as parent, IsCutAt};

use scene_model::is_name;

const SLASH: u8 = 47;

/// The place of the first slash.
fn slash_in(path: &[u8]) -> Option<usize>
    ensures { MatchOption result (names_of path.now ≡ path.now ∷ []) (IsCutAt path.now) }
{
    for (at, byte) in path.iter().enumerate() {
        if *byte == SLASH {
            return Some(at);
        }
    }
    None
}

/// Whether each name of a path is a name.
pub fn has_names(path: &[u8]) -> bool
    ensures { result ≡ list_all is_name_of (names_of path.now) }
{
    let mut rest = path;
    while let Some(at) = slash_in(rest) {
        if !is_name(&rest[..at]) {
            return false;
        }
        rest = &rest[at + 1..];
    }
    is_name(rest)
}

/// The path before the last slash.
pub fn parent_of(path: &[u8]) -> Option<&[u8]>
    ensures { option_copied result ≡ parent path.now }
{
    let mut at = path.len();
    while 0 < at {
        at -= 1;
        if path[at] == SLASH {
            return Some(&path[..at]);
        }
    }
    None
}
