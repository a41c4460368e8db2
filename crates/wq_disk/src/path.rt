//! The path of a file below a root, which also gives the file's name. Another module reads the disk.
ghost use Rattle.std.specs.Prelude.{◌≡◌, ◌⊎◌, ◌++◌, ◌∷◌, [], IfOk, MatchOption, OnOk, drop, string_bytes};
ghost use Rattle.std.specs.Str.{IsUtf8, byte};

use std::alloc::{AllocError, Global};
use std::marker::Model;
use std::str;

/// The path of a file below a root: the path of the file's directory, with a slash at its end, and the file's name
/// there.
#[derive(Drop)]
pub struct TreePath {
    bytes: Vec<u8>,
    /// The number of bytes of the root's path, with its slash.
    root_len: usize,
}

impl Model for TreePath {
    ghost use Rattle.wq_disk.specs.Path.{TreePathData, tree_path_code};

    ghost Value = { TreePathData };

    ghost coded = { tree_path_code };

    ghost view = { λ p. record { root_len = p.root_len; bytes = p.bytes.items } };
}

impl TreePath {
    /// A path that is still empty. It takes no memory.
    pub fn new(alloc: Global, root_len: usize) -> TreePath
        ensures { result ≡ record { root_len = root_len; bytes = [] } }
    {
        TreePath {
            bytes: Vec::new(alloc),
            root_len,
        }
    }

    /// Becomes the path of this name in a directory.
    pub fn set(&mut self, directory: &[u8], name: &[u8]) -> Result<(), AllocError>
        ensures root { self.new.root_len ≡ self.old.root_len }
        ensures path { OnOk result (self.new.bytes ≡ directory.now ++ name.now) }
    {
        self.bytes.clear();
        self.bytes.extend_from_slice(directory)?;
        self.bytes.extend_from_slice(name)
    }

    /// The number of bytes of the root's path, with its slash.
    pub fn root_len(&self) -> usize
        ensures { result ≡ self.now.root_len }
    {
        self.root_len
    }

    /// The path as text, if it is in UTF-8.
    pub fn text(&self) -> Option<&str>
        ensures { MatchOption result
            (IsUtf8 self.now.bytes → ⊥)
            (λ text. text.now ≡ self.now.bytes) }
    {
        match str::from_utf8(&self.bytes) {
            Ok(text) => Some(text),
            Err(_) => None,
        }
    }

    /// The name below the root: the part after the root and its slash.
    pub fn name(&self) -> &[u8]
        ensures { result.now ≡ drop self.now.root_len self.now.bytes }
    {
        self.bytes.get(self.root_len..).unwrap_or(b"")
    }

    /// The path with a slash at its end, like that of a directory.
    pub fn directory(&self, alloc: Global) -> Result<Vec<u8>, AllocError>
        ensures { IfOk result (λ path. path.items ≡ self.now.bytes ++ (byte "/" ∷ [])) }
    {
        let mut path = Vec::with_capacity(alloc, self.bytes.len().saturating_add(1))?;
        path.extend_from_slice(&self.bytes)?;
        path.push(b'/')?;
        Ok(path)
    }
}

/// The path of a root with a slash at its end. So the system follows a root that is a link.
pub fn with_slash(alloc: Global, root: &str) -> Result<String, AllocError>
    ensures { IfOk result (λ path. (string_bytes path ≡ root.now)
        ⊎ (string_bytes path ≡ root.now ++ (byte "/" ∷ []))) }
{
    let mut path = String::from_str(alloc, root)?;
    if !root.ends_with('/') {
        path.push('/')?;
    }
    Ok(path)
}
