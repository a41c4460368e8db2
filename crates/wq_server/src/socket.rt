//! The server's socket in the file system: how it is made, so that nobody else can connect to it,
//! and how it is removed.

use mio::net::UnixStream;
use std::alloc::{AllocError, Global};
use std::env::{self, Env};
use std::fs::{self, DirBuilder, Files, Permissions};
use std::io::{self, Error, ErrorKind};
use std::net::Net;
use std::os::unix::fs::{DirBuilderExt, FileTypeExt, MetadataExt, PermissionsExt};
use std::os::unix::net::{SocketAddr, UnixListener};

/// How many names the server tries for the directory in which it makes the socket. A server that is
/// killed at the wrong moment leaves a directory of such a name.
const TRIES: u32 = 10_000;

/// Only the owner may read and write, which a client needs to connect.
const SOCKET_MODE: u32 = 0o600;

/// Only the owner may enter.
const DIRECTORY_MODE: u32 = 0o700;

/// A socket on which the server listens.
#[derive(Drop)]
pub struct Listening {
    /// Accepts connections.
    pub listener: UnixListener,
    /// The socket's path. The server may have another working directory when it removes it.
    path: String,
    file: FileId,
}

/// The identity of a file, under whatever path.
#[derive(Clone, Copy, PartialEq, Eq, Drop)]
struct FileId {
    device: u64,
    number: u64,
}

impl FileId {
    /// The identity of the file at a path. It does not follow a link.
    fn at<R: Files>(rt: &R, path: &str) -> io::Result<FileId> {
        let metadata = fs::symlink_metadata(rt, path)?;
        Ok(FileId {
            device: metadata.dev(),
            number: metadata.ino(),
        })
    }
}

/// Listens on a socket at a path. Only the owner can connect to it.
///
/// The directory has to exist. A socket at the path that nobody listens on is replaced. A socket
/// that somebody listens on, and any other file, is an error and stays. The socket is made in a
/// directory beside it that nobody else can enter, gets its mode there, and is then given its name.
pub fn listen<R: Files + Net + Env>(rt: &R, alloc: Global, path: &str) -> io::Result<Listening> {
    // A path that is too long for clients is refused.
    SocketAddr::from_pathname(path)?;
    let kept_path = whole_path(rt, alloc, path)?;
    let directory = make_directory(rt, alloc, path)?;
    let listened = listen_in(rt, alloc, &directory, path);
    let _ = fs::remove_dir(rt, directory.as_str());
    let (listener, file) = listened?;
    Ok(Listening {
        listener,
        path: kept_path,
        file,
    })
}

/// The path of a file from `/` on. If the working directory has none, or one that is not UTF-8, it is
/// the path that was given.
fn whole_path<R: Env>(rt: &R, alloc: Global, path: &str) -> Result<String, AllocError> {
    match env::current_dir(&(rt, alloc)) {
        Ok(mut directory) => {
            directory.push(path)?;
            Ok(directory.into_string())
        }
        Err(_) => String::from_str(alloc, path),
    }
}

/// Removes the file of a socket, unless another file is in its place. If no memory is left for
/// that, the file stays, as a stale socket.
pub fn remove<R: Files>(rt: &R, alloc: Global, listening: &Listening) {
    let path = listening.path.as_str();
    if FileId::at(rt, path).ok() != Some(listening.file) {
        return;
    }
    if let Ok(directory) = make_directory(rt, alloc, path) {
        if let Ok(aside) = format!(in alloc; "{directory}/s") {
            remove_aside(rt, &aside, listening);
        }
        let _ = fs::remove_dir(rt, directory.as_str());
    }
}

/// Removes the file of a socket by way of a path where nobody else comes. Another server may
/// meanwhile have put its own socket in that place, and that socket gets its name back.
fn remove_aside<R: Files>(rt: &R, aside: &str, listening: &Listening) {
    let path = listening.path.as_str();
    if fs::rename(rt, path, aside).is_err() {
        return;
    }
    if FileId::at(rt, aside).ok() != Some(listening.file) {
        let _ = fs::hard_link(rt, aside, path);
    }
    let _ = fs::remove_file(rt, aside);
}

/// Removes a socket on which nobody listens, if there is one.
fn clear<R: Files + Net>(rt: &R, path: &str, aside: &str) -> io::Result<()> {
    let metadata = match fs::symlink_metadata(rt, path) {
        Ok(metadata) => metadata,
        Err(error) if error.kind() == ErrorKind::NotFound => return Ok(()),
        Err(error) => return Err(error),
    };
    if !metadata.file_type().is_socket() {
        return Err(Error::from(ErrorKind::AlreadyExists));
    }
    match in_use(rt, path) {
        Some(error) => Err(error),
        None => take_away(rt, path, aside),
    }
}

/// Why a socket must stay, if it must: somebody listens on it, or that cannot be found out. This
/// call waits for nobody. A server that hangs, with its queue of clients full, counts as one that
/// listens.
fn in_use<R: Net>(rt: &R, path: &str) -> Option<Error> {
    match UnixStream::connect(rt, path) {
        Ok(_) => Some(Error::from(ErrorKind::AddrInUse)),
        Err(error) if error.kind() == ErrorKind::ConnectionRefused => None,
        Err(error) => Some(error),
    }
}

/// Removes a socket on which nobody listened. It moves the socket aside and tries it there once
/// more. Another server may have replaced it meanwhile, and that server's socket gets its name
/// back.
fn take_away<R: Files + Net>(rt: &R, path: &str, aside: &str) -> io::Result<()> {
    fs::rename(rt, path, aside)?;
    let in_use = in_use(rt, aside);
    if in_use.is_some() {
        // If a third server has taken the name in that moment, it keeps the name.
        let _ = fs::hard_link(rt, aside, path);
    }
    fs::remove_file(rt, aside)?;
    match in_use {
        Some(error) => Err(error),
        None => Ok(()),
    }
}

/// Makes a directory beside a path that nobody else can enter, and gives its path.
fn make_directory<R: Files>(rt: &R, alloc: Global, path: &str) -> io::Result<String> {
    let beside = match path.rfind('/') {
        Some(slash) => path.split_at(slash + 1).0,
        None => "",
    };
    for number in 0..TRIES {
        let directory = format!(in alloc; "{beside}.wqd{number}")?;
        match DirBuilder::new()
            .mode(DIRECTORY_MODE)
            .create(rt, directory.as_str())
        {
            Ok(()) => return Ok(directory),
            Err(error) if error.kind() == ErrorKind::AlreadyExists => {}
            Err(error) => return Err(error),
        }
    }
    Err(Error::from(ErrorKind::AlreadyExists))
}

/// Listens on a socket that it makes in a directory of its own, and then names by a path. At the
/// path there may be at most a stale socket. Gives the identity of the file.
fn listen_in<R: Files + Net>(
    rt: &R,
    alloc: Global,
    directory: &str,
    path: &str,
) -> io::Result<(UnixListener, FileId)> {
    let made = format!(in alloc; "{directory}/s")?;
    clear(rt, path, &made)?;
    let listener = match UnixListener::bind(rt, made.as_str()) {
        Ok(listener) => listener,
        Err(error) => {
            // The file may be there even so, if the socket has a name and cannot listen.
            let _ = fs::remove_file(rt, made.as_str());
            return Err(error);
        }
    };
    let named = name(rt, &made, path);
    let _ = fs::remove_file(rt, made.as_str());
    Ok((listener, named?))
}

/// Gives a socket its mode and its name, and returns the identity of the file. It finds that out
/// before the naming: after it, another server may move the socket aside for a moment, to see
/// whether somebody listens.
fn name<R: Files>(rt: &R, made: &str, path: &str) -> io::Result<FileId> {
    fs::set_permissions(rt, made, Permissions::from_mode(SOCKET_MODE))?;
    let file = FileId::at(rt, made)?;
    fs::hard_link(rt, made, path)?;
    Ok(file)
}
