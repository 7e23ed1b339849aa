//! What a file is that holds no JSON, by its first bytes.
ghost use Rattle.app_explain.specs.FileKinds.{kind_of};
ghost use Rattle.std.specs.Prelude.{◌≡◌};

/// What a file is.
#[derive(Clone, Copy, PartialEq, Eq)]
pub enum FileKind {
    /// UTF-8 with a byte order mark.
    Marked,
    /// UTF-16 with a byte order mark.
    Wide,
    /// Compressed by gzip.
    Gzip,
    /// A ZIP archive.
    Zip,
    /// A picture, PNG.
    Png,
}

/// What a file with these bytes is, if its first bytes say so.
pub(crate) fn kind_of(bytes: &[u8]) -> Option<FileKind>
    ensures { result ≡ kind_of bytes.now }
{
    if bytes.starts_with(b"\xef\xbb\xbf") {
        Some(FileKind::Marked)
    } else if bytes.starts_with(b"\xff\xfe") || bytes.starts_with(b"\xfe\xff") {
        Some(FileKind::Wide)
    } else if bytes.starts_with(b"\x1f\x8b") {
        Some(FileKind::Gzip)
    } else if bytes.starts_with(b"PK\x03\x04") {
        Some(FileKind::Zip)
    } else if bytes.starts_with(b"\x89PNG") {
        Some(FileKind::Png)
    } else {
        None
    }
}

/// What a file of this kind is, and what to do with it.
pub(crate) fn said_of(kind: FileKind) -> &'static str {
    match kind {
        FileKind::Marked => {
            "It begins with a byte order mark.\nWhat to do: save it as UTF-8 without one.\n"
        }
        FileKind::Wide => {
            "It is UTF-16.\nWhat to do: save it as UTF-8 without a byte order mark.\n"
        }
        FileKind::Gzip => "It is compressed by gzip.\nWhat to do: unpack it first.\n",
        FileKind::Zip => "It is a ZIP archive.\nWhat to do: unpack it first.\n",
        FileKind::Png => "It is a picture, PNG.\nWhat to do: give the right file in its place.\n",
    }
}
